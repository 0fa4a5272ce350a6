// The records of a block one by one, in rising order up to the root.
ghost use Rattle.std.specs.Prelude.{◌≡◌, ℕ, ◌+◌, ◌<◌, ◌≤◌, length, slice_index};
ghost use Rattle.masks.specs.Masks.{Tells};
ghost use Rattle.masks.specs.Block.{chain_truth, Ready, Held, Turn, NullWords, Closed};
ghost use Rattle.pool_order.specs.Order.{Ordered};

use crate::lines::{is_line, line_masks, null_words};
use crate::operand::truth_input;
use crate::record::record_masks;
use masks::Masks;
use masks::reach::is_kept;
use records::record::{Fields, Node, fields_in};

// The truth of record n, whose turn it is.
fn turn_masks(
    records: &[u8],
    pool: &[u8],
    order: &[u64],
    values: &[u8],
    nulls: &[u64],
    columns: usize,
    base: usize,
    rows: usize,
    truths: &[u64],
    unknowns: &[u64],
    n: Node,
    f: Fields,
    keys: &mut [u64],
    words: &[u64],
) -> Masks
    requires turn { Turn records.now pool.now columns values.now nulls.now base rows truths.now unknowns.now n f }
    requires in_bounds { 192 ≤ length keys.old }
    requires ordered { Ordered pool.now order.now }
    requires null_words { NullWords nulls.now columns base rows words.now }
    requires in_bounds_2 { 64 ≤ length words.now }
    ensures { Tells rows result (λ (i : ℕ). chain_truth records.now pool.now columns
        values.now nulls.now n.0 (base + i)) }
{
    if is_line(records, n.0, f) {
        return line_masks(
            records, pool, values, nulls, columns, base, rows, truths, unknowns, n, f, words,
        );
    }
    record_masks(
        records, pool, order, values, nulls, columns, base, rows, truths, unknowns, n, f, keys,
    )
}

// The words of the marked records up to the root, in rising order. Those that are not marked are passed over.
fn block_records(
    records: &[u8],
    pool: &[u8],
    order: &[u64],
    values: &[u8],
    nulls: &[u64],
    columns: usize,
    base: usize,
    rows: usize,
    root: Node,
    marks: &[u8],
    truths: &mut [u64],
    unknowns: &mut [u64],
    keys: &mut [u64],
    words: &[u64],
)
    requires ready { Ready records.now pool.now columns values.now nulls.now base rows root.0 }
    requires root_bound { root.0 < 4096 }
    requires closed { Closed records.now marks.now 0 root.0 }
    requires in_bounds { 4096 ≤ length marks.now }
    requires in_bounds_2 { 4096 ≤ length truths.old }
    requires in_bounds_3 { 4096 ≤ length unknowns.old }
    requires in_bounds_4 { 192 ≤ length keys.old }
    requires ordered { Ordered pool.now order.now }
    requires null_words { NullWords nulls.now columns base rows words.now }
    requires in_bounds_5 { 64 ≤ length words.now }
    ensures { (m : ℕ) → m < root.0 + 1 → slice_index marks.now m ≡ 1 → Held records.now
        pool.now columns values.now nulls.now base rows truths.new
        unknowns.new m }
{
    for n in 0..root.0 + 1 {
        let f = fields_in(records, Node(n));
        if (marks[n as usize] == 1) & is_kept(f) {
            let m = turn_masks(
                records,
                pool,
                order,
                values,
                nulls,
                columns,
                base,
                rows,
                truths,
                unknowns,
                Node(n),
                f,
                keys,
                words,
            );
            truths[n as usize] = m.truths;
            unknowns[n as usize] = m.unknowns;
        }
    }
}

/// The truth of the root in each row.
pub fn block_masks(
    records: &[u8],
    pool: &[u8],
    order: &[u64],
    values: &[u8],
    nulls: &[u64],
    columns: usize,
    base: usize,
    rows: usize,
    root: Node,
    marks: &[u8],
    truths: &mut [u64],
    unknowns: &mut [u64],
    keys: &mut [u64],
) -> Masks
    requires ready { Ready records.now pool.now columns values.now nulls.now base rows root.0 }
    requires root_bound { root.0 < 4096 }
    requires root_value { slice_index marks.now root.0 ≡ 1 }
    requires closed { Closed records.now marks.now 0 root.0 }
    requires in_bounds { 4096 ≤ length marks.now }
    requires in_bounds_2 { 4096 ≤ length truths.old }
    requires in_bounds_3 { 4096 ≤ length unknowns.old }
    requires in_bounds_4 { 192 ≤ length keys.old }
    requires ordered { Ordered pool.now order.now }
    ensures { Tells rows result (λ (i : ℕ). chain_truth records.now pool.now columns
        values.now nulls.now root.0 (base + i)) }
{
    let mut words = [0u64; 64];
    null_words(nulls, base, rows, columns, &mut words);
    block_records(
        records, pool, order, values, nulls, columns, base, rows, root, marks, truths, unknowns,
        keys, &words,
    );
    truth_input(
        records, pool, values, nulls, columns, base, rows, truths, unknowns, root, keys,
    )
}
