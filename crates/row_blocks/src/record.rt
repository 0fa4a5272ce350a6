// A record's truths in a block from those of its inputs.
ghost use Rattle.std.specs.Prelude.{◌≡◌, ℕ, ◌+◌, ◌<◌, ◌≤◌, List, length, ℤ};
ghost use Rattle.std.proofs.Math.Option.{Option};
ghost use Rattle.three_valued.specs.Logic.{of_bool};
ghost use Rattle.truth.specs.Evaluate.{null_test};
ghost use Rattle.masks.specs.Masks.{Tells, Shown};
ghost use Rattle.masks.specs.Block.{chain_truth, masks_at, Turn};
ghost use Rattle.pool_order.specs.Order.{Ordered};

use crate::operand::{operand, truth_input};
use compare_masks::{between_columns, between_truths, compare_columns, connect_masks};
use masks::reach::is_kept;
use masks::{Masks, not_masks};
use pool_lists::member::member_masks;
use records::record::{Fields, Node, fields_in};

// is_null of a column.
fn null_word(nulls: u64) -> Masks
    ensures { (rows : ℕ) (keys : List ℕ) (at : ℕ) (value : ℕ → Option ℤ) → Shown rows keys at nulls value
        → Tells rows result (λ i. of_bool (null_test (value i))) }
{
    Masks {
        truths: nulls,
        unknowns: 0,
    }
}

// Codes 0 to 7: the values of both inputs.
fn compare_record(
    records: &[u8],
    pool: &[u8],
    values: &[u8],
    nulls: &[u64],
    columns: usize,
    base: usize,
    rows: usize,
    truths: &[u64],
    unknowns: &[u64],
    n: Node,
    f: Fields,
    keys: &mut [u64],
) -> Masks
    requires turn { Turn records.now pool.now columns values.now nulls.now base rows truths.now unknowns.now n f }
    requires in_bounds { 192 ≤ length keys.old }
    requires kind_value { f.kind ≡ 4 }
    requires code_bound { f.code < 8 }
    ensures { Tells rows result (λ (i : ℕ). chain_truth records.now pool.now columns
        values.now nulls.now n.0 (base + i)) }
{
    let x = operand(
        records,
        pool,
        values,
        nulls,
        columns,
        base,
        rows,
        truths,
        unknowns,
        Node(f.a),
        keys,
        0,
    );
    let y = operand(
        records,
        pool,
        values,
        nulls,
        columns,
        base,
        rows,
        truths,
        unknowns,
        Node(f.b),
        keys,
        64,
    );
    compare_columns(f.code, keys, 0, x, 64, y)
}

// Codes 15 to 19: the truths of both inputs.
fn connect_record(
    records: &[u8],
    pool: &[u8],
    values: &[u8],
    nulls: &[u64],
    columns: usize,
    base: usize,
    rows: usize,
    truths: &[u64],
    unknowns: &[u64],
    n: Node,
    f: Fields,
    keys: &mut [u64],
) -> Masks
    requires turn { Turn records.now pool.now columns values.now nulls.now base rows truths.now unknowns.now n f }
    requires in_bounds { 192 ≤ length keys.old }
    requires kind_value { f.kind ≡ 4 }
    requires le_code { 8 ≤ f.code }
    ensures { Tells rows result (λ (i : ℕ). chain_truth records.now pool.now columns
        values.now nulls.now n.0 (base + i)) }
{
    let s = truth_input(
        records,
        pool,
        values,
        nulls,
        columns,
        base,
        rows,
        truths,
        unknowns,
        Node(f.a),
        keys,
    );
    let t = truth_input(
        records,
        pool,
        values,
        nulls,
        columns,
        base,
        rows,
        truths,
        unknowns,
        Node(f.b),
        keys,
    );
    connect_masks(f.code, s, t)
}

// The comparisons and connectives.
fn operator_record(
    records: &[u8],
    pool: &[u8],
    values: &[u8],
    nulls: &[u64],
    columns: usize,
    base: usize,
    rows: usize,
    truths: &[u64],
    unknowns: &[u64],
    n: Node,
    f: Fields,
    keys: &mut [u64],
) -> Masks
    requires turn { Turn records.now pool.now columns values.now nulls.now base rows truths.now unknowns.now n f }
    requires in_bounds { 192 ≤ length keys.old }
    requires kind_value { f.kind ≡ 4 }
    ensures { Tells rows result (λ (i : ℕ). chain_truth records.now pool.now columns
        values.now nulls.now n.0 (base + i)) }
{
    if f.code < 8 {
        return compare_record(
            records, pool, values, nulls, columns, base, rows, truths, unknowns, n, f, keys,
        );
    }
    connect_record(
        records, pool, values, nulls, columns, base, rows, truths, unknowns, n, f, keys,
    )
}

// is_null and is_not_null.
fn null_record(
    records: &[u8],
    pool: &[u8],
    values: &[u8],
    nulls: &[u64],
    columns: usize,
    base: usize,
    rows: usize,
    truths: &[u64],
    unknowns: &[u64],
    n: Node,
    f: Fields,
    keys: &mut [u64],
) -> Masks
    requires turn { Turn records.now pool.now columns values.now nulls.now base rows truths.now unknowns.now n f }
    requires in_bounds { 192 ≤ length keys.old }
    requires lt_kind { 5 < f.kind }
    requires kind_bound { f.kind < 8 }
    ensures { Tells rows result (λ (i : ℕ). chain_truth records.now pool.now columns
        values.now nulls.now n.0 (base + i)) }
{
    let m = null_word(operand(
        records,
        pool,
        values,
        nulls,
        columns,
        base,
        rows,
        truths,
        unknowns,
        Node(f.a),
        keys,
        0,
    ));
    if f.kind == 6 {
        return m;
    }
    not_masks(m)
}

// is_between of values.
fn between_values(
    records: &[u8],
    pool: &[u8],
    values: &[u8],
    nulls: &[u64],
    columns: usize,
    base: usize,
    rows: usize,
    truths: &[u64],
    unknowns: &[u64],
    n: Node,
    f: Fields,
    keys: &mut [u64],
) -> Masks
    requires turn { Turn records.now pool.now columns values.now nulls.now base rows truths.now unknowns.now n f }
    requires in_bounds { 192 ≤ length keys.old }
    requires kind_value { f.kind ≡ 8 }
    ensures { Tells rows result (λ (i : ℕ). chain_truth records.now pool.now columns
        values.now nulls.now n.0 (base + i)) }
{
    let x = operand(
        records,
        pool,
        values,
        nulls,
        columns,
        base,
        rows,
        truths,
        unknowns,
        Node(f.a),
        keys,
        0,
    );
    let low = operand(
        records,
        pool,
        values,
        nulls,
        columns,
        base,
        rows,
        truths,
        unknowns,
        Node(f.b),
        keys,
        64,
    );
    let high = operand(
        records,
        pool,
        values,
        nulls,
        columns,
        base,
        rows,
        truths,
        unknowns,
        Node(f.c),
        keys,
        128,
    );
    between_columns(f.code, keys, x, low, high)
}

// The words kept for record n.
fn kept_masks(truths: &[u64], unknowns: &[u64], n: u32) -> Masks
    requires n_in_bounds { n < length truths.now }
    requires n_in_bounds_2 { n < length unknowns.now }
    ensures { result ≡ masks_at truths.now unknowns.now n }
{
    Masks {
        truths: truths[n as usize],
        unknowns: unknowns[n as usize],
    }
}

// is_between: where the truths of all its inputs are kept, of these.
fn between_record(
    records: &[u8],
    pool: &[u8],
    values: &[u8],
    nulls: &[u64],
    columns: usize,
    base: usize,
    rows: usize,
    truths: &[u64],
    unknowns: &[u64],
    n: Node,
    f: Fields,
    keys: &mut [u64],
) -> Masks
    requires turn { Turn records.now pool.now columns values.now nulls.now base rows truths.now unknowns.now n f }
    requires in_bounds { 192 ≤ length keys.old }
    requires kind_value { f.kind ≡ 8 }
    ensures { Tells rows result (λ (i : ℕ). chain_truth records.now pool.now columns
        values.now nulls.now n.0 (base + i)) }
{
    let a = is_kept(fields_in(records, Node(f.a)));
    let b = is_kept(fields_in(records, Node(f.b)));
    let c = is_kept(fields_in(records, Node(f.c)));
    if a & b & c {
        return between_truths(
            f.code,
            kept_masks(truths, unknowns, f.a),
            kept_masks(truths, unknowns, f.b),
            kept_masks(truths, unknowns, f.c),
        );
    }
    between_values(
        records, pool, values, nulls, columns, base, rows, truths, unknowns, n, f, keys,
    )
}

// Where a column's numbers in the order of the pool may be kept for a block, behind the scratch of divisions; other inputs keep
// none.
fn hints_at(g: Fields) -> usize
    ensures { (64 ≤ result) × (result ≤ 8192) }
{
    if g.kind == 1 {
        return 832 + 17 * (g.a % 64) as usize;
    }
    8192
}

// is_in.
fn member_record(
    records: &[u8],
    pool: &[u8],
    order: &[u64],
    values: &[u8],
    nulls: &[u64],
    columns: usize,
    base: usize,
    rows: usize,
    truths: &[u64],
    unknowns: &[u64],
    n: Node,
    f: Fields,
    keys: &mut [u64],
) -> Masks
    requires turn { Turn records.now pool.now columns values.now nulls.now base rows truths.now unknowns.now n f }
    requires in_bounds { 192 ≤ length keys.old }
    requires kind_value { f.kind ≡ 10 }
    requires ordered { Ordered pool.now order.now }
    ensures { Tells rows result (λ (i : ℕ). chain_truth records.now pool.now columns
        values.now nulls.now n.0 (base + i)) }
{
    let list = fields_in(records, Node(f.b));
    let x = operand(
        records,
        pool,
        values,
        nulls,
        columns,
        base,
        rows,
        truths,
        unknowns,
        Node(f.a),
        keys,
        0,
    );
    let hints = hints_at(fields_in(records, Node(f.a)));
    // Blocks begin at multiples of 64.
    let stamp = base as u64 ^ 1;
    member_masks(pool, order, list, f.code == 1, keys, x, hints, stamp)
}

// The tests of values.
fn test_record(
    records: &[u8],
    pool: &[u8],
    order: &[u64],
    values: &[u8],
    nulls: &[u64],
    columns: usize,
    base: usize,
    rows: usize,
    truths: &[u64],
    unknowns: &[u64],
    n: Node,
    f: Fields,
    keys: &mut [u64],
) -> Masks
    requires turn { Turn records.now pool.now columns values.now nulls.now base rows truths.now unknowns.now n f }
    requires in_bounds { 192 ≤ length keys.old }
    requires lt_kind { 5 < f.kind }
    requires ordered { Ordered pool.now order.now }
    ensures { Tells rows result (λ (i : ℕ). chain_truth records.now pool.now columns
        values.now nulls.now n.0 (base + i)) }
{
    if f.kind < 8 {
        return null_record(
            records, pool, values, nulls, columns, base, rows, truths, unknowns, n, f, keys,
        );
    }
    if f.kind == 8 {
        return between_record(
            records, pool, values, nulls, columns, base, rows, truths, unknowns, n, f, keys,
        );
    }
    member_record(
        records, pool, order, values, nulls, columns, base, rows, truths, unknowns, n, f, keys,
    )
}

// The truth of record n.
pub fn record_masks(
    records: &[u8],
    pool: &[u8],
    order: &[u64],
    values: &[u8],
    nulls: &[u64],
    columns: usize,
    base: usize,
    rows: usize,
    truths: &[u64],
    unknowns: &[u64],
    n: Node,
    f: Fields,
    keys: &mut [u64],
) -> Masks
    requires turn { Turn records.now pool.now columns values.now nulls.now base rows truths.now unknowns.now n f }
    requires in_bounds { 192 ≤ length keys.old }
    requires ordered { Ordered pool.now order.now }
    ensures { Tells rows result (λ (i : ℕ). chain_truth records.now pool.now columns
        values.now nulls.now n.0 (base + i)) }
{
    if f.kind == 4 {
        return operator_record(
            records, pool, values, nulls, columns, base, rows, truths, unknowns, n, f, keys,
        );
    }
    if f.kind == 5 {
        return not_masks(truth_input(
            records,
            pool,
            values,
            nulls,
            columns,
            base,
            rows,
            truths,
            unknowns,
            Node(f.a),
            keys,
        ));
    }
    test_record(
        records, pool, order, values, nulls, columns, base, rows, truths, unknowns, n, f, keys,
    )
}
