// The classes by the numbers of the rows' symbols (crate ranked_chain): all rows are looked at (13) before the first is judged.
ghost use Rattle.std.specs.Prelude.{◌≡◌, true, [], ℕ, ◌+◌, ◌*◌, ◌≤◌, ◌<◌, length};
ghost use Rattle.records.specs.Bytes.{all};
ghost use Rattle.refusal.specs.Numbers.{fault};
ghost use Rattle.checking.specs.Checked.{CheckedIn};
ghost use Rattle.checking.specs.Tree.{tree_count};
ghost use Rattle.chain_rows.specs.Chain.{row_at, is_tested};
ghost use Rattle.chain_rows.specs.Classes.{Judged};
ghost use Rattle.symbol_screens.specs.Rewriting.{lent};
ghost use Rattle.symbol_rows.specs.RowTestWith.{row_fault_with};
ghost use Rattle.symbol_reduction.specs.Reduction.{Reduced};
ghost use Rattle.text_order.specs.Codes.{Codes};
ghost use Rattle.symbol_chain.specs.ChainWith.{answer_at_with, row_fits_with};

use crate::each::judge_each;
use ranked_chain::screen::rank_chain;
use records::record::Node;
use refusal::Refusal;
use row_chunks::judge_chunks;
use symbol_row_fault::row_fault_with;
use text_order::making::number_text;

// Of row r of the chain.
fn chain_fault(
    table: &[u8],
    text: &[u8],
    values: &[u8],
    r: usize,
    nulls: u64,
) -> Result<(), Refusal>
    requires table_len_bound { (length table.now ≤ 64) × (length text.now ≤ 8192) × (r < 1024) }
    requires table_in_bounds { 8 * length table.now * r + 8 * length table.now ≤ length values.now }
    ensures { fault result ≡ row_fault_with text.now table.now (row_at table.now values.now r)
        nulls }
{
    let wide = 8 * table.len();
    let start = wide * r;
    let end = start + wide;
    row_fault_with(table, text, &values[start..end], nulls)
}

// Every row, from 0 up.
fn rows_fit_with(table: &[u8], text: &[u8], values: &[u8], nulls: &[u64]) -> bool
    requires table_len_bound { (length table.now ≤ 64) × (length text.now ≤ 8192) × (length nulls.now ≤ 1024) }
    requires values_len { length values.now ≡ 8 * length table.now * length nulls.now }
    ensures { result ≡ all (row_fits_with text.now table.now values.now nulls.now)
        (length nulls.now) }
{
    for r in 0..nulls.len() {
        if chain_fault(table, text, values, r, nulls[r]).is_err() {
            return false;
        }
    }
    true
}

// Every row's class.
fn judge_numbers(
    table: &[u8],
    records: &[u8],
    pool: &[u8],
    text: &[u8],
    used: u32,
    root: Node,
    values: &[u8],
    nulls: &[u64],
    codes: &[u64],
    ranked: &mut [u8],
    classes: &mut [u8],
    out: &mut [u8],
)
    requires checked_in { CheckedIn (lent text.now) table.now records.now pool.now used root.0 }
    requires root_bound { tree_count records.now root.0 ≤ 4096 }
    requires used_in_bounds { 16 * used ≤ length out.old }
    requires reduced { Reduced text.now table.now records.now pool.now [] 0 used 0 out.old }
    requires values_len { length values.now ≡ 8 * length table.now * length nulls.now }
    requires nulls_len_bound { length nulls.now ≤ 1024 }
    requires nulls_in_bounds { length nulls.now ≤ length classes.old }
    requires nulls_nonzero { 0 < length nulls.now }
    requires nulls_value { all (row_fits_with text.now table.now values.now nulls.now) (length nulls.now) ≡ true }
    requires codes { Codes text.now codes.now }
    requires in_bounds { (8192 ≤ length codes.now) × (length ranked.old ≡ 2 * length pool.now) }
    ensures { Judged (answer_at_with text.now table.now records.now
        pool.now used root.0 values.now nulls.now) classes.new
        (length nulls.now) }
{
    rank_chain(text, codes, records, pool, used, ranked, out);
    judge_chunks(table, codes, out, ranked, root, values, nulls, classes);
}

/// Every row's class, 0 false, 1 unknown, 2 passes; false if a row is refused (13). `out` is overwritten.
// Its tables are large: inlined, they would lie below the calls of `judge_each` too, which are deep.
#[inline(never)]
pub fn judge_ranked(
    table: &[u8],
    records: &[u8],
    pool: &[u8],
    text: &[u8],
    used: u32,
    root: Node,
    values: &[u8],
    nulls: &[u64],
    classes: &mut [u8],
    out: &mut [u8],
) -> bool
    requires checked_in { CheckedIn (lent text.now) table.now records.now pool.now used root.0 }
    requires root_bound { tree_count records.now root.0 ≤ 4096 }
    requires used_in_bounds { 16 * used ≤ length out.old }
    requires reduced { Reduced text.now table.now records.now pool.now [] 0 used 0 out.old }
    requires values_len { length values.now ≡ 8 * length table.now * length nulls.now }
    requires nulls_len_bound { length nulls.now ≤ 1024 }
    requires nulls_in_bounds { length nulls.now ≤ length classes.old }
    requires nulls_nonzero { 0 < length nulls.now }
    ensures value { result ≡ all (λ i. is_tested (answer_at_with text.now table.now records.now
        pool.now used root.0 values.now nulls.now i)) (length nulls.now) }
    ensures judged { result ≡ true → Judged (answer_at_with text.now table.now records.now
        pool.now used root.0 values.now nulls.now) classes.new
        (length nulls.now) }
{
    if !rows_fit_with(table, text, values, nulls) {
        return false;
    }
    let mut codes = [0u64; 8192];
    // Never so; it would have to be proved.
    if !number_text(text, &mut codes) {
        return judge_each(
            table, records, pool, text, used, root, values, nulls, classes, out,
        );
    }
    let mut ranked = [0u8; 131072];
    let size = 2 * pool.len();
    judge_numbers(
        table,
        records,
        pool,
        text,
        used,
        root,
        values,
        nulls,
        &codes,
        &mut ranked[..size],
        classes,
        out,
    );
    true
}
