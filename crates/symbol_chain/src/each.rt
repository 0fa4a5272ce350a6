// The classes row by row. The records were copied once: from row to row only the constants of their reduction change.
ghost use Rattle.std.specs.Prelude.{◌≡◌, true, [], ℕ, ◌+◌, ◌*◌, ◌≤◌, ◌<◌, length, get_or};
ghost use Rattle.records.specs.Bytes.{all};
ghost use Rattle.checking.specs.Checked.{CheckedIn};
ghost use Rattle.checking.specs.Tree.{tree_count};
ghost use Rattle.chain_rows.specs.Chain.{row_at, is_tested};
ghost use Rattle.chain_rows.specs.Classes.{truth_class, class_of, Judged};
ghost use Rattle.symbol_screens.specs.Rewriting.{lent};
ghost use Rattle.symbol_rows.specs.RowTestWith.{test_row_answer_with};
ghost use Rattle.symbol_reduction.specs.Reduction.{Reduced};
ghost use Rattle.symbol_chain.specs.ChainWith.{answer_at_with};

use records::record::Node;
use symbol_reduction::reduce::reduced_truth;
use symbol_row_fault::row_fault_with;
use three_valued::logic::Truth;

// 0 false, 1 unknown, 2 passes.
fn class_of(s: Truth) -> u8
    ensures { result ≡ truth_class s }
{
    match s {
        Truth::False => 0,
        Truth::Unknown => 1,
        Truth::True => 2,
    }
}

// The class of one row; 3 refused.
fn row_class(
    table: &[u8],
    records: &[u8],
    pool: &[u8],
    text: &[u8],
    used: u32,
    root: Node,
    row: &[u8],
    nulls: u64,
    out: &mut [u8],
) -> u8
    requires checked_in { CheckedIn (lent text.now) table.now records.now pool.now used root.0 }
    requires root_bound { tree_count records.now root.0 ≤ 4096 }
    requires used_in_bounds { 16 * used ≤ length out.old }
    requires reduced { Reduced text.now table.now records.now pool.now [] 0 used 0 out.old }
    ensures value { result ≡ class_of (test_row_answer_with text.now table.now records.now
        pool.now used root.0 row.now nulls) }
    ensures reduced_2 { Reduced text.now table.now records.now pool.now [] 0 used 0
        out.new }
{
    if row_fault_with(table, text, row, nulls).is_err() {
        return 3;
    }
    class_of(reduced_truth(table, records, pool, text, used, root, row, nulls, out))
}

// Of row r of the chain.
fn chain_class(
    table: &[u8],
    records: &[u8],
    pool: &[u8],
    text: &[u8],
    used: u32,
    root: Node,
    values: &[u8],
    r: usize,
    nulls: u64,
    out: &mut [u8],
) -> u8
    requires checked_in { CheckedIn (lent text.now) table.now records.now pool.now used root.0 }
    requires root_bound { tree_count records.now root.0 ≤ 4096 }
    requires used_in_bounds { 16 * used ≤ length out.old }
    requires reduced { Reduced text.now table.now records.now pool.now [] 0 used 0 out.old }
    requires r_bound { r < 1024 }
    requires table_in_bounds { 8 * length table.now * r + 8 * length table.now ≤ length values.now }
    ensures value { result ≡ class_of (test_row_answer_with text.now table.now records.now
        pool.now used root.0 (row_at table.now values.now r) nulls) }
    ensures reduced_2 { Reduced text.now table.now records.now pool.now [] 0 used 0
        out.new }
{
    let wide = 8 * table.len();
    let start = wide * r;
    let end = start + wide;
    row_class(
        table,
        records,
        pool,
        text,
        used,
        root,
        &values[start..end],
        nulls,
        out,
    )
}

/// Every row's class, 0 false, 1 unknown, 2 passes; false if a row is refused (13). `out` holds the records.
pub fn judge_each(
    table: &[u8],
    records: &[u8],
    pool: &[u8],
    text: &[u8],
    used: u32,
    root: Node,
    values: &[u8],
    nulls: &[u64],
    classes: &mut [u8],
    out: &mut [u8],
) -> bool
    requires checked_in { CheckedIn (lent text.now) table.now records.now pool.now used root.0 }
    requires root_bound { tree_count records.now root.0 ≤ 4096 }
    requires used_in_bounds { 16 * used ≤ length out.old }
    requires reduced { Reduced text.now table.now records.now pool.now [] 0 used 0 out.old }
    requires values_len { length values.now ≡ 8 * length table.now * length nulls.now }
    requires nulls_len_bound { length nulls.now ≤ 1024 }
    requires nulls_in_bounds { length nulls.now ≤ length classes.old }
    ensures value { result ≡ all (λ i. is_tested (answer_at_with text.now table.now records.now
        pool.now used root.0 values.now nulls.now i)) (length nulls.now) }
    ensures judged { result ≡ true → Judged (answer_at_with text.now table.now records.now
        pool.now used root.0 values.now nulls.now) classes.new
        (length nulls.now) }
{
    for r in 0..nulls.len() {
        let k = chain_class(
            table, records, pool, text, used, root, values, r, nulls[r], out,
        );
        if k == 3 {
            return false;
        }
        classes[r] = k;
    }
    true
}
