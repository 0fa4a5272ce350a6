//! Testing a row of a screen that may have symbols (02, 2.10). A screen without symbols is tested as ever (crate `row_test`), one
//! with symbols by the row's reduction (crate `symbol_reduction`).
#![tactic(auto)]

ghost use Rattle.std.specs.Prelude.{◌≡◌, ◌*◌, ◌≤◌, min, length};
ghost use Rattle.checking.specs.Checked.{CheckedIn};
ghost use Rattle.checking.specs.Tree.{tree_count};
ghost use Rattle.row_test.specs.Answer.{row_answered};
ghost use Rattle.symbol_screens.specs.Rewriting.{lent};
ghost use Rattle.symbol_rows.specs.RowTestWith.{checked_answer_with, test_row_answer_with};

use check_lent::check_lent_counted;
use limits::{FEW_RECORDS, RECORD, RECORDS};
use records::record::Node;
use refusal::Refusal;
use row_test::test::test_row;
use symbol_reduction::reduce::{copy_front, reduced_truth};
use symbol_row_fault::row_fault_with;
use three_valued::logic::Truth;

// The answer for a screen that was accepted and whose root has the tree count: 8, 12 and 13, then the truth.
#[tactic(auto, using(crate::proofs::AnswersWith::large_refused))]
fn test_checked_with(
    table: &[u8],
    records: &[u8],
    pool: &[u8],
    text: &[u8],
    used: u32,
    root: Node,
    row: &[u8],
    nulls: u64,
    tree: u16,
    out: &mut [u8],
) -> Result<Truth, Refusal>
    requires checked_in { CheckedIn (lent text.now) table.now records.now pool.now used root.0 }
    requires tree_value { tree ≡ min (tree_count records.now root.0) 4097 }
    requires used_in_bounds { 16 * used ≤ length out.old }
    ensures { row_answered result ≡ checked_answer_with text.now table.now records.now
        pool.now used root.0 row.now nulls }
{
    if 4096 < tree {
        return Err(Refusal::Tree);
    }
    row_fault_with(table, text, row, nulls)?;
    copy_front(records, 16 * (used as usize), out);
    Ok(reduced_truth(table, records, pool, text, used, root, row, nulls, out))
}

// The copy of the records that the reduction works in. Its frame stays below that of a function with two callers, so that a
// screen without symbols does not pay for it.
fn test_accepted(
    table: &[u8],
    records: &[u8],
    pool: &[u8],
    text: &[u8],
    used: u32,
    root: Node,
    row: &[u8],
    nulls: u64,
    tree: u16,
) -> Result<Truth, Refusal>
    requires checked_in { CheckedIn (lent text.now) table.now records.now pool.now used root.0 }
    requires tree_value { tree ≡ min (tree_count records.now root.0) 4097 }
    ensures { row_answered result ≡ checked_answer_with text.now table.now records.now
        pool.now used root.0 row.now nulls }
{
    if used <= 64 {
        let mut short = [0u8; RECORD * FEW_RECORDS];
        return test_checked_with(
            table, records, pool, text, used, root, row, nulls, tree, &mut short,
        );
    }
    let mut out = [0u8; RECORD * RECORDS];
    test_checked_with(
        table, records, pool, text, used, root, row, nulls, tree, &mut out,
    )
}

fn test_within(
    table: &[u8],
    records: &[u8],
    pool: &[u8],
    text: &[u8],
    used: u64,
    root: u64,
    row: &[u8],
    nulls: u64,
    types: &mut [u8],
    trees: &mut [u16],
) -> Result<Truth, Refusal>
    requires used_in_bounds { used ≤ 4096 → used ≤ length types.old }
    requires used_in_bounds_2 { used ≤ 4096 → used ≤ length trees.old }
    ensures { row_answered result ≡ test_row_answer_with text.now table.now records.now
        pool.now used root row.now nulls }
{
    check_lent_counted(table, records, pool, text.len(), used, root, types, trees)?;
    test_accepted(
        table,
        records,
        pool,
        text,
        used as u32,
        Node(root as u32),
        row,
        nulls,
        trees[root as usize],
    )
}

// Most screens have few records, and small tables cost less to clear.
fn test_symbols(
    table: &[u8],
    records: &[u8],
    pool: &[u8],
    text: &[u8],
    used: u64,
    root: u64,
    row: &[u8],
    nulls: u64,
) -> Result<Truth, Refusal>
    ensures { row_answered result ≡ test_row_answer_with text.now table.now records.now
        pool.now used root row.now nulls }
{
    if used <= 64 {
        let mut few = [0u8; FEW_RECORDS];
        let mut small = [0u16; FEW_RECORDS];
        return test_within(
            table, records, pool, text, used, root, row, nulls, &mut few, &mut small,
        );
    }
    let mut types = [0u8; RECORDS];
    let mut trees = [0u16; RECORDS];
    test_within(
        table, records, pool, text, used, root, row, nulls, &mut types, &mut trees,
    )
}

/// What testing a row answers, whatever text pool is lent.
// The answer of a screen taken as one without symbols, if there is one, is that beside every text pool within its limit.
pub fn test_row_with(
    table: &[u8],
    records: &[u8],
    pool: &[u8],
    text: &[u8],
    used: u64,
    root: u64,
    row: &[u8],
    nulls: u64,
) -> Result<Truth, Refusal>
    ensures { row_answered result ≡ test_row_answer_with text.now table.now records.now
        pool.now used root row.now nulls }
{
    if text.len() <= 8192 {
        if let Some(answer) = test_row(table, records, pool, used, root, row, nulls) {
            return answer;
        }
    }
    test_symbols(table, records, pool, text, used, root, row, nulls)
}
