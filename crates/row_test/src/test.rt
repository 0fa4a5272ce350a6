// Testing a row: the checks in 01's order, then the root's truth. A row passes on true only.
ghost use Rattle.std.specs.Prelude.{◌≡◌, ◌≤◌, ◌<◌, min, IfSome, length};
ghost use Rattle.checking.specs.Check.{check_answer};
ghost use Rattle.checking.specs.Checked.{Checked};
ghost use Rattle.checking.specs.Tree.{Counted, tree_count};
ghost use Rattle.checking.specs.Fault.{answer_of, Stands};
ghost use Rattle.checking.specs.Answer.{Accepted};
ghost use Rattle.row_test.specs.RowTest.{checked_answer, test_row_answer};
ghost use Rattle.row_test.specs.Answer.{row_answered};

use crate::evaluate::truth_at;
use crate::row::row_fault;
use checking::check::{answer_of, check_few_counted, check_with_text};
use limits::{FEW_RECORDS, RECORDS};
use records::record::Node;
use refusal::Refusal;
use three_valued::logic::Truth;

// The answer for a screen that was accepted and whose root has the tree count: 8, 12 and 13, then the truth.
#[tactic(auto, using(crate::proofs::Answers::large_refused))]
pub fn test_checked(
    table: &[u8],
    records: &[u8],
    pool: &[u8],
    used: u64,
    root: Node,
    row: &[u8],
    nulls: u64,
    tree: u16,
) -> Result<Truth, Refusal>
    requires checked { Checked table.now records.now pool.now used root.0 }
    requires tree_value { tree ≡ min (tree_count records.now root.0) 4097 }
    ensures { row_answered result ≡ checked_answer table.now records.now pool.now used root.0
        row.now nulls }
{
    if 4096 < tree {
        return Err(Refusal::Tree);
    }
    row_fault(table, row, nulls)?;
    Ok(truth_at(records, pool, row, nulls, root))
}

// Checking as a screen without symbols: one of few records has its slices passed on once and not twice.
fn check_sized(
    table: &[u8],
    records: &[u8],
    pool: &[u8],
    used: u64,
    root: u64,
    types: &mut [u8],
    trees: &mut [u16],
) -> u32
    requires used_in_bounds { used ≤ 4096 → used ≤ length types.old }
    requires used_in_bounds_2 { used ≤ 4096 → used ≤ length trees.old }
    ensures result_value { answer_of result ≡ check_answer table.now records.now pool.now used root }
    ensures counted { answer_of result ≡ Accepted → Counted records.now trees.new used }
    ensures stands { result < 8 → Stands table.now records.now pool.now used root }
{
    if used <= 64 {
        return check_few_counted(table, records, pool, used, root, types, trees);
    }
    check_with_text(table, records, pool, 0, used, root, types, trees)
}

// Nothing of a screen that was refused at a Text: a text pool may say otherwise. Any answer is that beside every text pool
// within its limit.
fn test_within(
    table: &[u8],
    records: &[u8],
    pool: &[u8],
    used: u64,
    root: u64,
    row: &[u8],
    nulls: u64,
    types: &mut [u8],
    trees: &mut [u16],
) -> Option<Result<Truth, Refusal>>
    requires used_in_bounds { used ≤ 4096 → used ≤ length types.old }
    requires used_in_bounds_2 { used ≤ 4096 → used ≤ length trees.old }
    ensures { IfSome result (λ a. Stands table.now records.now pool.now used root
        × (row_answered a ≡ test_row_answer table.now records.now pool.now used root row.now nulls)) }
{
    let fault = check_sized(table, records, pool, used, root, types, trees);
    if 7 < fault {
        return None;
    }
    match answer_of(fault) {
        Err(refusal) => Some(Err(refusal)),
        Ok(()) => Some(test_checked(
            table,
            records,
            pool,
            used,
            Node(root as u32),
            row,
            nulls,
            trees[root as usize],
        )),
    }
}

// The same. Most screens have few records, and small tables cost less to clear.
pub fn test_row(
    table: &[u8],
    records: &[u8],
    pool: &[u8],
    used: u64,
    root: u64,
    row: &[u8],
    nulls: u64,
) -> Option<Result<Truth, Refusal>>
    ensures { IfSome result (λ a. Stands table.now records.now pool.now used root
        × (row_answered a ≡ test_row_answer table.now records.now pool.now used root row.now nulls)) }
{
    if used <= 64 {
        let mut few = [0u8; FEW_RECORDS];
        let mut small = [0u16; FEW_RECORDS];
        return test_within(
            table, records, pool, used, root, row, nulls, &mut few, &mut small,
        );
    }
    let mut types = [0u8; RECORDS];
    let mut trees = [0u16; RECORDS];
    test_within(
        table, records, pool, used, root, row, nulls, &mut types, &mut trees,
    )
}
