// The hedge list of a chain: the refusals in their order, the rows' classes, and then the list.
ghost use Rattle.std.specs.Prelude.{◌≡◌, cond, ℕ, ◌+◌, ◌*◌, ◌/◌, ◌%◌, ◌≤◌, ◌<◌, min, List, [], ◌∷◌, eqb, length, get_or};
ghost use Rattle.checking.specs.Check.{check_answer};
ghost use Rattle.checking.specs.Checked.{Checked};
ghost use Rattle.checking.specs.Tree.{Counted, tree_count};
ghost use Rattle.checking.specs.Answer.{Accepted, answered};
ghost use Rattle.file_blocks.specs.Format.{overwrite};
ghost use Rattle.row_test.specs.Answer.{RowAnswer};
ghost use Rattle.chain_rows.specs.Chain.{answer_at};
ghost use Rattle.row_list.specs.Numbers.{count, numbers, bytes_of};
ghost use Rattle.hedge.specs.Answer.{hedge_answered};
ghost use Rattle.hedge.specs.Hedge.{counts_answer, checked_answer, list_if, hedge_answer, hedge_bytes};
ghost use Rattle.chain_rows.specs.Classes.{Judged};

use chain_rows::judge::judge_rows;
use checking::check::check_counted;
use limits::{FEW_RECORDS, RECORDS, ROWS};
use records::record::Node;
use refusal::Refusal;
use row_list::{count_class, write_list};
use tally::{Tally, sums_fit};

// How many rows passed, were false, were unknown.
#[derive(Clone, Copy)]
pub struct ListedRows {
    pub passed: u64,
    pub is_false: u64,
    pub unknown: u64,
}

/// The rows are judged. 21, or the list is written.
pub fn list_rows(
    classes: &[u8],
    rows: usize,
    list: &mut [u8],
    tally: Tally,
) -> Result<ListedRows, Refusal>
    requires rows_in_bounds { rows ≤ length classes.now }
    requires rows_bound { rows ≤ 1024 }
    requires rows_in_bounds_2 { 2 * rows ≤ length list.old }
    ensures by_index { (answers : ℕ → RowAnswer) → Judged answers classes.now rows
        → hedge_answered result ≡ counts_answer answers rows tally }
    ensures by_index_2 { (answers : ℕ → RowAnswer) → Judged answers classes.now rows
        → list.new ≡ list_if (hedge_answered result) list.old answers rows }
{
    let passed = count_class(classes, rows, 2);
    let is_false = count_class(classes, rows, 0);
    let unknown = count_class(classes, rows, 1);
    if !sums_fit(tally, passed, is_false, unknown) {
        return Err(Refusal::Tally);
    }
    write_list(classes, rows, list);
    Ok(ListedRows {
        passed,
        is_false,
        unknown,
    })
}

// The screen was accepted, and its root has the tree count: 8, 20, 12, 13, then the list.
fn list_checked(
    table: &[u8],
    records: &[u8],
    pool: &[u8],
    used: u64,
    root: Node,
    tree: u16,
    values: &[u8],
    nulls: &[u64],
    list: &mut [u8],
    tally: Tally,
    classes: &mut [u8],
) -> Result<ListedRows, Refusal>
    requires checked { Checked table.now records.now pool.now used root.0 }
    requires tree_value { tree ≡ min (tree_count records.now root.0) 4097 }
    requires in_bounds { 1024 ≤ length classes.old }
    ensures value { hedge_answered result ≡ checked_answer table.now records.now pool.now used root.0
        values.now nulls.now (length list.old) tally }
    ensures list_after { list.new ≡ list_if (hedge_answered result) list.old (answer_at table.now records.now
        pool.now used root.0 values.now nulls.now) (length nulls.now) }
{
    if 4096 < tree {
        return Err(Refusal::Tree);
    }
    if 1024 < nulls.len() {
        return Err(Refusal::Chain);
    }
    if list.len() / 2 < nulls.len() {
        return Err(Refusal::Chain);
    }
    if values.len() != 8 * table.len() * nulls.len() {
        return Err(Refusal::RowLength);
    }
    if !judge_rows(
        table, records, pool, used, root, tree, values, nulls, classes,
    ) {
        return Err(Refusal::Row);
    }
    list_rows(classes, nulls.len(), list, tally)
}

// The screen was checked: its refusal, or the list. A function of its own with two callers, so that the tables of judging
// take no stack while the screen is checked.
fn list_answered(
    answer: Result<(), Refusal>,
    table: &[u8],
    records: &[u8],
    pool: &[u8],
    used: u64,
    root: u64,
    values: &[u8],
    nulls: &[u64],
    list: &mut [u8],
    tally: Tally,
    trees: &[u16],
    classes: &mut [u8],
) -> Result<ListedRows, Refusal>
    requires answer_value { answered answer ≡ check_answer table.now records.now pool.now used root }
    requires counted { answered answer ≡ Accepted → Counted records.now trees.now used }
    requires used_in_bounds { used ≤ 4096 → used ≤ length trees.now }
    requires in_bounds { 1024 ≤ length classes.old }
    ensures value { hedge_answered result ≡ hedge_answer table.now records.now pool.now used root
        values.now nulls.now (length list.old) tally }
    ensures list_after { list.new ≡ hedge_bytes table.now records.now pool.now used root
        values.now nulls.now list.old tally }
{
    answer?;
    list_checked(
        table,
        records,
        pool,
        used,
        Node(root as u32),
        trees[root as usize],
        values,
        nulls,
        list,
        tally,
        classes,
    )
}

// The screen is checked once; then all rows, and only then is the list written. Most screens have few records, and small
// tables cost less to clear.
pub fn hedge_list(
    table: &[u8],
    records: &[u8],
    pool: &[u8],
    used: u64,
    root: u64,
    values: &[u8],
    nulls: &[u64],
    list: &mut [u8],
    tally: Tally,
) -> Result<ListedRows, Refusal>
    ensures value { hedge_answered result ≡ hedge_answer table.now records.now pool.now used root
        values.now nulls.now (length list.old) tally }
    ensures list_after { list.new ≡ hedge_bytes table.now records.now pool.now used root
        values.now nulls.now list.old tally }
{
    let mut classes = [0u8; ROWS];
    if used <= 64 {
        let mut few = [0u8; FEW_RECORDS];
        let mut small = [0u16; FEW_RECORDS];
        let first = check_counted(table, records, pool, used, root, &mut few, &mut small);
        return list_answered(
            first,
            table,
            records,
            pool,
            used,
            root,
            values,
            nulls,
            list,
            tally,
            &small,
            &mut classes,
        );
    }
    let mut types = [0u8; RECORDS];
    let mut trees = [0u16; RECORDS];
    let answer = check_counted(table, records, pool, used, root, &mut types, &mut trees);
    list_answered(
        answer,
        table,
        records,
        pool,
        used,
        root,
        values,
        nulls,
        list,
        tally,
        &trees,
        &mut classes,
    )
}
