//! The hedge list of a chain under a screen that may have symbols (02, 2.10 and 2.14): one without symbols as ever (crate
//! `hedge`), one with symbols by crate `symbol_chain`. Refusals in the same order.
#![tactic(auto)]

ghost use Rattle.std.specs.Prelude.{◌≡◌, ◌*◌, ◌≤◌, min, length};
ghost use Rattle.checking.specs.Checked.{CheckedIn};
ghost use Rattle.checking.specs.Tree.{tree_count};
ghost use Rattle.hedge.specs.Answer.{hedge_answered};
ghost use Rattle.hedge.specs.Hedge.{list_if};
ghost use Rattle.symbol_screens.specs.Rewriting.{lent};
ghost use Rattle.symbol_chain.specs.ChainWith.{answer_at_with};
ghost use Rattle.symbol_hedge.specs.HedgeWith.{checked_hedge_with, hedge_answer_with, hedge_bytes_with};

use check_lent::check_lent_counted;
use hedge::list::{ListedRows, hedge_list, list_rows};
use limits::{RECORD, RECORDS, ROWS};
use records::record::Node;
use refusal::Refusal;
use symbol_chain::judge_symbols;
use symbol_free::has_symbols;
use symbol_reduction::reduce::copy_front;
use tally::Tally;

// The screen was accepted, and its root has the tree count: 8, 20, 12, 13, then the list.
fn list_checked_with(
    table: &[u8],
    records: &[u8],
    pool: &[u8],
    text: &[u8],
    used: u32,
    root: Node,
    tree: u16,
    values: &[u8],
    nulls: &[u64],
    list: &mut [u8],
    tally: Tally,
    classes: &mut [u8],
    out: &mut [u8],
) -> Result<ListedRows, Refusal>
    requires checked_in { CheckedIn (lent text.now) table.now records.now pool.now used root.0 }
    requires tree_value { tree ≡ min (tree_count records.now root.0) 4097 }
    requires in_bounds { 1024 ≤ length classes.old }
    requires used_in_bounds { 16 * used ≤ length out.old }
    ensures value { hedge_answered result ≡ checked_hedge_with text.now table.now records.now pool.now
        used root.0 values.now nulls.now (length list.old) tally }
    ensures list_after { list.new ≡ list_if (hedge_answered result) list.old (answer_at_with text.now table.now
        records.now pool.now used root.0 values.now nulls.now)
        (length nulls.now) }
{
    if 4096 < tree {
        return Err(Refusal::Tree);
    }
    if 1024 < nulls.len() {
        return Err(Refusal::Chain);
    }
    if list.len() / 2 < nulls.len() {
        return Err(Refusal::Chain);
    }
    if values.len() != 8 * table.len() * nulls.len() {
        return Err(Refusal::RowLength);
    }
    copy_front(records, 16 * (used as usize), out);
    if !judge_symbols(
        table, records, pool, text, used, root, values, nulls, classes, out,
    ) {
        return Err(Refusal::Row);
    }
    list_rows(classes, nulls.len(), list, tally)
}

fn list_within_with(
    table: &[u8],
    records: &[u8],
    pool: &[u8],
    text: &[u8],
    used: u64,
    root: u64,
    values: &[u8],
    nulls: &[u64],
    list: &mut [u8],
    tally: Tally,
    types: &mut [u8],
    trees: &mut [u16],
    classes: &mut [u8],
    out: &mut [u8],
) -> Result<ListedRows, Refusal>
    requires used_in_bounds { used ≤ 4096 → used ≤ length types.old }
    requires used_in_bounds_2 { used ≤ 4096 → used ≤ length trees.old }
    requires in_bounds { 1024 ≤ length classes.old }
    requires used_in_bounds_3 { used ≤ 4096 → 16 * used ≤ length out.old }
    ensures value { hedge_answered result ≡ hedge_answer_with text.now table.now records.now pool.now
        used root values.now nulls.now (length list.old) tally }
    ensures list_after { list.new ≡ hedge_bytes_with text.now table.now records.now
        pool.now used root values.now nulls.now list.old tally }
{
    check_lent_counted(table, records, pool, text.len(), used, root, types, trees)?;
    list_checked_with(
        table,
        records,
        pool,
        text,
        used as u32,
        Node(root as u32),
        trees[root as usize],
        values,
        nulls,
        list,
        tally,
        classes,
        out,
    )
}

fn hedge_symbols(
    table: &[u8],
    records: &[u8],
    pool: &[u8],
    text: &[u8],
    used: u64,
    root: u64,
    values: &[u8],
    nulls: &[u64],
    list: &mut [u8],
    tally: Tally,
) -> Result<ListedRows, Refusal>
    ensures value { hedge_answered result ≡ hedge_answer_with text.now table.now records.now pool.now
        used root values.now nulls.now (length list.old) tally }
    ensures list_after { list.new ≡ hedge_bytes_with text.now table.now records.now
        pool.now used root values.now nulls.now list.old tally }
{
    let mut types = [0u8; RECORDS];
    let mut trees = [0u16; RECORDS];
    let mut classes = [0u8; ROWS];
    let mut out = [0u8; RECORD * RECORDS];
    list_within_with(
        table,
        records,
        pool,
        text,
        used,
        root,
        values,
        nulls,
        list,
        tally,
        &mut types,
        &mut trees,
        &mut classes,
        &mut out,
    )
}

/// What the hedge list answers, whatever text pool is lent.
pub fn hedge_list_with(
    table: &[u8],
    records: &[u8],
    pool: &[u8],
    text: &[u8],
    used: u64,
    root: u64,
    values: &[u8],
    nulls: &[u64],
    list: &mut [u8],
    tally: Tally,
) -> Result<ListedRows, Refusal>
    ensures value { hedge_answered result ≡ hedge_answer_with text.now table.now records.now pool.now
        used root values.now nulls.now (length list.old) tally }
    ensures list_after { list.new ≡ hedge_bytes_with text.now table.now records.now
        pool.now used root values.now nulls.now list.old tally }
{
    if 8192 < text.len() {
        return hedge_symbols(
            table, records, pool, text, used, root, values, nulls, list, tally,
        );
    }
    if has_symbols(table, records, used) {
        return hedge_symbols(
            table, records, pool, text, used, root, values, nulls, list, tally,
        );
    }
    hedge_list(table, records, pool, used, root, values, nulls, list, tally)
}
