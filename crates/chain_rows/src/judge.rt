// The class of each row. The screen was checked once; all rows are looked at (13) before the first is judged, and they are
// judged in blocks of 64 by the truths in words of crate row_blocks.
ghost use Rattle.std.specs.Prelude.{◌≡◌, ℕ, ◌+◌, ◌*◌, ◌<◌, ◌≤◌, min, true, length, if◌then◌else◌, slice_index};
ghost use Rattle.records.specs.Bytes.{all};
ghost use Rattle.checking.specs.Checked.{Checked};
ghost use Rattle.checking.specs.Columns.{bit};
ghost use Rattle.checking.specs.Tree.{tree_count};
ghost use Rattle.three_valued.specs.declared.logic.Truth.{Truth};
ghost use Rattle.masks.specs.Masks.{Tells};
ghost use Rattle.masks.specs.Block.{Closed};
ghost use Rattle.pool_order.specs.Order.{Ordered};
ghost use Rattle.chain_rows.specs.Chain.{answer_at, is_tested};
ghost use Rattle.chain_rows.specs.Classes.{truth_class, Judged, Classed, Evaluates};

use crate::fitting::rows_fit;
use limits::RECORDS;
use masks::Masks;
use masks::reach::mark_reached;
use pool_order::making::make_order;
use records::record::{Node, fields_in};
use row_blocks::depths::note_depths;
use row_blocks::rows::block_masks;
use truth::read::null_marked;

// 0 false, 1 unknown, 2 passes.
fn class_at(m: Masks, i: u32) -> u8
    requires { i < 64 }
    ensures { result ≡ (if bit m.truths i then 2 else (if bit m.unknowns i then 1 else 0)) }
{
    if null_marked(m.truths, i) {
        return 2;
    }
    if null_marked(m.unknowns, i) {
        return 1;
    }
    0
}

// The classes of the rows from `base` on; those before stay.
fn write_classes(classes: &mut [u8], base: usize, rows: usize, m: Masks)
    requires rows_bound { rows ≤ 64 }
    requires rows_in_bounds { base + rows ≤ length classes.old }
    ensures by_index { (f : ℕ → Truth) → Tells rows m f
        → (i : ℕ) → i < rows → slice_index classes.new (base + i) ≡ truth_class (f i) }
    ensures by_index_2 { (j : ℕ) → j < base → slice_index classes.new j ≡ slice_index classes.old j }
{
    for i in 0..rows {
        classes[base + i] = class_at(m, i as u32);
    }
}

fn at_most_64(left: usize) -> usize
    ensures { result ≡ min left 64 }
{
    if left < 64 {
        return left;
    }
    64
}

/// The rows in blocks of 64; `truths` has the depths of the divisions, and `order` is the pool's or one word.
pub fn judge_blocks(
    records: &[u8],
    pool: &[u8],
    order: &[u64],
    columns: usize,
    values: &[u8],
    nulls: &[u64],
    root: Node,
    marks: &[u8],
    truths: &mut [u64],
    unknowns: &mut [u64],
    keys: &mut [u64],
    classes: &mut [u8],
)
    requires evaluates { Evaluates records.now pool.now columns values.now nulls.now root.0 }
    requires root_value { slice_index marks.now root.0 ≡ 1 }
    requires closed { Closed records.now marks.now 0 root.0 }
    requires in_bounds { 4096 ≤ length marks.now }
    requires in_bounds_2 { 4096 ≤ length truths.old }
    requires in_bounds_3 { 4096 ≤ length unknowns.old }
    requires in_bounds_4 { 192 ≤ length keys.old }
    requires nulls_in_bounds { length nulls.now ≤ length classes.old }
    requires ordered { Ordered pool.now order.now }
    ensures { Classed records.now pool.now columns values.now nulls.now
        root.0 classes.new (length nulls.now) }
{
    for block in 0..nulls.len().div_ceil(64) {
        let base = 64 * block;
        let rows = at_most_64(nulls.len() - base);
        let m = block_masks(
            records, pool, order, values, nulls, columns, base, rows, root, marks, truths,
            unknowns, keys,
        );
        write_classes(classes, base, rows, m);
    }
}

// Without an order of the pool. Its tables and those of `judge_ordered` stay apart: a chain takes one of them.
#[inline(never)]
fn judge_plain(
    records: &[u8],
    pool: &[u8],
    columns: usize,
    values: &[u8],
    nulls: &[u64],
    root: Node,
    marks: &[u8],
    classes: &mut [u8],
)
    requires evaluates { Evaluates records.now pool.now columns values.now nulls.now root.0 }
    requires root_value { slice_index marks.now root.0 ≡ 1 }
    requires closed { Closed records.now marks.now 0 root.0 }
    requires in_bounds { 4096 ≤ length marks.now }
    requires nulls_in_bounds { length nulls.now ≤ length classes.old }
    requires root_in_bounds { 16 * root.0 + 15 < length records.now }
    ensures { Classed records.now pool.now columns values.now nulls.now
        root.0 classes.new (length nulls.now) }
{
    let none = [0u64; 1];
    let mut truths = [0u64; RECORDS];
    let mut unknowns = [0u64; RECORDS];
    // Three inputs of 64 rows; the rest is for divisions in divisions, which note_depths says is enough for every tree.
    let mut keys = [0u64; 832];
    // A division has no truth: its word in the table has its depth.
    note_depths(records, root, &mut truths);
    judge_blocks(
        records,
        pool,
        &none,
        columns,
        values,
        nulls,
        root,
        marks,
        &mut truths,
        &mut unknowns,
        &mut keys,
        classes,
    );
}

// With one.
#[inline(never)]
fn judge_ordered(
    records: &[u8],
    pool: &[u8],
    columns: usize,
    values: &[u8],
    nulls: &[u64],
    root: Node,
    marks: &[u8],
    classes: &mut [u8],
)
    requires pool_len_bound { length pool.now ≤ 65536 }
    requires evaluates { Evaluates records.now pool.now columns values.now nulls.now root.0 }
    requires root_value { slice_index marks.now root.0 ≡ 1 }
    requires closed { Closed records.now marks.now 0 root.0 }
    requires in_bounds { 4096 ≤ length marks.now }
    requires nulls_in_bounds { length nulls.now ≤ length classes.old }
    requires root_in_bounds { 16 * root.0 + 15 < length records.now }
    ensures { Classed records.now pool.now columns values.now nulls.now
        root.0 classes.new (length nulls.now) }
{
    let mut order = [0u64; 21512];
    let mut truths = [0u64; RECORDS];
    let mut unknowns = [0u64; RECORDS];
    // As above, and 17 words for each column.
    let mut keys = [0u64; 1920];
    note_depths(records, root, &mut truths);
    make_order(pool, &mut order);
    judge_blocks(
        records,
        pool,
        &order,
        columns,
        values,
        nulls,
        root,
        marks,
        &mut truths,
        &mut unknowns,
        &mut keys,
        classes,
    );
}

// How many values record n asks its list for, if it is marked and the list begins at place `from` or behind it.
fn asked_count(records: &[u8], n: u32, mark: u8, from: u32) -> u32
    requires { 16 * n + 15 < length records.now }
{
    let f = fields_in(records, Node(n));
    if mark != 1 {
        return 0;
    }
    if f.kind != 10 {
        return 0;
    }
    if n <= f.b {
        return 0;
    }
    let list = fields_in(records, Node(f.b));
    if list.a < from {
        return 0;
    }
    list.b
}

/// How many values the marked records ask their lists for, of those that begin at place `from` or behind it.
pub fn asked_values(records: &[u8], root: Node, marks: &[u8], from: u32) -> u64
    requires root_in_bounds { 16 * root.0 + 15 < length records.now }
    requires root_bound { root.0 < 4096 }
    requires in_bounds { 4096 ≤ length marks.now }
{
    let mut total: u64 = 0;
    for n in 0..root.0 + 1 {
        total += asked_count(records, n, marks[n as usize], from) as u64;
    }
    total
}

// The pool is put in order where that takes less time than to search the lists from their first values on: where they are
// asked for at least so many values. In a short chain they are searched less often.
fn values_for_order(rows: usize) -> u64 {
    if rows < 128 { 65536 } else { 4096 }
}

// The class of each row that the records and the pool evaluate.
fn judge_fitting(
    records: &[u8],
    pool: &[u8],
    columns: usize,
    values: &[u8],
    nulls: &[u64],
    root: Node,
    classes: &mut [u8],
)
    requires evaluates { Evaluates records.now pool.now columns values.now nulls.now root.0 }
    requires root_in_bounds { 16 * root.0 + 15 < length records.now }
    requires nulls_in_bounds { length nulls.now ≤ length classes.old }
    requires pool_len_bound { length pool.now ≤ 65536 }
    ensures { Classed records.now pool.now columns values.now nulls.now
        root.0 classes.new (length nulls.now) }
{
    let mut marks = [0u8; RECORDS];
    mark_reached(records, root, &mut marks);
    if asked_values(records, root, &marks, 0) < values_for_order(nulls.len()) {
        judge_plain(records, pool, columns, values, nulls, root, &marks, classes);
    } else {
        judge_ordered(records, pool, columns, values, nulls, root, &marks, classes);
    }
}

// Every row's class; false if a row is refused.
pub fn judge_rows(
    table: &[u8],
    records: &[u8],
    pool: &[u8],
    used: u64,
    root: Node,
    tree: u16,
    values: &[u8],
    nulls: &[u64],
    classes: &mut [u8],
) -> bool
    requires checked { Checked table.now records.now pool.now used root.0 }
    requires tree_value { tree ≡ min (tree_count records.now root.0) 4097 }
    requires tree_bound { tree ≤ 4096 }
    requires values_len { length values.now ≡ 8 * length table.now * length nulls.now }
    requires nulls_len_bound { length nulls.now ≤ 1024 }
    requires nulls_in_bounds { length nulls.now ≤ length classes.old }
    ensures value { result ≡ all (λ i. is_tested (answer_at table.now records.now pool.now used
        root.0 values.now nulls.now i)) (length nulls.now) }
    ensures judged { result ≡ true → Judged (answer_at table.now records.now pool.now used
        root.0 values.now nulls.now) classes.new (length nulls.now) }
{
    if !rows_fit(table, values, nulls) {
        return false;
    }
    judge_fitting(records, pool, table.len(), values, nulls, root, classes);
    true
}
