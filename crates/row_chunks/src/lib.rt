// The classes of the rows, some rows at a time: their numbers into a lent block, which is then judged as a chain of numbers.
// The records are marked and the pool's parts are put in order once for all rows.
#![tactic(auto)]

ghost use Rattle.std.specs.Prelude.{◌≡◌, true, false, ℕ, ◌+◌, ◌*◌, ◌≤◌, ◌<◌, length, get_or};
ghost use Rattle.three_valued.specs.declared.logic.Truth.{Truth};
ghost use Rattle.masks.specs.Block.{Closed};
ghost use Rattle.pool_order.specs.Order.{Ordered};
ghost use Rattle.ranked_chain.specs.Chunks.{EveryRow, RowTruths, ClassesOf};

use chain_rows::judge::{asked_values, judge_blocks};
use limits::{RECORD, RECORDS};
use masks::reach::mark_reached;
use pool_order::making::{order_both, order_first};
use records::record::Node;
use row_blocks::depths::note_depths;
use row_ranks::block::block_ranks;

// How many rows of so many columns a block of 8,192 values holds; 1,024 are a chain.
fn chunk_rows(columns: usize) -> usize
    requires { columns ≤ 64 }
    ensures { (0 < result) × (result ≤ 1024) × (columns * result ≤ 8192) }
{
    if columns <= 8 {
        return 1024;
    }
    if columns <= 16 {
        return 512;
    }
    if columns <= 32 {
        return 256;
    }
    128
}

fn at_most(left: usize, most: usize) -> usize
    ensures upper_bound { (result ≤ left) × (result ≤ most) }
    ensures result_nonzero { 0 < left → 0 < most → 0 < result }
{
    if left < most {
        return left;
    }
    most
}

// Some rows, from `base` on; the classes of those before stay.
fn judge_chunk(
    table: &[u8],
    codes: &[u64],
    records: &[u8],
    pool: &[u8],
    order: &[u64],
    root: Node,
    values: &[u8],
    nulls: &[u64],
    base: usize,
    count: usize,
    marks: &[u8],
    truths: &mut [u64],
    unknowns: &mut [u64],
    keys: &mut [u64],
    block: &mut [u8],
    classes: &mut [u8],
)
    requires in_bounds { (8192 ≤ length codes.now) × (length table.now ≤ 64) }
    requires count_in_bounds { (base + count ≤ length nulls.now) × (length nulls.now ≤ 1024) × (length nulls.now ≤ length classes.old) }
    requires values_len { length values.now ≡ 8 * length table.now * length nulls.now }
    requires count_in_bounds_2 { 8 * length table.now * count ≤ length block.old }
    requires every_row { EveryRow (length table.now) records.now pool.now root.0 }
    requires root_value { (get_or marks.now root.0 0 ≡ 1) × Closed records.now marks.now 0 root.0 × (4096 ≤ length marks.now) }
    requires in_bounds_2 { (4096 ≤ length truths.old) × (4096 ≤ length unknowns.old) × (192 ≤ length keys.old) }
    requires ordered { Ordered pool.now order.now }
    ensures { (f : ℕ → Truth) → RowTruths table.now codes.now values.now
        nulls.now records.now pool.now root.0 f
        → ClassesOf f classes.old base → ClassesOf f classes.new (base + count) }
{
    let columns = table.len();
    block_ranks(table, codes, values, nulls, base, count, block);
    let end = base + count;
    let size = 8 * columns * count;
    judge_blocks(
        records,
        pool,
        order,
        columns,
        &block[..size],
        &nulls[base..end],
        root,
        marks,
        truths,
        unknowns,
        keys,
        &mut classes[base..end],
    );
}

// All rows, over what was made once.
fn judge_parts(
    table: &[u8],
    codes: &[u64],
    records: &[u8],
    pool: &[u8],
    order: &[u64],
    root: Node,
    values: &[u8],
    nulls: &[u64],
    marks: &[u8],
    truths: &mut [u64],
    unknowns: &mut [u64],
    keys: &mut [u64],
    classes: &mut [u8],
)
    requires in_bounds { (8192 ≤ length codes.now) × (length table.now ≤ 64) }
    requires nulls_len_bound { (length nulls.now ≤ 1024) × (length nulls.now ≤ length classes.old) }
    requires values_len { length values.now ≡ 8 * length table.now * length nulls.now }
    requires every_row { EveryRow (length table.now) records.now pool.now root.0 }
    requires root_value { (get_or marks.now root.0 0 ≡ 1) × Closed records.now marks.now 0 root.0 × (4096 ≤ length marks.now) }
    requires in_bounds_2 { (4096 ≤ length truths.old) × (4096 ≤ length unknowns.old) × (192 ≤ length keys.old) }
    requires ordered { Ordered pool.now order.now }
    ensures { (f : ℕ → Truth) → RowTruths table.now codes.now values.now
        nulls.now records.now pool.now root.0 f
        → ClassesOf f classes.new (length nulls.now) }
{
    let mut block = [0u8; RECORD * RECORDS];
    let most = chunk_rows(table.len());
    let mut base: usize = 0;
    // A turn takes as many rows as a chunk has room for, which the number of columns tells.
    while base < nulls.len() {
        let count = at_most(nulls.len() - base, most);
        judge_chunk(
            table, codes, records, pool, order, root, values, nulls, base, count, marks, truths,
            unknowns, keys, &mut block, classes,
        );
        base += count;
    }
}

// Without an order of the pool; the tables are those of judge_plain in crate chain_rows.
fn judge_searching(
    table: &[u8],
    codes: &[u64],
    records: &[u8],
    pool: &[u8],
    root: Node,
    values: &[u8],
    nulls: &[u64],
    marks: &[u8],
    classes: &mut [u8],
)
    requires in_bounds { (8192 ≤ length codes.now) × (length table.now ≤ 64) }
    requires nulls_len_bound { (length nulls.now ≤ 1024) × (length nulls.now ≤ length classes.old) }
    requires values_len { length values.now ≡ 8 * length table.now * length nulls.now }
    requires every_row { EveryRow (length table.now) records.now pool.now root.0 }
    requires root_value { (get_or marks.now root.0 0 ≡ 1) × Closed records.now marks.now 0 root.0 × (4096 ≤ length marks.now) }
    ensures { (f : ℕ → Truth) → RowTruths table.now codes.now values.now
        nulls.now records.now pool.now root.0 f
        → ClassesOf f classes.new (length nulls.now) }
{
    let none = [0u64; 1];
    let mut truths = [0u64; RECORDS];
    let mut unknowns = [0u64; RECORDS];
    let mut keys = [0u64; 832];
    note_depths(records, root, &mut truths);
    judge_parts(
        table,
        codes,
        records,
        pool,
        &none,
        root,
        values,
        nulls,
        marks,
        &mut truths,
        &mut unknowns,
        &mut keys,
        classes,
    );
}

// With an order of the first part of the pool, where the symbols are, or with orders of both parts: of LENGTH words. It owns
// its tables, as `judge_ordered` of crate chain_rows does.
fn judge_sorted<const LENGTH: usize>(
    both: bool,
    table: &[u8],
    codes: &[u64],
    records: &[u8],
    pool: &[u8],
    root: Node,
    values: &[u8],
    nulls: &[u64],
    marks: &[u8],
    classes: &mut [u8],
)
    requires in_bounds { (8192 ≤ length codes.now) × (length table.now ≤ 64) }
    requires nulls_len_bound { (length nulls.now ≤ 1024) × (length nulls.now ≤ length classes.old) }
    requires values_len { length values.now ≡ 8 * length table.now * length nulls.now }
    requires every_row { EveryRow (length table.now) records.now pool.now root.0 }
    requires root_value { (get_or marks.now root.0 0 ≡ 1) × Closed records.now marks.now 0 root.0 × (4096 ≤ length marks.now) }
    requires one { both ≡ false → LENGTH ≡ 21512 }
    requires two { both ≡ true → (LENGTH ≡ 43024) × (65536 < length pool.now) }
    ensures { (f : ℕ → Truth) → RowTruths table.now codes.now values.now
        nulls.now records.now pool.now root.0 f
        → ClassesOf f classes.new (length nulls.now) }
{
    let mut order = [0u64; LENGTH];
    let mut truths = [0u64; RECORDS];
    let mut unknowns = [0u64; RECORDS];
    let mut keys = [0u64; 1920];
    note_depths(records, root, &mut truths);
    if both {
        order_both(pool, &mut order);
    } else {
        order_first(pool, &mut order);
    }
    judge_parts(
        table,
        codes,
        records,
        pool,
        &order,
        root,
        values,
        nulls,
        marks,
        &mut truths,
        &mut unknowns,
        &mut keys,
        classes,
    );
}

// Whether a part of the pool is put in order, of so many values asked for, as crate chain_rows has it.
fn order_pays(asked: u64, rows: usize) -> bool {
    if rows < 128 {
        return 65536 <= asked;
    }
    4096 <= asked
}

// Whether the second part is too, of a pool of so many bytes.
fn second_pays(size: usize, asked: u64, rows: usize) -> bool
    ensures { result ≡ true → 65536 < size }
{
    if size <= 65536 {
        return false;
    }
    order_pays(asked, rows)
}

// With one order or none.
fn judge_asked(
    table: &[u8],
    codes: &[u64],
    records: &[u8],
    pool: &[u8],
    root: Node,
    values: &[u8],
    nulls: &[u64],
    marks: &[u8],
    classes: &mut [u8],
)
    requires in_bounds { (8192 ≤ length codes.now) × (length table.now ≤ 64) }
    requires nulls_len_bound { (length nulls.now ≤ 1024) × (length nulls.now ≤ length classes.old) }
    requires values_len { length values.now ≡ 8 * length table.now * length nulls.now }
    requires every_row { EveryRow (length table.now) records.now pool.now root.0 }
    requires root_value { (get_or marks.now root.0 0 ≡ 1) × Closed records.now marks.now 0 root.0 × (4096 ≤ length marks.now) }
    ensures { (f : ℕ → Truth) → RowTruths table.now codes.now values.now
        nulls.now records.now pool.now root.0 f
        → ClassesOf f classes.new (length nulls.now) }
{
    if order_pays(asked_values(records, root, marks, 0), nulls.len()) {
        judge_sorted::<21512>(
            false, table, codes, records, pool, root, values, nulls, marks, classes,
        );
    } else {
        judge_searching(
            table, codes, records, pool, root, values, nulls, marks, classes,
        );
    }
}

/// The class of every row.
pub fn judge_chunks(
    table: &[u8],
    codes: &[u64],
    records: &[u8],
    pool: &[u8],
    root: Node,
    values: &[u8],
    nulls: &[u64],
    classes: &mut [u8],
)
    requires in_bounds { (8192 ≤ length codes.now) × (length table.now ≤ 64) }
    requires nulls_len_bound { (length nulls.now ≤ 1024) × (length nulls.now ≤ length classes.old) }
    requires values_len { length values.now ≡ 8 * length table.now * length nulls.now }
    requires every_row { EveryRow (length table.now) records.now pool.now root.0 }
    ensures { (f : ℕ → Truth) → RowTruths table.now codes.now values.now
        nulls.now records.now pool.now root.0 f
        → ClassesOf f classes.new (length nulls.now) }
{
    let mut marks = [0u8; RECORDS];
    mark_reached(records, root, &mut marks);
    let behind = asked_values(records, root, &marks, (pool.len() / 16) as u32);
    if second_pays(pool.len(), behind, nulls.len()) {
        judge_sorted::<43024>(
            true, table, codes, records, pool, root, values, nulls, &marks, classes,
        );
    } else {
        judge_asked(
            table, codes, records, pool, root, values, nulls, &marks, classes,
        );
    }
}
