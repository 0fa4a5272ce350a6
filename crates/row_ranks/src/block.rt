// The rows of a chain, from one on, into a lent block: eight bytes a column, row after row.
ghost use Rattle.std.specs.Prelude.{◌≡◌, ℕ, ◌+◌, ◌*◌, ◌≤◌, ◌<◌, length};
ghost use Rattle.masks.specs.Block.{chain_row};
ghost use Rattle.row_ranks.specs.RowRanks.{RowRanks, BlockRanks, RowsBefore};

use crate::row::row_ranks;

// Row r of the chain as row i of the block; the rows before it stay.
fn put_row(
    table: &[u8],
    codes: &[u64],
    values: &[u8],
    r: usize,
    nulls: u64,
    block: &mut [u8],
    i: usize,
)
    requires in_bounds { (8192 ≤ length codes.now) × (length table.now ≤ 64) }
    requires r_bound { (r < 1024) × (8 * length table.now * r + 8 * length table.now ≤ length values.now) }
    requires i_bound { (i < 1024) × (8 * length table.now * i + 8 * length table.now ≤ length block.old) }
    ensures row_ranks { RowRanks table.now codes.now (chain_row (length table.now) values.now r)
        nulls (length table.now) (chain_row (length table.now) block.new i) }
    ensures rows_before { RowsBefore (length table.now) i block.old block.new }
{
    let wide = 8 * table.len();
    let start = wide * r;
    let end = start + wide;
    let at = wide * i;
    let till = at + wide;
    row_ranks(
        table,
        codes,
        &values[start..end],
        nulls,
        &mut block[at..till],
    );
}

/// Rows `base` to `base + count` of the chain into the front of the block, with numbers in the place of their symbols.
pub fn block_ranks(
    table: &[u8],
    codes: &[u64],
    values: &[u8],
    nulls: &[u64],
    base: usize,
    count: usize,
    block: &mut [u8],
)
    requires in_bounds { (8192 ≤ length codes.now) × (length table.now ≤ 64) }
    requires count_in_bounds { (base + count ≤ length nulls.now) × (length nulls.now ≤ 1024) }
    requires values_len { length values.now ≡ 8 * length table.now * length nulls.now }
    requires count_in_bounds_2 { 8 * length table.now * count ≤ length block.old }
    ensures { BlockRanks table.now codes.now values.now nulls.now base count
        block.new }
{
    for i in 0..count {
        let r = base + i;
        put_row(table, codes, values, r, nulls[r], block, i);
    }
}
