// The screen of numbers.
ghost use Rattle.std.specs.Prelude.{◌*◌, ◌/◌, ◌≤◌, length};
ghost use Rattle.ranked_screen.specs.Screen.{Accepted};
ghost use Rattle.symbol_screens.specs.Placed.{place_count};
ghost use Rattle.ranked_chain.specs.RankedChain.{ListsPooled, WideRecords, ChainRanks};

use crate::lists::raise_lists;
use crate::literals::rank_literals;
use crate::numbers::number_all;
use ranked_screen::places::fill_values;
use ranked_screen::pool::rank_pool;
use symbol_reduction::reduce::copy_front;

// The records into `out`, with numbers in their literals and their lists behind these.
fn rank_records(records: &[u8], p: &[u8], ranks: &[u64], used: u32, out: &mut [u8])
    requires used_bound { (used ≤ 4096) × (length p.now ≤ 65536) × (place_count p.now used ≤ length ranks.now) }
    requires used_in_bounds { (16 * used ≤ length records.now) × (16 * used ≤ length out.old) × ListsPooled records.now used }
    ensures { WideRecords records.now ranks.now (length p.now / 8) used out.new }
{
    copy_front(records, 16 * (used as usize), out);
    rank_literals(records, ranks, used as usize, out);
    raise_lists(out, used as usize, (p.len() / 8) as u32);
}

/// Into `pool` and `out`, by the words of the text's starts.
pub fn rank_chain(
    text: &[u8],
    codes: &[u64],
    records: &[u8],
    p: &[u8],
    used: u32,
    pool: &mut [u8],
    out: &mut [u8],
)
    requires accepted { Accepted text.now records.now p.now used }
    requires in_bounds { (8192 ≤ length codes.now) × (2 * length p.now ≤ length pool.old) × (16 * used ≤ length out.old) }
    ensures { ChainRanks text.now records.now p.now used codes.now
        out.new pool.new }
{
    let mut values = [0u64; 12288];
    let mut numbers = [0u64; 12288];
    let n = used as usize + p.len() / 8;
    fill_values(text.len() as u32, records, p, used as usize, &mut values);
    number_all(codes, &values, n, &mut numbers);
    rank_records(records, p, &numbers, used, out);
    rank_pool(p, &numbers, used as usize, pool);
}
