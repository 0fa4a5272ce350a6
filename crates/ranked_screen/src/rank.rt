// The screen of ranks.
ghost use Rattle.std.specs.Prelude.{◌+◌, ◌*◌, ◌/◌, ◌≤◌, length};
ghost use Rattle.symbol_screens.specs.Placed.{place_count};
ghost use Rattle.ranked_screen.specs.Screen.{Accepted, RanksOf};

use crate::places::fill_values;
use crate::pool::rank_pool;
use crate::record::rank_records;
use symbol_ranks::symbol_ranks;

/// The screen of ranks of an accepted screen with symbols, in the front of `src` and of `pool`, which takes twice the values of
/// p; what stands at the places in `values`, their ranks in `ranks`; `places` is overwritten.
pub fn rank_screen(
    text: &[u8],
    rs: &[u8],
    p: &[u8],
    used: usize,
    values: &mut [u64],
    places: &mut [u64],
    ranks: &mut [u64],
    src: &mut [u8],
    pool: &mut [u8],
)
    requires accepted { Accepted text.now rs.now p.now used }
    requires used_in_bounds { (place_count p.now used ≤ length values.old) × (place_count p.now used ≤ length places.old)
        × (place_count p.now used ≤ length ranks.old) }
    requires used_in_bounds_2 { (16 * used ≤ length src.old) × (2 * length p.now ≤ length pool.old) }
    ensures { RanksOf text.now rs.now p.now used values.new ranks.new
        src.new pool.new }
{
    let words = p.len() / 8;
    fill_values(text.len() as u32, rs, p, used, values);
    symbol_ranks(text, values, used + words, places, ranks);
    rank_records(rs, ranks, words as u32, used as u32, src);
    rank_pool(p, ranks, used, pool);
}
