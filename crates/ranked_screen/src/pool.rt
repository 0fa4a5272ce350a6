// The pool of the screen of ranks: the rank of each value of the pool sent, then the values.
ghost use Rattle.std.specs.Prelude.{◌≡◌, ◌+◌, ◌*◌, ◌/◌, ◌≤◌, ◌<◌, length};
ghost use Rattle.symbol_screens.specs.Placed.{place_count};
ghost use Rattle.ranked_screen.specs.Screen.{pool_value, RankedPool, write_value};

use records::bytes::value_at;
use rewrite::write;

/// The pool with x as its value number k.
pub fn put_value(pool: &mut [u8], k: usize, x: u64)
    requires { 8 * k + 8 ≤ length pool.old }
    ensures { pool.new ≡ write_value pool.old k x }
{
    write::put_value(pool, 8 * k, x);
}

fn pool_value(p: &[u8], ranks: &[u64], used: usize, k: usize) -> u64
    requires used_bound { (used ≤ 4096) × (length p.now ≤ 65536) × (place_count p.now used ≤ length ranks.now) }
    requires k_bound { k < 2 * (length p.now / 8) }
    ensures { result ≡ pool_value p.now ranks.now used k }
{
    let words = p.len() / 8;
    if k < words {
        return ranks[used + k];
    }
    value_at(p, k - words)
}

/// The ranks of the values of p and behind them the values into `pool`.
pub fn rank_pool(p: &[u8], ranks: &[u64], used: usize, pool: &mut [u8])
    requires used_bound { (used ≤ 4096) × (length p.now ≤ 65536) × (place_count p.now used ≤ length ranks.now) }
    requires p_in_bounds { 16 * (length p.now / 8) ≤ length pool.old }
    ensures { RankedPool p.now ranks.now used (2 * (length p.now / 8)) pool.new }
{
    let n = 2 * (p.len() / 8);
    for k in 0..n {
        put_value(pool, k, pool_value(p, ranks, used, k));
    }
}
