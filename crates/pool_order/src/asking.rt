// Asking the order of the pool: the number of a key by halving, and then, again by halving, whether one of the places that
// have the key lies in a list. Who has guesses of both is spared the halving where they are right.
ghost use Rattle.std.specs.Prelude.{◌≡◌, cond, ℕ, ◌+◌, ◌*◌, ◌^◌, ◌≤◌, ◌<◌, ltb, length, true};
ghost use Rattle.sorted.specs.Rising.{In, Rising, Found};
ghost use Rattle.truth.specs.FromBytes.{values_from};
ghost use Rattle.truth.specs.Evaluate.{holds_key};
ghost use Rattle.truth.specs.Halves.{key, bias_of};
ghost use Rattle.pool_order.specs.Order.{Full, Between, Below};

use sorted::rising::find;

// `at` if y is below z, else `lo`.
fn advance(y: u64, z: u64, at: usize, lo: usize) -> usize
    ensures { result ≡ cond (ltb y z) at lo }
{
    if y < z { at } else { lo }
}

// Whether a number from x up to, not including, z is one of the `count` from place 8,192 on, which rise.
fn has_between(order: &[u64], count: usize, x: u64, z: u64) -> bool
    requires rising { Rising order.now 8192 (8192 + count) }
    requires count_nonzero { 0 < count }
    requires count_in_bounds { 8192 + count ≤ length order.now }
    ensures { Between order.now 8192 (8192 + count) x z result }
{
    let mut lo: usize = 8192;
    let mut len = count;
    // Halves what is left: no count of turns is known before.
    while 1 < len {
        let h = len / 2;
        let at = lo + h;
        lo = advance(order[at], z, at, lo);
        len = len - h;
    }
    let y = order[lo];
    (x <= y) & (y < z)
}

/// Whether a key is that of one of `count` values of the pool, from the one numbered `start` on.
pub fn holds(pool: &[u8], order: &[u64], start: u32, count: u32, w: u64) -> bool
    requires full { Full pool.now order.now }
    requires in_bounds { 16386 ≤ length order.now }
    requires count_in_bounds { 8 * (start + count) ≤ length pool.now }
    ensures { (bits : ℕ) → bits < 2 ^ 64 → w ≡ bias_of bits
        → result ≡ holds_key (key bits) (values_from pool.now start count) }
{
    let k = order[16384] as usize;
    let r = find(order, k, w);
    if r == k {
        return false;
    }
    let seat = 8192 * r as u64;
    let from = seat + start as u64;
    has_between(order, order[16385] as usize, from, from + count as u64)
}

// Whether the key numbered g and the next one leave no place for w.
fn is_gap(order: &[u64], k: usize, w: u64, g: usize) -> bool
    requires rising { Rising order.now 0 k }
    requires k_in_bounds { k ≤ length order.now }
    requires g_lt_k { g < k }
    ensures { result ≡ true → In order.now 0 k w → ⊥ }
{
    let y = order[g];
    if w < y {
        return g == 0;
    }
    if y == w {
        return false;
    }
    if g + 1 == k {
        return true;
    }
    w < order[g + 1]
}

// As `find`, with a guess.
fn find_from(order: &[u64], k: usize, w: u64, g: usize) -> usize
    requires { Rising order.now 0 k × (k ≤ length order.now) }
    ensures { Found order.now k w result }
{
    if k <= g {
        return find(order, k, w);
    }
    if order[g] == w {
        return g;
    }
    if is_gap(order, k, w, g) {
        return k;
    }
    find(order, k, w)
}

// Whether the number at place q, of the `count` from place 8,192 on, is the last below z; or q is 0, and no other is.
fn is_last(order: &[u64], count: usize, z: u64, q: usize) -> bool
    requires rising { Rising order.now 8192 (8192 + count) }
    requires q_lt_count { q < count }
    requires count_in_bounds { 8192 + count ≤ length order.now }
    ensures { result ≡ true → Below order.now (8192 + count) z (8192 + q) 1 }
{
    if (z <= order[8192 + q]) & (q != 0) {
        return false;
    }
    if q + 1 == count {
        return true;
    }
    z <= order[8193 + q]
}

// As `has_between`, with a guess.
fn has_between_from(order: &[u64], count: usize, x: u64, z: u64, q: usize) -> bool
    requires rising { Rising order.now 8192 (8192 + count) }
    requires count_nonzero { 0 < count }
    requires count_in_bounds { 8192 + count ≤ length order.now }
    ensures { Between order.now 8192 (8192 + count) x z result }
{
    if count <= q {
        return has_between(order, count, x, z);
    }
    if !is_last(order, count, z, q) {
        return has_between(order, count, x, z);
    }
    let y = order[8192 + q];
    (x <= y) & (y < z)
}

// The last of k numbers, if g is none.
fn nearest(g: usize, k: usize) -> usize {
    if g < k {
        return g;
    }
    if k == 0 {
        return 0;
    }
    k - 1
}

/// As `holds`, with guesses of the key's number and of the last seat before the list's end.
pub fn holds_from(
    pool: &[u8],
    order: &[u64],
    start: u32,
    count: u32,
    w: u64,
    number: u64,
    seat: u64,
) -> bool
    requires full { Full pool.now order.now }
    requires in_bounds { 16386 ≤ length order.now }
    requires count_in_bounds { 8 * (start + count) ≤ length pool.now }
    ensures { (bits : ℕ) → bits < 2 ^ 64 → w ≡ bias_of bits
        → result ≡ holds_key (key bits) (values_from pool.now start count) }
{
    let k = order[16384] as usize;
    let r = find_from(order, k, w, nearest((number % 8192) as usize, k));
    if r == k {
        return false;
    }
    let own = 8192 * r as u64;
    let from = own + start as u64;
    has_between_from(
        order,
        order[16385] as usize,
        from,
        from + count as u64,
        (seat % 8192) as usize,
    )
}
