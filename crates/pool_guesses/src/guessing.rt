// Guesses of where 64 keys stand in the order of the pool. A guess is a place to look at and no more: what is found there is
// tested (crate `pool_order`), so nothing is promised of the guesses themselves. All 64 keys are looked for at once, three to five
// levels of halving a pass, so that no search waits for another; first in every eighth word, which stand behind the order as a
// tree. `spots` has the keys' numbers, and behind them their seats.
ghost use Rattle.std.specs.Prelude.{◌≡◌, ℕ, ◌+◌, ◌*◌, ◌≤◌, ◌<◌, length, get_or};

use pool_guides::guides::slot_of;

// A choice by arithmetic: a branch would be foretold wrongly every other time.
fn flag(b: bool) -> usize
    ensures { result ≤ 1 }
{
    if b { 1 } else { 0 }
}

fn one_less(r: u64) -> u64
    ensures { result ≤ r }
{
    if r == 0 {
        return 0;
    }
    r - 1
}

// Where a search goes on below a word of a tree: on the right if the target is no less. A borrow taken off costs less than a
// flag put on.
fn child(p: usize, word: u64, w: u64) -> usize
    requires { p < 1024 }
    ensures { (2 * p ≤ result) × (result ≤ 2 * p + 1) }
{
    2 * p + 1 - flag(w < word)
}

// The first five levels, in the tree of every eighth of 8,192 words that rise.
fn enter_tree(tree: &[u64], targets: &[u64], n: usize, spots: &mut [u64], at: usize)
    requires in_bounds { 1024 ≤ length tree.now }
    requires n_in_bounds { n ≤ length targets.now }
    requires n_in_bounds_2 { at + n ≤ length spots.old }
{
    for i in 0..n {
        let w = targets[i];
        let a = child(1, tree[1], w);
        let b = child(a, tree[a], w);
        let c = child(b, tree[b], w);
        let d = child(c, tree[c], w);
        spots[at + i] = child(d, tree[d], w) as u64;
    }
}

// The next five.
fn leave_tree(tree: &[u64], targets: &[u64], n: usize, spots: &mut [u64], at: usize)
    requires in_bounds { 1024 ≤ length tree.now }
    requires n_in_bounds { n ≤ length targets.now }
    requires n_in_bounds_2 { at + n ≤ length spots.old }
{
    for i in 0..n {
        let w = targets[i];
        let e = (spots[at + i] % 64) as usize;
        let f = child(e, tree[e], w);
        let g = child(f, tree[f], w);
        let h = child(g, tree[g], w);
        let k = child(h, tree[h], w);
        spots[at + i] = child(k, tree[k], w) as u64;
    }
}

// The last three, in the eight words that a word of the tree is the first of.
fn end_part(words: &[u64], targets: &[u64], n: usize, spots: &mut [u64], at: usize)
    requires in_bounds { 8192 ≤ length words.now }
    requires n_in_bounds { n ≤ length targets.now }
    requires n_in_bounds_2 { at + n ≤ length spots.old }
{
    for i in 0..n {
        let w = targets[i];
        let lo = 8 * (spots[at + i] % 1024) as usize;
        let a = lo + 4 * flag(words[lo + 4] <= w);
        let b = a + 2 * flag(words[a + 2] <= w);
        spots[at + i] = (b + flag(words[b + 1] <= w)) as u64;
    }
}

// The places of the greatest words that are at most the first n targets, of 8,192 that rise; every eighth stands in `tree`.
fn find_places(words: &[u64], tree: &[u64], targets: &[u64], n: usize, spots: &mut [u64], at: usize)
    requires in_bounds { 8192 ≤ length words.now }
    requires in_bounds_2 { 1024 ≤ length tree.now }
    requires n_in_bounds { n ≤ length targets.now }
    requires n_in_bounds_2 { at + n ≤ length spots.old }
{
    enter_tree(tree, targets, n, spots, at);
    leave_tree(tree, targets, n, spots, at);
    end_part(words, targets, n, spots, at);
}

fn number_in(order: &[u64], slot: usize) -> u64
    requires in_bounds { 21512 ≤ length order.now }
    requires slot_bound { slot < 8192 }
    ensures { result < 8192 }
{
    (order[19464 + slot / 4] >> (16 * (slot % 4) as u64)) % 8192
}

// The numbers by the table; the keys that it has not, one behind the other, and which they are; how many.
fn take_known(
    order: &[u64],
    keys: &[u64],
    spots: &mut [u64],
    few: &mut [u64],
    rows: &mut [u64],
) -> usize
    requires in_bounds { 21512 ≤ length order.now }
    requires in_bounds_2 { 64 ≤ length keys.now }
    requires in_bounds_3 { 128 ≤ length spots.old }
    requires in_bounds_4 { 64 ≤ length few.old }
    requires in_bounds_5 { 64 ≤ length rows.old }
    ensures { result ≤ 64 }
{
    let mut n: usize = 0;
    for i in 0..64 {
        let w = keys[i];
        let g = number_in(order, slot_of(w));
        spots[i] = g;
        few[n] = w;
        rows[n] = i as u64;
        n = n + flag(order[g as usize] != w);
    }
    n
}

// What was found of the first n of some rows, to the places of those.
fn put_found(rows: &[u64], found: &[u64], n: usize, spots: &mut [u64], at: usize)
    requires n_in_bounds { n ≤ length rows.now }
    requires n_in_bounds_2 { n ≤ length found.now }
    requires at_in_bounds { at + 64 ≤ length spots.old }
{
    for k in 0..n {
        spots[at + (rows[k] % 64) as usize] = found[k];
    }
}

fn find_numbers(order: &[u64], keys: &[u64], spots: &mut [u64])
    requires in_bounds { 21512 ≤ length order.now }
    requires in_bounds_2 { 64 ≤ length keys.now }
    requires in_bounds_3 { 128 ≤ length spots.old }
{
    let mut few = [0u64; 64];
    let mut rows = [0u64; 64];
    let mut found = [0u64; 64];
    let n = take_known(order, keys, spots, &mut few, &mut rows);
    find_places(
        &order[0..8192],
        &order[17416..18440],
        &few,
        n,
        &mut found,
        0,
    );
    put_found(&rows, &found, n, spots, 0);
}

fn seek_seats(order: &[u64], targets: &[u64], n: usize, spots: &mut [u64], at: usize)
    requires in_bounds { 19464 ≤ length order.now }
    requires n_in_bounds { n ≤ length targets.now }
    requires n_in_bounds_2 { at + n ≤ length spots.old }
{
    find_places(
        &order[8192..16384],
        &order[18440..19464],
        targets,
        n,
        spots,
        at,
    );
}

fn at_most(x: u64, y: u64) -> u64
    ensures { result ≤ y }
{
    if x < y { x } else { y }
}

fn lower_numbers(spots: &mut [u64], most: u64)
    requires { 128 ≤ length spots.old }
{
    for i in 0..64 {
        spots[i] = at_most(spots[i], most);
    }
}

// Behind the last key stand the greatest words, so that a key as great has found one of these, though it may be the last.
fn settle_numbers(order: &[u64], spots: &mut [u64])
    requires in_bounds { 19464 ≤ length order.now }
    requires in_bounds_2 { 128 ≤ length spots.old }
{
    let most = one_less(order[16384]) % 8192;
    if order[most as usize] == 18446744073709551615 {
        lower_numbers(spots, most);
    }
}

// What a seat before a list's end is at most, for each key.
fn set_targets(spots: &[u64], end: u64, targets: &mut [u64])
    requires in_bounds { 128 ≤ length spots.now }
    requires in_bounds_2 { 64 ≤ length targets.old }
{
    let last = one_less(end % 8193);
    for i in 0..64 {
        targets[i] = 8192 * (spots[i] % 8192) + last;
    }
}

// For each target the seat before those of its group and, from bit 13 on, the bit of the group's size; the bits of all.
fn enter_groups(order: &[u64], targets: &[u64], spots: &mut [u64]) -> u64
    requires in_bounds { 19464 ≤ length order.now }
    requires in_bounds_2 { 64 ≤ length targets.now }
    requires in_bounds_3 { 128 ≤ length spots.old }
{
    let shift = order[16386] % 64;
    let mut sizes: u64 = 0;
    for i in 0..64 {
        let g = (targets[i] >> shift) % 4096;
        let e = order[16388 + (g / 4) as usize] >> (16 * (g % 4));
        sizes = sizes | e;
        spots[64 + i] = e % 65536;
    }
    sizes / 8192 % 8
}

fn step<const SIZE: usize>(b: bool) -> usize
    requires { SIZE ≤ 8192 }
    ensures { result ≤ SIZE }
{
    SIZE * flag(b)
}

// Two levels, from a seat on: steps of FIRST and of SECOND seats, of which there are as many behind seat LAST.
fn two_levels<const FIRST: usize, const SECOND: usize, const LAST: u64>(
    order: &[u64],
    targets: &[u64],
    spots: &mut [u64],
)
    requires sizes { FIRST + SECOND + LAST < 8192 }
    requires in_bounds { 19464 ≤ length order.now }
    requires in_bounds_2 { 64 ≤ length targets.now }
    requires in_bounds_3 { 128 ≤ length spots.old }
{
    for i in 0..64 {
        let w = targets[i];
        let lo = 8192 + at_most(spots[64 + i] % 8192, LAST) as usize;
        let a = lo + step::<FIRST>(order[lo + FIRST] <= w);
        spots[64 + i] = (a + step::<SECOND>(order[a + SECOND] <= w)) as u64;
    }
}

// The last four.
fn end_seats(order: &[u64], targets: &[u64], spots: &mut [u64])
    requires in_bounds { 19464 ≤ length order.now }
    requires in_bounds_2 { 64 ≤ length targets.now }
    requires in_bounds_3 { 128 ≤ length spots.old }
{
    for i in 0..64 {
        let w = targets[i];
        let lo = 8192 + at_most(spots[64 + i] % 8192, 8176) as usize;
        let a = lo + 8 * flag(order[lo + 8] <= w);
        let b = a + 4 * flag(order[a + 4] <= w);
        let c = b + 2 * flag(order[b + 2] <= w);
        spots[64 + i] = (c + flag(order[c + 1] <= w)) as u64;
    }
}

// Where all groups have at most 16 seats; `sizes` tells whether one has more than four.
fn find_near(order: &[u64], targets: &[u64], sizes: u64, spots: &mut [u64])
    requires in_bounds { 19464 ≤ length order.now }
    requires in_bounds_2 { 64 ≤ length targets.now }
    requires in_bounds_3 { 128 ≤ length spots.old }
{
    if sizes % 2 == 0 {
        two_levels::<2, 1, 8188>(order, targets, spots);
    } else {
        end_seats(order, targets, spots);
    }
}

// Where most have more; whether one has more than 256.
fn find_far(order: &[u64], targets: &[u64], sizes: u64, spots: &mut [u64])
    requires in_bounds { 19464 ≤ length order.now }
    requires in_bounds_2 { 64 ≤ length targets.now }
    requires in_bounds_3 { 128 ≤ length spots.old }
{
    if 4 <= sizes {
        seek_seats(order, targets, 64, spots, 64);
        return;
    }
    two_levels::<128, 64, 7936>(order, targets, spots);
    two_levels::<32, 16, 8128>(order, targets, spots);
    end_seats(order, targets, spots);
}

// The targets whose groups have more than 16 seats, one behind the other, and which they are; how many. A key that the pool has
// not needs no seat.
fn take_crowded(
    order: &[u64],
    keys: &[u64],
    targets: &[u64],
    spots: &[u64],
    few: &mut [u64],
    rows: &mut [u64],
) -> usize
    requires in_bounds { 8192 ≤ length order.now }
    requires in_bounds_2 { 64 ≤ length keys.now }
    requires in_bounds_3 { 64 ≤ length targets.now }
    requires in_bounds_4 { 128 ≤ length spots.now }
    requires in_bounds_5 { 64 ≤ length few.old }
    requires in_bounds_6 { 64 ≤ length rows.old }
    ensures { result ≤ 64 }
{
    let mut n: usize = 0;
    for i in 0..64 {
        few[n] = targets[i];
        rows[n] = i as u64;
        let known = order[(spots[i] % 8192) as usize] == keys[i];
        n = n + flag((16384 <= spots[64 + i]) & known);
    }
    n
}

// The seats where some groups have many: those of the others from their groups on, these apart, so that few of them are no
// burden to all.
fn find_crowded(order: &[u64], keys: &[u64], targets: &[u64], sizes: u64, spots: &mut [u64])
    requires in_bounds { 19464 ≤ length order.now }
    requires in_bounds_2 { 64 ≤ length keys.now }
    requires in_bounds_3 { 64 ≤ length targets.now }
    requires in_bounds_4 { 128 ≤ length spots.old }
{
    let mut few = [0u64; 64];
    let mut rows = [0u64; 64];
    let mut found = [0u64; 64];
    let n = take_crowded(order, keys, targets, spots, &mut few, &mut rows);
    if 40 < n {
        find_far(order, targets, sizes, spots);
        return;
    }
    find_near(order, targets, sizes, spots);
    seek_seats(order, &few, n, &mut found, 0);
    put_found(&rows, &found, n, spots, 64);
}

// The last seats before a list's end: where the targets' groups have few seats, from these on.
fn find_seats(order: &[u64], end: u64, keys: &[u64], spots: &mut [u64])
    requires in_bounds { 19464 ≤ length order.now }
    requires in_bounds_2 { 64 ≤ length keys.now }
    requires in_bounds_3 { 128 ≤ length spots.old }
{
    let mut targets = [0u64; 64];
    settle_numbers(order, spots);
    set_targets(spots, end, &mut targets);
    let sizes = enter_groups(order, &targets, spots);
    if sizes < 2 {
        find_near(order, &targets, sizes, spots);
        return;
    }
    find_crowded(order, keys, &targets, sizes, spots);
}

// The same where no two places have one key: a key's seat has its number.
fn take_seats(order: &[u64], end: u64, spots: &mut [u64])
    requires in_bounds { 19464 ≤ length order.now }
    requires in_bounds_2 { 128 ≤ length spots.old }
{
    for i in 0..64 {
        let r = spots[i] % 8192;
        let z = 8192 * r + end % 8193;
        let own = flag((order[8192 + r as usize] < z) & (r != 0));
        spots[64 + i] = one_less(r) + own as u64;
    }
}

// Four numbers to a word; the last word is the stamp.
fn packed(spots: &[u64], i: usize, stamp: u64) -> u64
    requires { 128 ≤ length spots.now }
{
    if 16 <= i {
        return stamp;
    }
    let low = spots[4 * i] % 8192 + 8192 * (spots[4 * i + 1] % 8192);
    let high = spots[4 * i + 2] % 8192 + 8192 * (spots[4 * i + 3] % 8192);
    low + 67108864 * high
}

// What stands before `at` stays.
fn put_numbers(spots: &[u64], keys: &mut [u64], at: usize, stamp: u64)
    requires in_bounds { 128 ≤ length spots.now }
    requires at_in_bounds { at + 17 ≤ length keys.old }
    ensures { (j : ℕ) → j < at → get_or keys.new j 0 ≡ get_or keys.old j 0 }
{
    for i in 0..17 {
        keys[at + i] = packed(spots, i, stamp);
    }
}

fn take_numbers(keys: &[u64], at: usize, spots: &mut [u64])
    requires at_in_bounds { at + 16 ≤ length keys.now }
    requires in_bounds { 128 ≤ length spots.old }
{
    for i in 0..64 {
        spots[i] = (keys[at + i / 4] >> (13 * (i % 4))) % 8192;
    }
}

// The numbers, from the 17 words at `hints` if they have this stamp, and into them if not. Who has no such words gives a place
// that is not there.
fn guess_numbers(order: &[u64], keys: &mut [u64], hints: usize, stamp: u64, spots: &mut [u64])
    requires in_bounds { 21512 ≤ length order.now }
    requires in_bounds_2 { 64 ≤ length keys.old }
    requires le_hints { 64 ≤ hints }
    requires hints_bound { hints ≤ 8192 }
    requires in_bounds_3 { 128 ≤ length spots.old }
    ensures { (j : ℕ) → j < 64 → get_or keys.new j 0 ≡ get_or keys.old j 0 }
{
    if keys.len() < hints + 17 {
        find_numbers(order, keys, spots);
        return;
    }
    if keys[hints + 16] == stamp {
        take_numbers(keys, hints, spots);
        return;
    }
    find_numbers(order, keys, spots);
    put_numbers(spots, keys, hints, stamp);
}

fn guess_seats(order: &[u64], end: u64, keys: &[u64], spots: &mut [u64])
    requires in_bounds { 19464 ≤ length order.now }
    requires in_bounds_2 { 64 ≤ length keys.now }
    requires in_bounds_3 { 128 ≤ length spots.old }
{
    if order[16384] == order[16385] {
        take_seats(order, end, spots);
    } else {
        find_seats(order, end, keys, spots);
    }
}

/// Guesses for the first 64 keys and a list that ends at `end`. The first 64 keys stay.
pub fn guess(order: &[u64], end: u64, keys: &mut [u64], hints: usize, stamp: u64, spots: &mut [u64])
    requires in_bounds { 21512 ≤ length order.now }
    requires in_bounds_2 { 64 ≤ length keys.old }
    requires le_hints { 64 ≤ hints }
    requires hints_bound { hints ≤ 8192 }
    requires in_bounds_3 { 128 ≤ length spots.old }
    ensures { (j : ℕ) → j < 64 → get_or keys.new j 0 ≡ get_or keys.old j 0 }
{
    guess_numbers(order, keys, hints, stamp, spots);
    guess_seats(order, end, keys, spots);
}
