// Membership of 64 values in a list of the pool.
ghost use Rattle.std.specs.Prelude.{◌≡◌, Bool, List, ℕ, ◌+◌, ◌*◌, ◌^◌, ◌≤◌, ◌<◌, ℤ, length};
ghost use Rattle.std.proofs.Math.Option.{Option};
ghost use Rattle.checking.specs.Columns.{bit};
ghost use Rattle.truth.specs.FromBytes.{values_from};
ghost use Rattle.truth.specs.Evaluate.{holds_key, member_of};
ghost use Rattle.truth.specs.Halves.{key, bias_of};
ghost use Rattle.masks.specs.Masks.{Tells, Shown};
ghost use Rattle.masks.specs.Block.{Finds};
ghost use Rattle.pool_order.specs.Order.{Full, OrderedPart, Ordered};
ghost use Rattle.pool_lists.specs.Truths.{Truths};

use masks::{Masks, inverted, mask_equal, with_bit};
use pool_guesses::guessing::guess;
use pool_order::asking::{holds, holds_from};
use pool_order::making::part_end;
use records::bytes::value_in;
use records::record::Fields;
use truth::scalar::biased;

// Every bit, or none.
fn all_if(b: bool) -> u64
    ensures { (i : ℕ) → i < 64 → bit result i ≡ b }
{
    if b {
        return 18446744073709551615;
    }
    0
}

// Whether a key is that of one of `count` values of the pool, from the one numbered `start` on.
fn find_key(pool: &[u8], start: u32, count: u32, w: u64) -> bool
    requires { 8 * (start + count) ≤ length pool.now }
    ensures { (bits : ℕ) → bits < 2 ^ 64 → w ≡ bias_of bits
        → result ≡ holds_key (key bits) (values_from pool.now start count) }
{
    let end = start as usize + count as usize;
    for i in start as usize..end {
        let x = biased(value_in(pool, i));
        if x == w {
            return true;
        }
    }
    false
}

// The same by the order of the pool, where there is one and the list is long enough for it.
fn find_one(pool: &[u8], order: &[u64], start: u32, count: u32, w: u64) -> bool
    requires ordered_part { OrderedPart pool.now order.now }
    requires count_in_bounds { 8 * (start + count) ≤ length pool.now }
    ensures { (bits : ℕ) → bits < 2 ^ 64 → w ≡ bias_of bits
        → result ≡ holds_key (key bits) (values_from pool.now start count) }
{
    if order.len() < 16386 {
        return find_key(pool, start, count, w);
    }
    if count < 16 {
        return find_key(pool, start, count, w);
    }
    holds(pool, order, start, count, w)
}

// The same of 64 keys, from the list's first value on.
fn find_keys(pool: &[u8], start: u32, count: u32, keys: &[u64], at: usize) -> u64
    requires count_in_bounds { 8 * (start + count) ≤ length pool.now }
    requires at_in_bounds { at + 64 ≤ length keys.now }
    ensures { Finds keys.now at (values_from pool.now start count) result }
{
    let mut m: u64 = 0;
    for i in 0..64 {
        m = with_bit(m, i as u32, find_key(pool, start, count, keys[at + i]));
    }
    m
}

// The same with guesses of the keys' numbers and seats.
fn find_guessed(
    pool: &[u8],
    order: &[u64],
    start: u32,
    count: u32,
    keys: &[u64],
    at: usize,
    spots: &[u64],
) -> u64
    requires full { Full pool.now order.now }
    requires in_bounds { 16386 ≤ length order.now }
    requires count_in_bounds { 8 * (start + count) ≤ length pool.now }
    requires at_in_bounds { at + 64 ≤ length keys.now }
    requires in_bounds_2 { 128 ≤ length spots.now }
    ensures { Finds keys.now at (values_from pool.now start count) result }
{
    let mut m: u64 = 0;
    for i in 0..64 {
        let w = keys[at + i];
        m = with_bit(
            m,
            i as u32,
            holds_from(pool, order, start, count, w, spots[i], spots[64 + i]),
        );
    }
    m
}

// The same where the keys are those of 1 and 0, of which two words say where they stand: two questions serve all.
fn find_truths(pool: &[u8], order: &[u64], start: u32, count: u32, ones: u64, zeros: u64) -> u64
    requires ordered_part { OrderedPart pool.now order.now }
    requires count_in_bounds { 8 * (start + count) ≤ length pool.now }
    ensures { (keys : List ℕ) (at : ℕ) → Truths keys at ones zeros
        → Finds keys at (values_from pool.now start count) result }
{
    let one = all_if(find_one(pool, order, start, count, 9223372036854775809));
    let zero = all_if(find_one(pool, order, start, count, 9223372036854775808));
    (ones & one) | (zeros & zero)
}

// The same of the first 64 keys, by guesses where the pool is in order. What stands from `hints` on is for them.
fn find_any(
    pool: &[u8],
    order: &[u64],
    start: u32,
    count: u32,
    keys: &mut [u64],
    hints: usize,
    stamp: u64,
) -> u64
    requires ordered_part { OrderedPart pool.now order.now }
    requires count_in_bounds { 8 * (start + count) ≤ length pool.now }
    requires in_bounds { 64 ≤ length keys.old }
    requires le_hints { 64 ≤ hints }
    requires hints_bound { hints ≤ 8192 }
    ensures { Finds keys.old 0 (values_from pool.now start count) result }
{
    if order.len() < 21512 {
        return find_keys(pool, start, count, keys, 0);
    }
    let mut spots = [0u64; 128];
    let end = start as u64 + count as u64;
    guess(order, end, keys, hints, stamp, &mut spots);
    find_guessed(pool, order, start, count, keys, 0, &spots)
}

// The same where the keys may be one key, as those of a literal are: one question serves all.
fn find_alike(
    pool: &[u8],
    order: &[u64],
    start: u32,
    count: u32,
    keys: &mut [u64],
    hints: usize,
    stamp: u64,
) -> u64
    requires ordered_part { OrderedPart pool.now order.now }
    requires count_in_bounds { 8 * (start + count) ≤ length pool.now }
    requires in_bounds { 64 ≤ length keys.old }
    requires le_hints { 64 ≤ hints }
    requires hints_bound { hints ≤ 8192 }
    ensures { Finds keys.old 0 (values_from pool.now start count) result }
{
    let w = keys[0];
    if mask_equal(keys, 0, w) == 18446744073709551615 {
        return all_if(find_one(pool, order, start, count, w));
    }
    find_any(pool, order, start, count, keys, hints, stamp)
}

// The same where the keys may be those of truths.
fn find_likely(
    pool: &[u8],
    order: &[u64],
    start: u32,
    count: u32,
    keys: &mut [u64],
    hints: usize,
    stamp: u64,
) -> u64
    requires ordered_part { OrderedPart pool.now order.now }
    requires count_in_bounds { 8 * (start + count) ≤ length pool.now }
    requires in_bounds { 64 ≤ length keys.old }
    requires le_hints { 64 ≤ hints }
    requires hints_bound { hints ≤ 8192 }
    ensures { Finds keys.old 0 (values_from pool.now start count) result }
{
    let ones = mask_equal(keys, 0, 9223372036854775809);
    let zeros = mask_equal(keys, 0, 9223372036854775808);
    if (ones | zeros) == 18446744073709551615 {
        return find_truths(pool, order, start, count, ones, zeros);
    }
    find_any(pool, order, start, count, keys, hints, stamp)
}

fn is_truth_key(w: u64) -> bool {
    (w == 9223372036854775808) | (w == 9223372036854775809)
}

// The same by the way that takes least time.
fn find_first(
    pool: &[u8],
    order: &[u64],
    start: u32,
    count: u32,
    keys: &mut [u64],
    hints: usize,
    stamp: u64,
) -> u64
    requires ordered_part { OrderedPart pool.now order.now }
    requires count_in_bounds { 8 * (start + count) ≤ length pool.now }
    requires in_bounds { 64 ≤ length keys.old }
    requires le_hints { 64 ≤ hints }
    requires hints_bound { hints ≤ 8192 }
    ensures { Finds keys.old 0 (values_from pool.now start count) result }
{
    if count < 16 {
        return find_keys(pool, start, count, keys, 0);
    }
    if is_truth_key(keys[0]) {
        return find_likely(pool, order, start, count, keys, hints, stamp);
    }
    if keys[0] == keys[63] {
        return find_alike(pool, order, start, count, keys, hints, stamp);
    }
    find_any(pool, order, start, count, keys, hints, stamp)
}

// From where on an order of the second part stands in so many words; none does behind the last.
fn second_from(size: usize) -> usize
    ensures upper_bound { result ≤ size }
    ensures le_size { result < size → (43024 ≤ size) × (result ≡ 21512) }
{
    if size < 43024 {
        return size;
    }
    21512
}

// How many words an order of the first part has, of so many.
fn first_words(size: usize) -> usize
    ensures upper_bound { result ≤ size }
    ensures value { 0 < result → result ≡ 21512 }
{
    if size < 21512 {
        return 0;
    }
    21512
}

// The same in a pool of two parts. A list that lies in both is searched from its first value on.
fn find_half(
    pool: &[u8],
    order: &[u64],
    start: u32,
    count: u32,
    keys: &mut [u64],
    hints: usize,
    stamp: u64,
) -> u64
    requires ordered { Ordered pool.now order.now }
    requires in_bounds { 65536 < length pool.now }
    requires count_in_bounds { 8 * (start + count) ≤ length pool.now }
    requires in_bounds_2 { 64 ≤ length keys.old }
    requires le_hints { 64 ≤ hints }
    requires hints_bound { hints ≤ 8192 }
    ensures { Finds keys.old 0 (values_from pool.now start count) result }
{
    let size = pool.len();
    let end = part_end(size);
    let first = end / 8;
    let at = start as usize;
    if first <= at {
        let words = order.len();
        let from = second_from(words);
        return find_first(
            &pool[end..size],
            &order[from..words],
            (at - first) as u32,
            count,
            keys,
            hints,
            stamp,
        );
    }
    if at + count as usize <= first {
        let till = first_words(order.len());
        return find_first(
            &pool[..end],
            &order[..till],
            start,
            count,
            keys,
            hints,
            stamp,
        );
    }
    find_keys(pool, start, count, keys, 0)
}

// The same in any pool.
fn find_part(
    pool: &[u8],
    order: &[u64],
    start: u32,
    count: u32,
    keys: &mut [u64],
    hints: usize,
    stamp: u64,
) -> u64
    requires ordered { Ordered pool.now order.now }
    requires count_in_bounds { 8 * (start + count) ≤ length pool.now }
    requires in_bounds { 64 ≤ length keys.old }
    requires le_hints { 64 ≤ hints }
    requires hints_bound { hints ≤ 8192 }
    ensures { Finds keys.old 0 (values_from pool.now start count) result }
{
    if pool.len() <= 65536 {
        return find_first(pool, order, start, count, keys, hints, stamp);
    }
    find_half(pool, order, start, count, keys, hints, stamp)
}

/// is_in of a column, the first 64 keys, and the record of a list; `equal` is nulls_equal. Where `keys` has 17 words more from
/// `hints` on, they keep what can be used again of the same column and block, which `stamp` tells.
pub fn member_masks(
    pool: &[u8],
    order: &[u64],
    list: Fields,
    equal: bool,
    keys: &mut [u64],
    nulls: u64,
    hints: usize,
    stamp: u64,
) -> Masks
    requires ordered { Ordered pool.now order.now }
    requires b_in_bounds { 8 * (list.a + list.b) ≤ length pool.now }
    requires in_bounds { 64 ≤ length keys.old }
    requires le_hints { 64 ≤ hints }
    requires hints_bound { hints ≤ 8192 }
    ensures { (rows : ℕ) (value : ℕ → Option ℤ) → Shown rows keys.old 0 nulls value
        → Tells rows result (λ i. member_of pool.now list equal (value i)) }
{
    let holds = list.code == 1;
    let found = find_part(pool, order, list.a, list.b, keys, hints, stamp);
    let certain = all_if(equal & holds);
    let likely = all_if(!equal & (holds | (list.b != 0)));
    let unsure = all_if(!equal & holds);
    Masks {
        truths: (found & inverted(nulls)) | (certain & nulls),
        unknowns: (likely & nulls) | (unsure & inverted(found | nulls)),
    }
}
