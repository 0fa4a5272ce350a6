// The value of a record in each row of a block, where no truth is kept of it: divisions, 64 rows at a time.
ghost use Rattle.std.specs.Prelude.{◌≡◌, ℕ, ◌+◌, ◌-◌, ◌<◌, ◌≤◌, true, length, ℤ, if◌then◌else◌, ◌≢◌, slice_index};
ghost use Rattle.std.proofs.Math.Option.{Option};
ghost use Rattle.truth.specs.Evaluate.{divided_of};
ghost use Rattle.masks.specs.Masks.{Shown};
ghost use Rattle.masks.specs.Block.{chain_worth, Ready};
ghost use Rattle.row_blocks.specs.Parts.{has_none, IsPart};

use crate::depths::is_deeper;
use crate::operand::{fill_keys, fill_rows, join, pick};
use masks::block::fill_column;
use masks::reach::is_kept;
use masks::with_bit;
use records::record::{Fields, Node, fields_in};
use truth::scalar::biased;

// The key of 0 is 2^63, and those of the numbers below 0 are below it. Signs change from row to row, so nothing here branches
// on them.

fn one_if(b: bool) -> u64
    ensures { result ≡ (if b then 1 else 0) }
{
    if b { 1 } else { 0 }
}

// -x - 1, if t. The compiler does not ask whether the result of an exclusive or is short before it divides, which would be a
// branch more.
fn turned_if(t: bool, x: u64) -> u64
    ensures { result ≡ (if t then 18446744073709551615 - x else x) }
{
    x ^ pick(t, 18446744073709551615, 0)
}

// How far the key is from that of 0.
fn distance(q: u64) -> u64
    ensures q_value { q < 9223372036854775808 → result + q ≡ 9223372036854775808 }
    ensures result_value { 9223372036854775808 ≤ q → result + 9223372036854775808 ≡ q }
{
    if q < 9223372036854775808 {
        return 9223372036854775808 - q;
    }
    q - 9223372036854775808
}

// The divisor's size; 1 for 0.
fn size_of(q: u64) -> u64
    ensures result_nonzero { (0 < result) × (result ≤ 9223372036854775808) }
    ensures q_value { q < 9223372036854775808 → result + q ≡ 9223372036854775808 }
    ensures result_value { 9223372036854775808 < q → result + 9223372036854775808 ≡ q }
{
    let d = distance(q);
    d + one_if(d == 0)
}

// u - v, or one less than v - u.
fn dividend(u: u64, v: u64) -> u64
    ensures { (v ≤ u → result + v ≡ u) × (u < v → result + u + 1 ≡ v) }
{
    turned_if(u < v, std::num::wrapping_sub_u64(u, v))
}

// Whether the values with these keys have no quotient: of 0, and of the least number by -1.
fn has_none(p: u64, q: u64) -> bool
    ensures { result ≡ has_none p q }
{
    (q == 9223372036854775808) | ((p == 0) & (q == 9223372036854775807))
}

// The key of the quotient, rounded down: by a divisor below 0 both signs are turned. Where divisor and dividend differ in sign
// the dividend is taken as n below 0, -n - 1, and so is the quotient.
fn quotient_key(p: u64, q: u64) -> u64
    ensures { (code : ℕ) → code ≡ 13 → IsPart code p q result }
{
    let u = pick(q < 9223372036854775808, 9223372036854775808, p);
    let v = pick(q < 9223372036854775808, p, 9223372036854775808);
    let k = dividend(u, v) / size_of(q);
    biased(turned_if(u < v, k))
}

// That of the remainder, which has the divisor's sign.
fn remainder_key(p: u64, q: u64) -> u64
    ensures { (code : ℕ) → (code ≢ 13) → IsPart code p q result }
{
    let u = pick(q < 9223372036854775808, 9223372036854775808, p);
    let v = pick(q < 9223372036854775808, p, 9223372036854775808);
    let size = size_of(q);
    let k = dividend(u, v) % size;
    let m = pick(u < v, size - 1 - k, k);
    pick(q < 9223372036854775808, 9223372036854775808 - m, biased(m))
}

fn part_key(code: u8, p: u64, q: u64) -> u64
    ensures { IsPart code p q result }
{
    if code == 13 {
        return quotient_key(p, q);
    }
    remainder_key(p, q)
}

// The 64 keys from `one` on divided by those from `two` on, into the place from `at` on; the word of the quotients' nulls.
fn divide_keys(
    code: u8,
    keys: &mut [u64],
    at: usize,
    one: usize,
    two: usize,
    rows: usize,
    x: u64,
    y: u64,
) -> u64
    requires rows_bound { rows ≤ 64 }
    requires at_le_one { at ≤ one }
    requires at_le_two { at ≤ two }
    requires one_in_bounds { one + 64 ≤ length keys.old }
    requires two_in_bounds { two + 64 ≤ length keys.old }
    ensures by_index { (value second : ℕ → Option ℤ) → Shown rows keys.old one x value
        → Shown rows keys.old two y second
        → Shown rows keys.new at result (λ i. divided_of code (value i) (second i)) }
    ensures by_index_2 { (j : ℕ) → j < at → slice_index keys.new j ≡ slice_index keys.old j }
{
    let mut marks: u64 = 0;
    for i in 0..rows {
        let p = keys[one + i];
        let q = keys[two + i];
        keys[at + i] = part_key(code, p, q);
        marks = with_bit(marks, i as u32, has_none(p, q));
    }
    marks | x | y
}

// The 64 keys from `at` on and the next 64 are those of a division's inputs, or, turned round, of the second and the first.
fn divide_turned(
    code: u8,
    turned: bool,
    keys: &mut [u64],
    at: usize,
    rows: usize,
    p: u64,
    q: u64,
) -> u64
    requires rows_bound { rows ≤ 64 }
    requires at_in_bounds { at + 128 ≤ length keys.old }
    ensures by_index { (value second : ℕ → Option ℤ)
        → Shown rows keys.old at p (λ i. (if turned then second i else value i))
        → Shown rows keys.old (at + 64) q (λ i. (if turned then value i else second i))
        → Shown rows keys.new at result (λ i. divided_of code (value i) (second i)) }
    ensures by_index_2 { (j : ℕ) → j < at → slice_index keys.new j ≡ slice_index keys.old j }
{
    if turned {
        return divide_keys(code, keys, at, at + 64, at, rows, q, p);
    }
    divide_keys(code, keys, at, at, at + 64, rows, p, q)
}

fn pick_input(b: bool, on: u32, off: u32) -> u32
    ensures { result ≡ (if b then on else off) }
{
    if b {
        return on;
    }
    off
}

// A division, and so many words as it takes.
fn divides(f: Fields, room: usize, need: usize) -> bool
    ensures { result ≡ true → (f.kind ≡ 4) × (8 ≤ f.code) × (f.code < 15) × (need ≤ room) }
{
    if f.kind != 4 {
        return false;
    }
    if is_kept(f) {
        return false;
    }
    need <= room
}

/// The value of record n: its keys from `at` on, and the word of its nulls. What stands before `at` stays. A division has its
/// inputs' keys there and in the next 64 words; where there are not so many, rows are worked one by one. `depths`
/// settles which input is worked first, and no value.
pub fn fill_worth(
    records: &[u8],
    pool: &[u8],
    values: &[u8],
    nulls: &[u64],
    columns: usize,
    base: usize,
    rows: usize,
    n: Node,
    keys: &mut [u64],
    at: usize,
    depths: &[u64],
) -> u64
    requires ready { Ready records.now pool.now columns values.now nulls.now base rows n.0 }
    requires at_in_bounds { at + 64 ≤ length keys.old }
    ensures shown { Shown rows keys.new at result (λ (i : ℕ). chain_worth records.now pool.now
        columns values.now nulls.now n.0 (base + i)) }
    ensures by_index { (j : ℕ) → j < at → slice_index keys.new j ≡ slice_index keys.old j }
{
    let f = fields_in(records, n);
    if f.kind == 1 {
        return fill_column(values, nulls, columns, f.a, base, rows, keys, at);
    }
    if f.kind == 2 {
        fill_keys(keys, at, 0, 0, biased(join(f.b, f.c)));
        return 0;
    }
    if !divides(f, keys.len(), at + 128) {
        return fill_rows(
            records, pool, values, nulls, columns, base, rows, n, keys, at,
        );
    }
    // The deeper input first, so that its scratch is free again.
    let turned = is_deeper(depths, f.b, f.a);
    let p = fill_worth(
        records,
        pool,
        values,
        nulls,
        columns,
        base,
        rows,
        Node(pick_input(turned, f.b, f.a)),
        keys,
        at,
        depths,
    );
    let q = fill_worth(
        records,
        pool,
        values,
        nulls,
        columns,
        base,
        rows,
        Node(pick_input(turned, f.a, f.b)),
        keys,
        at + 64,
        depths,
    );
    divide_turned(f.code, turned, keys, at, rows, p, q)
}
