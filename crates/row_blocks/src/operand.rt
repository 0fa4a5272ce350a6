// An input of a record in each row of a block: its value as keys and a word of null marks, or its truth as two words.
ghost use Rattle.std.specs.Prelude.{◌≡◌, ℕ, ◌+◌, ◌*◌, ◌<◌, ◌≤◌, length, if◌then◌else◌, slice_index};
ghost use Rattle.checking.specs.Columns.{bit};
ghost use Rattle.truth.specs.Evaluate.{keyed, null_test};
ghost use Rattle.masks.specs.Masks.{Tells, KeyAt, Shown};
ghost use Rattle.masks.specs.Block.{chain_truth, chain_worth, Ready, Input};

use crate::quotients::fill_worth;
use masks::block::fill_column;
use masks::reach::is_kept;
use masks::{Masks, equal_to, with_bit};
use records::record::{Node, fields_in};
use row_test::evaluate::value_at;
use truth::read::null_marked;
use truth::scalar::biased;
use truth::value::{Value, is_null};

pub fn join(low: u32, high: u32) -> u64
    ensures { result ≡ low + 4294967296 * high }
{
    low as u64 + 4294967296 * high as u64
}

pub fn pick(b: bool, on: u64, off: u64) -> u64
    ensures { result ≡ (if b then on else off) }
{
    if b {
        return on;
    }
    off
}

/// 64 keys from the one numbered `at` on: `on` where the word has a bit, else `off`. What stands before `at` stays.
pub fn fill_keys(keys: &mut [u64], at: usize, word: u64, on: u64, off: u64)
    requires { at + 64 ≤ length keys.old }
    ensures by_index { (i : ℕ) → i < 64 → slice_index keys.new (at + i) ≡ (if bit word i then on else off) }
    ensures by_index_2 { (j : ℕ) → j < at → slice_index keys.new j ≡ slice_index keys.old j }
{
    for i in 0..64 {
        keys[at + i] = pick(null_marked(word, i as u32), on, off);
    }
}

pub fn value_key(v: Value) -> u64
    ensures { KeyAt (null_test (keyed v)) result (keyed v) }
{
    match v {
        None => 0,
        Some(bits) => biased(bits.0),
    }
}

/// The value of record n, a row at a time.
pub fn fill_rows(
    records: &[u8],
    pool: &[u8],
    values: &[u8],
    nulls: &[u64],
    columns: usize,
    base: usize,
    rows: usize,
    n: Node,
    keys: &mut [u64],
    at: usize,
) -> u64
    requires ready { Ready records.now pool.now columns values.now nulls.now base rows n.0 }
    requires at_in_bounds { at + 64 ≤ length keys.old }
    ensures shown { Shown rows keys.new at result (λ (i : ℕ). chain_worth records.now pool.now
        columns values.now nulls.now n.0 (base + i)) }
    ensures by_index { (j : ℕ) → j < at → slice_index keys.new j ≡ slice_index keys.old j }
{
    let width = 8 * columns;
    let mut marks: u64 = 0;
    for i in 0..rows {
        let r = base + i;
        let start = width * r;
        let end = start + width;
        let v = value_at(records, pool, &values[start..end], nulls[r], n);
        keys[at + i] = value_key(v);
        marks = with_bit(marks, i as u32, is_null(v));
    }
    marks
}

/// The value of record n: its keys from `at` on, and the word of its nulls. What stands before `at` stays.
pub fn operand(
    records: &[u8],
    pool: &[u8],
    values: &[u8],
    nulls: &[u64],
    columns: usize,
    base: usize,
    rows: usize,
    truths: &[u64],
    unknowns: &[u64],
    n: Node,
    keys: &mut [u64],
    at: usize,
) -> u64
    requires input { Input records.now pool.now columns values.now nulls.now base rows truths.now unknowns.now n.0 }
    requires at_in_bounds { at + 64 ≤ length keys.old }
    ensures shown { Shown rows keys.new at result (λ (i : ℕ). chain_worth records.now pool.now
        columns values.now nulls.now n.0 (base + i)) }
    ensures by_index { (j : ℕ) → j < at → slice_index keys.new j ≡ slice_index keys.old j }
{
    let f = fields_in(records, n);
    if f.kind == 1 {
        return fill_column(values, nulls, columns, f.a, base, rows, keys, at);
    }
    if f.kind == 2 {
        fill_keys(keys, at, 0, 0, biased(join(f.b, f.c)));
        return 0;
    }
    if is_kept(f) {
        fill_keys(
            keys,
            at,
            truths[n.0 as usize],
            9223372036854775809,
            9223372036854775808,
        );
        return unknowns[n.0 as usize];
    }
    if f.kind == 4 {
        return fill_worth(
            records, pool, values, nulls, columns, base, rows, n, keys, at, truths,
        );
    }
    18446744073709551615
}

/// The truth of record n. The first 64 keys are taken for it.
pub fn truth_input(
    records: &[u8],
    pool: &[u8],
    values: &[u8],
    nulls: &[u64],
    columns: usize,
    base: usize,
    rows: usize,
    truths: &[u64],
    unknowns: &[u64],
    n: Node,
    keys: &mut [u64],
) -> Masks
    requires input { Input records.now pool.now columns values.now nulls.now base rows truths.now unknowns.now n.0 }
    requires in_bounds { 64 ≤ length keys.old }
    ensures { Tells rows result (λ (i : ℕ). chain_truth records.now pool.now columns
        values.now nulls.now n.0 (base + i)) }
{
    if is_kept(fields_in(records, n)) {
        return Masks {
            truths: truths[n.0 as usize],
            unknowns: unknowns[n.0 as usize],
        };
    }
    let u = operand(
        records, pool, values, nulls, columns, base, rows, truths, unknowns, n, keys, 0,
    );
    equal_to(keys, 0, u, 9223372036854775809)
}
