// The lines that most screens are made of: a column compared with a literal, between two literals, or tested for null. They are
// worked from the rows' values as they stand, and from a word of nulls for each column that is made once for the block.
ghost use Rattle.std.specs.Prelude.{◌≡◌, ℕ, ◌+◌, ◌*◌, ◌^◌, ◌<◌, ◌≤◌, true, cond, length, bit_or, slice_index};
ghost use Rattle.records.specs.Record.{fields_at, node};
ghost use Rattle.truth.specs.FromBytes.{null_marked};
ghost use Rattle.masks.specs.Masks.{Tells};
ghost use Rattle.masks.specs.Block.{chain_truth, Turn, NullWords, Line};

use crate::operand::join;
use literal_masks::{between_literals, compare_literal, null_masks};
use masks::{Masks, not_masks, with_bit};
use records::record::{Fields, Node, fields_in};
use truth::read::null_marked;

// The null marks of row i into the columns' words.
fn mark_row(words: &mut [u64], columns: usize, i: u32, marks: u64)
    requires i_bound { i < 64 }
    requires columns_bound { columns ≤ 64 }
    requires columns_in_bounds { columns ≤ length words.old }
    ensures { (c : ℕ) → c < columns → slice_index words.new c ≡ cond (null_marked marks c)
        (bit_or (slice_index words.old c) (2 ^ i)) (slice_index words.old c) }
{
    for c in 0..columns {
        words[c] = with_bit(words[c], i, null_marked(marks, c as u32));
    }
}

/// The words of the columns' nulls in a block, into words that are 0. Most rows have no null.
pub fn null_words(nulls: &[u64], base: usize, rows: usize, columns: usize, words: &mut [u64])
    requires rows_bound { rows ≤ 64 }
    requires columns_bound { columns ≤ 64 }
    requires columns_in_bounds { columns ≤ length words.old }
    requires rows_in_bounds { base + rows ≤ length nulls.now }
    requires nulls_len_bound { length nulls.now ≤ 1024 }
    requires by_index { (c : ℕ) → c < columns → slice_index words.old c ≡ 0 }
    ensures { NullWords nulls.now columns base rows words.new }
{
    for i in 0..rows {
        let marks = nulls[base + i];
        if marks != 0 {
            mark_row(words, columns, i as u32, marks);
        }
    }
}

// Record m is below n and of this kind.
fn is_kind(records: &[u8], n: u32, m: u32, kind: u8) -> bool
    requires { 16 * n + 15 < length records.now }
    ensures { result ≡ true → (fields_at records.now (node m)).kind ≡ kind }
{
    if n <= m {
        return false;
    }
    let f = fields_in(records, Node(m));
    f.kind == kind
}

/// Whether record n, whose fields are f, is such a line.
pub fn is_line(records: &[u8], n: u32, f: Fields) -> bool
    requires { 16 * n + 15 < length records.now }
    ensures { result ≡ true → Line records.now f }
{
    if !is_kind(records, n, f.a, 1) {
        return false;
    }
    if f.kind == 4 {
        if 7 < f.code {
            return false;
        }
        if f.code == 1 {
            return false;
        }
        if f.code == 3 {
            return false;
        }
        return is_kind(records, n, f.b, 2);
    }
    if f.kind == 8 {
        if !is_kind(records, n, f.b, 2) {
            return false;
        }
        return is_kind(records, n, f.c, 2);
    }
    if f.kind == 6 {
        return true;
    }
    f.kind == 7
}

// A comparison.
fn compare_line(
    records: &[u8],
    pool: &[u8],
    values: &[u8],
    nulls: &[u64],
    columns: usize,
    base: usize,
    rows: usize,
    truths: &[u64],
    unknowns: &[u64],
    n: Node,
    f: Fields,
    words: &[u64],
) -> Masks
    requires turn { Turn records.now pool.now columns values.now nulls.now base rows truths.now unknowns.now n f }
    requires null_words { NullWords nulls.now columns base rows words.now }
    requires in_bounds { 64 ≤ length words.now }
    requires line { Line records.now f }
    requires kind_value { f.kind ≡ 4 }
    ensures { Tells rows result (λ (i : ℕ). chain_truth records.now pool.now columns
        values.now nulls.now n.0 (base + i)) }
{
    let x = fields_in(records, Node(f.a));
    let y = fields_in(records, Node(f.b));
    let marks = words[x.a as usize];
    compare_literal(
        f.code,
        values,
        columns,
        x.a,
        base,
        rows,
        marks,
        join(y.b, y.c),
    )
}

// is_between.
fn between_line(
    records: &[u8],
    pool: &[u8],
    values: &[u8],
    nulls: &[u64],
    columns: usize,
    base: usize,
    rows: usize,
    truths: &[u64],
    unknowns: &[u64],
    n: Node,
    f: Fields,
    words: &[u64],
) -> Masks
    requires turn { Turn records.now pool.now columns values.now nulls.now base rows truths.now unknowns.now n f }
    requires null_words { NullWords nulls.now columns base rows words.now }
    requires in_bounds { 64 ≤ length words.now }
    requires line { Line records.now f }
    requires kind_value { f.kind ≡ 8 }
    ensures { Tells rows result (λ (i : ℕ). chain_truth records.now pool.now columns
        values.now nulls.now n.0 (base + i)) }
{
    let x = fields_in(records, Node(f.a));
    let y = fields_in(records, Node(f.b));
    let z = fields_in(records, Node(f.c));
    let marks = words[x.a as usize];
    between_literals(
        f.code,
        values,
        columns,
        x.a,
        base,
        rows,
        marks,
        join(y.b, y.c),
        join(z.b, z.c),
    )
}

// is_null and is_not_null.
fn null_line(
    records: &[u8],
    pool: &[u8],
    values: &[u8],
    nulls: &[u64],
    columns: usize,
    base: usize,
    rows: usize,
    truths: &[u64],
    unknowns: &[u64],
    n: Node,
    f: Fields,
    words: &[u64],
) -> Masks
    requires turn { Turn records.now pool.now columns values.now nulls.now base rows truths.now unknowns.now n f }
    requires null_words { NullWords nulls.now columns base rows words.now }
    requires in_bounds { 64 ≤ length words.now }
    requires line { Line records.now f }
    requires lt_kind { 5 < f.kind }
    requires kind_bound { f.kind < 8 }
    ensures { Tells rows result (λ (i : ℕ). chain_truth records.now pool.now columns
        values.now nulls.now n.0 (base + i)) }
{
    let x = fields_in(records, Node(f.a));
    let m = null_masks(words[x.a as usize]);
    if f.kind == 6 {
        return m;
    }
    not_masks(m)
}

/// The truth of record n, a line.
pub fn line_masks(
    records: &[u8],
    pool: &[u8],
    values: &[u8],
    nulls: &[u64],
    columns: usize,
    base: usize,
    rows: usize,
    truths: &[u64],
    unknowns: &[u64],
    n: Node,
    f: Fields,
    words: &[u64],
) -> Masks
    requires turn { Turn records.now pool.now columns values.now nulls.now base rows truths.now unknowns.now n f }
    requires null_words { NullWords nulls.now columns base rows words.now }
    requires in_bounds { 64 ≤ length words.now }
    requires line { Line records.now f }
    ensures { Tells rows result (λ (i : ℕ). chain_truth records.now pool.now columns
        values.now nulls.now n.0 (base + i)) }
{
    match f.kind {
        4 => compare_line(
            records, pool, values, nulls, columns, base, rows, truths, unknowns, n, f, words,
        ),
        8 => between_line(
            records, pool, values, nulls, columns, base, rows, truths, unknowns, n, f, words,
        ),
        _ => null_line(
            records, pool, values, nulls, columns, base, rows, truths, unknowns, n, f, words,
        ),
    }
}
