// A column of a block against a literal. Its values are read where they stand, so no keys are filled for it.
#![tactic(auto)]

ghost use Rattle.std.specs.Prelude.{◌≡◌, cond, List, ℕ, ◌+◌, ◌*◌, ◌^◌, ◌≤◌, ◌<◌, ltb, eqb, length};
ghost use Rattle.std.proofs.Math.Option.{some};
ghost use Rattle.truth.specs.Comparison.{Eq, Lt};
ghost use Rattle.three_valued.specs.Logic.{of_bool};
ghost use Rattle.truth.specs.Evaluate.{comparing, compared_of, between_of, null_test};
ghost use Rattle.truth.specs.Halves.{key, bias_of};
ghost use Rattle.masks.specs.Masks.{mask_to, Tells};
ghost use Rattle.masks.specs.Block.{chain_value, cell_of, Wide, NullWord};

use masks::{Masks, and_masks, inverted, not_masks};
use records::bytes::value_in;
use truth::scalar::biased;
use truth::value::{high_code, low_code};

// A word is put together from its highest bit down: that takes fewer instructions than to set bit after bit.
fn pushed(m: u64, b: bool) -> u64
    requires { m < 9223372036854775808 }
    ensures { result ≡ m * 2 + cond b 1 0 }
{
    if b {
        return 2 * m + 1;
    }
    2 * m
}

// In which rows the value is below v.
fn mask_below(values: &[u8], columns: usize, c: u32, base: usize, rows: usize, v: u64) -> u64
    requires rows_bound { rows ≤ 64 }
    requires columns_bound { columns ≤ 64 }
    requires c_lt_columns { c < columns }
    requires rows_bound_2 { base + rows ≤ 1024 }
    requires rows_in_bounds { 8 * columns * (base + rows) ≤ length values.now }
    ensures value { result ≡ mask_to (λ (i : ℕ). ltb (bias_of (cell_of columns values.now c base i)) (bias_of v)) rows }
    ensures wide { Wide columns values.now c base 0 rows }
{
    let mut m: u64 = 0;
    for i in (0..rows).rev() {
        let x = value_in(values, columns * (base + i) + c as usize);
        m = pushed(m, biased(x) < biased(v));
    }
    m
}

// In which rows it is above v.
fn mask_above(values: &[u8], columns: usize, c: u32, base: usize, rows: usize, v: u64) -> u64
    requires rows_bound { rows ≤ 64 }
    requires columns_bound { columns ≤ 64 }
    requires c_lt_columns { c < columns }
    requires rows_bound_2 { base + rows ≤ 1024 }
    requires rows_in_bounds { 8 * columns * (base + rows) ≤ length values.now }
    ensures value { result ≡ mask_to (λ (i : ℕ). ltb (bias_of v) (bias_of (cell_of columns values.now c base i))) rows }
    ensures wide { Wide columns values.now c base 0 rows }
{
    let mut m: u64 = 0;
    for i in (0..rows).rev() {
        let x = value_in(values, columns * (base + i) + c as usize);
        m = pushed(m, biased(v) < biased(x));
    }
    m
}

// In which rows it is v.
fn mask_same(values: &[u8], columns: usize, c: u32, base: usize, rows: usize, v: u64) -> u64
    requires rows_bound { rows ≤ 64 }
    requires columns_bound { columns ≤ 64 }
    requires c_lt_columns { c < columns }
    requires rows_bound_2 { base + rows ≤ 1024 }
    requires rows_in_bounds { 8 * columns * (base + rows) ≤ length values.now }
    ensures value { result ≡ mask_to (λ (i : ℕ). eqb (bias_of (cell_of columns values.now c base i)) (bias_of v)) rows }
    ensures wide { Wide columns values.now c base 0 rows }
{
    let mut m: u64 = 0;
    for i in (0..rows).rev() {
        let x = value_in(values, columns * (base + i) + c as usize);
        m = pushed(m, biased(x) == biased(v));
    }
    m
}

// Lt of the column and the literal; `nulls` is the word of the column's nulls.
fn less_literal(
    values: &[u8],
    columns: usize,
    c: u32,
    base: usize,
    rows: usize,
    nulls: u64,
    v: u64,
) -> Masks
    requires rows_bound { rows ≤ 64 }
    requires columns_bound { columns ≤ 64 }
    requires c_lt_columns { c < columns }
    requires rows_bound_2 { base + rows ≤ 1024 }
    requires rows_in_bounds { 8 * columns * (base + rows) ≤ length values.now }
    ensures { (chain : List ℕ) → NullWord chain c base rows nulls
        → Tells rows result (λ i. comparing Lt (chain_value columns values.now chain c (base + i)) (some (key v))) }
{
    let m = mask_below(values, columns, c, base, rows, v);
    Masks {
        truths: m & inverted(nulls),
        unknowns: nulls,
    }
}

// Lt of the literal and the column.
fn more_literal(
    values: &[u8],
    columns: usize,
    c: u32,
    base: usize,
    rows: usize,
    nulls: u64,
    v: u64,
) -> Masks
    requires rows_bound { rows ≤ 64 }
    requires columns_bound { columns ≤ 64 }
    requires c_lt_columns { c < columns }
    requires rows_bound_2 { base + rows ≤ 1024 }
    requires rows_in_bounds { 8 * columns * (base + rows) ≤ length values.now }
    ensures { (chain : List ℕ) → NullWord chain c base rows nulls
        → Tells rows result (λ i. comparing Lt (some (key v)) (chain_value columns values.now chain c (base + i))) }
{
    let m = mask_above(values, columns, c, base, rows, v);
    Masks {
        truths: m & inverted(nulls),
        unknowns: nulls,
    }
}

// Eq of the two.
fn equal_literal(
    values: &[u8],
    columns: usize,
    c: u32,
    base: usize,
    rows: usize,
    nulls: u64,
    v: u64,
) -> Masks
    requires rows_bound { rows ≤ 64 }
    requires columns_bound { columns ≤ 64 }
    requires c_lt_columns { c < columns }
    requires rows_bound_2 { base + rows ≤ 1024 }
    requires rows_in_bounds { 8 * columns * (base + rows) ≤ length values.now }
    ensures { (chain : List ℕ) → NullWord chain c base rows nulls
        → Tells rows result (λ i. comparing Eq (chain_value columns values.now chain c (base + i)) (some (key v))) }
{
    let m = mask_same(values, columns, c, base, rows, v);
    Masks {
        truths: m & inverted(nulls),
        unknowns: nulls,
    }
}

/// The operators of codes 0, 2 and 4 to 7, of column c and the literal v.
pub fn compare_literal(
    code: u8,
    values: &[u8],
    columns: usize,
    c: u32,
    base: usize,
    rows: usize,
    nulls: u64,
    v: u64,
) -> Masks
    requires rows_bound { rows ≤ 64 }
    requires columns_bound { columns ≤ 64 }
    requires c_lt_columns { c < columns }
    requires rows_bound_2 { base + rows ≤ 1024 }
    requires rows_in_bounds { 8 * columns * (base + rows) ≤ length values.now }
    requires fact { code ≡ 1 → ⊥ }
    requires fact_2 { code ≡ 3 → ⊥ }
    ensures { (chain : List ℕ) → NullWord chain c base rows nulls
        → Tells rows result (λ i. compared_of code (chain_value columns values.now chain c (base + i)) (some (key v))) }
{
    match code {
        0 => equal_literal(values, columns, c, base, rows, nulls, v),
        2 => not_masks(equal_literal(values, columns, c, base, rows, nulls, v)),
        4 => less_literal(values, columns, c, base, rows, nulls, v),
        5 => not_masks(more_literal(values, columns, c, base, rows, nulls, v)),
        6 => more_literal(values, columns, c, base, rows, nulls, v),
        _ => not_masks(less_literal(values, columns, c, base, rows, nulls, v)),
    }
}

/// is_between of column c and two literals: the And of its two comparisons.
pub fn between_literals(
    code: u8,
    values: &[u8],
    columns: usize,
    c: u32,
    base: usize,
    rows: usize,
    nulls: u64,
    low: u64,
    high: u64,
) -> Masks
    requires rows_bound { rows ≤ 64 }
    requires columns_bound { columns ≤ 64 }
    requires c_lt_columns { c < columns }
    requires rows_bound_2 { base + rows ≤ 1024 }
    requires rows_in_bounds { 8 * columns * (base + rows) ≤ length values.now }
    ensures { (chain : List ℕ) → NullWord chain c base rows nulls
        → Tells rows result (λ i. between_of code (chain_value columns values.now chain c (base + i)) (some (key low))
        (some (key high))) }
{
    let above = compare_literal(low_code(code), values, columns, c, base, rows, nulls, low);
    let below = compare_literal(high_code(code), values, columns, c, base, rows, nulls, high);
    and_masks(above, below)
}

/// is_null of a column by the word of its nulls.
pub fn null_masks(nulls: u64) -> Masks
    ensures { (columns : ℕ) (values chain : List ℕ) (c base rows : ℕ) → NullWord chain c base rows nulls
        → Tells rows result (λ i. of_bool (null_test (chain_value columns values chain c (base + i)))) }
{
    Masks {
        truths: nulls,
        unknowns: 0,
    }
}
