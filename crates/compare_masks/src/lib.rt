// The operators that compare and those of logic, by their codes, on 64 rows.
#![tactic(auto)]

ghost use Rattle.std.specs.Prelude.{◌≡◌, ℕ, ◌+◌, ◌≤◌, ◌<◌, ℤ, length};
ghost use Rattle.std.proofs.Math.Option.{Option};
ghost use Rattle.three_valued.specs.declared.logic.Truth.{Truth};
ghost use Rattle.three_valued.specs.Logic.{of_bool};
ghost use Rattle.truth.specs.Comparison.{Lt};
ghost use Rattle.truth.specs.Evaluate.{of_truth, comparing, same, compared_of, connected_of, between_of};
ghost use Rattle.masks.specs.Masks.{Tells, Shown};

use masks::{
    Masks, and_masks, equal_columns, inverted, less_columns, mask_equal_pairs, not_masks, or_masks,
    xor_masks,
};
use truth::value::{high_code, low_code};

/// EqValidity of two columns: null is a value like another.
fn same_columns(keys: &[u64], at: usize, nulls: u64, other: usize, others: u64) -> Masks
    requires at_in_bounds { at + 64 ≤ length keys.now }
    requires other_in_bounds { other + 64 ≤ length keys.now }
    ensures { (rows : ℕ) (value second : ℕ → Option ℤ) → Shown rows keys.now at nulls value
        → Shown rows keys.now other others second → Tells rows result (λ i. of_bool (same (value i) (second i))) }
{
    let m = mask_equal_pairs(keys, at, other);
    Masks {
        truths: (m & inverted(nulls | others)) | (nulls & others),
        unknowns: 0,
    }
}

/// The operators of codes 0 to 7, of two columns: where their keys begin, and the words of their nulls.
pub fn compare_columns(
    code: u8,
    keys: &[u64],
    at: usize,
    nulls: u64,
    other: usize,
    others: u64,
) -> Masks
    requires at_in_bounds { at + 64 ≤ length keys.now }
    requires other_in_bounds { other + 64 ≤ length keys.now }
    ensures { (rows : ℕ) (value second : ℕ → Option ℤ) → Shown rows keys.now at nulls value
        → Shown rows keys.now other others second
        → Tells rows result (λ i. compared_of code (value i) (second i)) }
{
    match code {
        0 => equal_columns(keys, at, nulls, other, others),
        1 => same_columns(keys, at, nulls, other, others),
        2 => not_masks(equal_columns(keys, at, nulls, other, others)),
        3 => not_masks(same_columns(keys, at, nulls, other, others)),
        4 => less_columns(keys, at, nulls, other, others),
        5 => not_masks(less_columns(keys, other, others, at, nulls)),
        6 => less_columns(keys, other, others, at, nulls),
        _ => not_masks(less_columns(keys, at, nulls, other, others)),
    }
}

/// The operators of codes 15 to 19.
pub fn connect_masks(code: u8, x: Masks, y: Masks) -> Masks
    ensures { (rows : ℕ) (f g : ℕ → Truth) → Tells rows x f → Tells rows y g
        → Tells rows result (λ i. connected_of code (f i) (g i)) }
{
    match code {
        15 => and_masks(x, y),
        16 => or_masks(x, y),
        17 => xor_masks(x, y),
        18 => and_masks(x, y),
        _ => or_masks(x, y),
    }
}

/// is_between of the first 64 keys, the next 64 and the last: the And of its two comparisons.
pub fn between_columns(code: u8, keys: &[u64], nulls: u64, lows: u64, highs: u64) -> Masks
    requires { 128 + 64 ≤ length keys.now }
    ensures { (rows : ℕ) (value low high : ℕ → Option ℤ) → Shown rows keys.now 0 nulls value
        → Shown rows keys.now 64 lows low → Shown rows keys.now 128 highs high
        → Tells rows result (λ i. between_of code (value i) (low i) (high i)) }
{
    let above = compare_columns(low_code(code), keys, 0, nulls, 64, lows);
    let below = compare_columns(high_code(code), keys, 0, nulls, 128, highs);
    and_masks(above, below)
}

// Lt of two truths as values: false is below true.
fn less_truths(x: Masks, y: Masks) -> Masks
    ensures { (rows : ℕ) (f g : ℕ → Truth) → Tells rows x f → Tells rows y g
        → Tells rows result (λ i. comparing Lt (of_truth (f i)) (of_truth (g i))) }
{
    let either = x.unknowns | y.unknowns;
    Masks {
        truths: (inverted(x.truths) & y.truths) & inverted(either),
        unknowns: either,
    }
}

// The operators of codes 4 to 7, of two truths.
fn compare_truths(code: u8, x: Masks, y: Masks) -> Masks
    requires { 3 < code }
    ensures { (rows : ℕ) (f g : ℕ → Truth) → Tells rows x f → Tells rows y g
        → Tells rows result (λ i. compared_of code (of_truth (f i)) (of_truth (g i))) }
{
    match code {
        4 => less_truths(x, y),
        5 => not_masks(less_truths(y, x)),
        6 => less_truths(y, x),
        _ => not_masks(less_truths(x, y)),
    }
}

/// is_between of truths: no keys are filled for them.
pub fn between_truths(code: u8, x: Masks, low: Masks, high: Masks) -> Masks
    ensures { (rows : ℕ) (f g h : ℕ → Truth) → Tells rows x f → Tells rows low g → Tells rows high h
        → Tells rows result (λ i. between_of code (of_truth (f i)) (of_truth (g i)) (of_truth (h i))) }
{
    let above = compare_truths(low_code(code), x, low);
    let below = compare_truths(high_code(code), x, high);
    and_masks(above, below)
}
