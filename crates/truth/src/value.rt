// Values, null among them, and what comparing them says.
ghost use Rattle.std.specs.Prelude.{◌≡◌};
ghost use Rattle.std.proofs.Math.Option.{some};
ghost use Rattle.truth.specs.Halves.{key};
ghost use Rattle.truth.specs.Comparison.{comparison_holds};
ghost use Rattle.truth.specs.Evaluate.{keyed, comparing, same, null_test, of_truth, to_truth};
ghost use Rattle.truth.specs.Evaluate.{comparison_at, compared_of, part_of, divided_of, connected_of, low_code, high_code};
ghost use Rattle.truth.specs.Evaluate.{between_of};

use crate::scalar::{Scalar, scalar_cmp};
use division::divide::divide;
use std::cmp::Ordering;
use three_valued::logic::{Truth, and_of, or_of, xor_of};

/// None is null.
pub type Value = Option<Scalar>;

// The six ordinary comparisons, by the operator's code: 0 Eq, 2 NotEq, 4 Lt, 5 LtEq, 6 Gt, 7 GtEq.
fn holds(code: u8, o: Ordering) -> bool
    ensures { result ≡ comparison_holds (comparison_at code) o }
{
    match code {
        0 => o.is_eq(),
        2 => o.is_ne(),
        4 => o.is_lt(),
        5 => o.is_le(),
        6 => o.is_gt(),
        _ => o.is_ge(),
    }
}

// A comparison with null is unknown.
fn compare_values(code: u8, x: Value, y: Value) -> Truth
    ensures { result ≡ comparing (comparison_at code) (keyed x) (keyed y) }
{
    match (x, y) {
        (Some(a), Some(b)) => Truth::from(holds(code, scalar_cmp(a, b))),
        _ => Truth::Unknown,
    }
}

// EqValidity: null is a value like another.
fn same_values(x: Value, y: Value) -> bool
    ensures { result ≡ same (keyed x) (keyed y) }
{
    x == y
}

// The operators of codes 0 to 7.
pub fn compared(code: u8, x: Value, y: Value) -> Truth
    ensures { result ≡ compared_of code (keyed x) (keyed y) }
{
    if code == 1 {
        return Truth::from(same_values(x, y));
    }
    if code == 3 {
        return Truth::from(!same_values(x, y));
    }
    compare_values(code, x, y)
}

// Of one division FloorDivide, code 13, takes the quotient, Modulus the remainder.
fn part_of(code: u8, d: Option<(u64, u64)>) -> Value
    ensures { keyed result ≡ part_of code d }
{
    let (quotient, remainder) = d?;
    Some(Scalar(if code == 13 { quotient } else { remainder }))
}

fn divide_known(code: u8, a: Scalar, b: Scalar) -> Value
    ensures { keyed result ≡ divided_of code (some (key a.0)) (some (key b.0)) }
{
    part_of(code, divide(a.0, b.0))
}

// The operators of codes 13 and 14. A null on either side gives null.
#[tactic(auto, unfolding(crate::specs::Evaluate::divided_of))]
pub fn divided(code: u8, x: Value, y: Value) -> Value
    ensures { keyed result ≡ divided_of code (keyed x) (keyed y) }
{
    divide_known(code, x?, y?)
}

// The operators of codes 15 to 19.
pub fn connected(code: u8, a: Truth, b: Truth) -> Truth
    ensures { result ≡ connected_of code a b }
{
    match code {
        15 => and_of(a, b),
        16 => or_of(a, b),
        17 => xor_of(a, b),
        18 => and_of(a, b),
        _ => or_of(a, b),
    }
}

// is_between by its code: 0 closes both ends, 1 the low one, 2 the high one, 3 none.
pub fn between(code: u8, x: Value, low: Value, high: Value) -> Truth
    ensures { result ≡ between_of code (keyed x) (keyed low) (keyed high) }
{
    let above = compare_values(low_code(code), x, low);
    let below = compare_values(high_code(code), x, high);
    and_of(above, below)
}

/// The comparison with the lower end, of is_between's code.
pub fn low_code(code: u8) -> u8
    ensures { result ≡ low_code code }
{
    if code <= 1 { 7 } else { 6 }
}

/// The comparison with the upper end.
pub fn high_code(code: u8) -> u8
    ensures { result ≡ high_code code }
{
    if (code == 0) | (code == 2) { 5 } else { 4 }
}

pub fn is_null(x: Value) -> bool
    ensures { result ≡ null_test (keyed x) }
{
    x.is_none()
}

// A truth as a value: unknown is null, false is below true.
pub fn value_of_truth(t: Truth) -> Value
    ensures { keyed result ≡ of_truth t }
{
    match t {
        Truth::False => Some(Scalar(0)),
        Truth::Unknown => None,
        Truth::True => Some(Scalar(1)),
    }
}

pub fn truth_of_value(x: Value) -> Truth
    ensures { result ≡ to_truth (keyed x) }
{
    match x {
        None => Truth::Unknown,
        Some(v) => Truth::from(scalar_cmp(v, Scalar(1)).is_eq()),
    }
}
