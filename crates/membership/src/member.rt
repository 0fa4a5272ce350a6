// Membership: the list rule of specs/Membership.antt. Lists are searched in place, in the pool.
ghost use Rattle.std.specs.Prelude.{◌≡◌, ◌+◌, ◌*◌, ◌≤◌, length, eqb};
ghost use Rattle.truth.specs.Halves.{key};
ghost use Rattle.truth.specs.Membership.{null_in3, known_in3};
ghost use Rattle.truth.specs.FromBytes.{values_from};
ghost use Rattle.truth.specs.Evaluate.{keyed, holds_key, member_of};

use records::bytes::value_in;
use records::record::Fields;
use three_valued::logic::Truth;
use truth::scalar::{Scalar, scalar_cmp};
use truth::value::Value;

// Whether one of `count` values of the pool, from the one numbered `start` on, equals `v`.
fn listed(pool: &[u8], start: u32, count: u32, v: Scalar) -> bool
    requires { 8 * (start + count) ≤ length pool.now }
    ensures { result ≡ holds_key (key v.0) (values_from pool.now start count) }
{
    let end = start as usize + count as usize;
    for i in start as usize..end {
        let w = Scalar(value_in(pool, i));
        if scalar_cmp(v, w).is_eq() {
            return true;
        }
    }
    false
}

// A null in a list of `count` values; `holds` says whether it also holds a null, `equal` is nulls_equal.
fn null_in(equal: bool, holds: bool, count: u32) -> Truth
    ensures { result ≡ null_in3 equal holds (eqb count 0) }
{
    if equal {
        return Truth::from(holds);
    }
    if holds | (count != 0) {
        return Truth::Unknown;
    }
    Truth::False
}

/// A value: where it is not found, a null in the list may still be it.
pub fn known_in(equal: bool, holds: bool, found: bool) -> Truth
    ensures { result ≡ known_in3 equal holds found }
{
    if found {
        return Truth::True;
    }
    if !equal & holds {
        return Truth::Unknown;
    }
    Truth::False
}

// is_in of the value `x` and the record of a list; `equal` is nulls_equal.
pub fn member(pool: &[u8], list: Fields, equal: bool, x: Value) -> Truth
    requires { 8 * (list.a + list.b) ≤ length pool.now }
    ensures { result ≡ member_of pool.now list equal (keyed x) }
{
    match x {
        None => null_in(equal, list.code == 1, list.b),
        Some(v) => known_in(equal, list.code == 1, listed(pool, list.a, list.b, v)),
    }
}
