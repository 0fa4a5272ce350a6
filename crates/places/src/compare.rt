// A place beside a literal, and beside another place.
ghost use Rattle.std.specs.Prelude.{◌≡◌};
ghost use Rattle.truth.specs.Order.{Order, is_equal};
ghost use Rattle.truth.specs.Halves.{ord_z, key};
ghost use Rattle.places.specs.Held.{key_in, half_order, is_next};

use crate::place::Half;
use std::cmp::Ordering;
use truth::scalar::{Scalar, scalar_cmp};

fn half_cmp(half: Half) -> Ordering
    ensures { result ≡ half_order half }
{
    match half {
        Half::Minus => Ordering::Less,
        Half::Zero => Ordering::Equal,
        Half::Plus => Ordering::Greater,
    }
}

/// A place beside the literal v: whole parts first, then the half against 0.
pub fn place_cmp(whole: Scalar, half: Half, v: Scalar) -> Ordering
    ensures { result ≡ ord_z.cmp (key_in whole.0 half) (key v.0) }
{
    scalar_cmp(whole, v).then(half_cmp(half))
}

// The bits of -1 are all ones, and 0 comes after it.
fn is_next(w: u64, v: u64) -> bool
    ensures { result ≡ is_next w v }
{
    if w == 9223372036854775807 {
        return false;
    }
    if w == 18446744073709551615 {
        return v == 0;
    }
    v == w + 1
}

/// Whether two places have one value: the parts are equal, or one is (w, +1) and the other (w + 1, -1).
pub fn same_place(whole: Scalar, half: Half, other: Scalar, part: Half) -> bool
    ensures { result ≡ is_equal (ord_z.cmp (key_in whole.0 half) (key_in other.0 part)) }
{
    match half {
        Half::Minus => match part {
            Half::Minus => whole.0 == other.0,
            Half::Zero => false,
            Half::Plus => is_next(other.0, whole.0),
        },
        Half::Zero => match part {
            Half::Minus => false,
            Half::Zero => whole.0 == other.0,
            Half::Plus => false,
        },
        Half::Plus => match part {
            Half::Minus => is_next(whole.0, other.0),
            Half::Zero => false,
            Half::Plus => whole.0 == other.0,
        },
    }
}
