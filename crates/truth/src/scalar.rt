// A value of a screen is 64 bits in two's complement, whatever its type.
// All orders of values go through `scalar_cmp`.
ghost use Rattle.std.specs.Prelude.{◌≡◌};
ghost use Rattle.truth.specs.Order.{Order};
ghost use Rattle.truth.specs.Halves.{ord_z, key, bias_of};

use std::cmp::Ordering;

/// The raw bits of a value.
#[derive(Clone, Copy, PartialEq, Eq)]
pub struct Scalar(pub u64);

/// The bits moved so that their order is the order of the signed numbers.
pub fn biased(x: u64) -> u64
    ensures { result ≡ bias_of x }
{
    if x < 9223372036854775808 {
        return x + 9223372036854775808;
    }
    x - 9223372036854775808
}

#[tactic(auto, using(crate::proofs::Keys::cmp_biased))]
pub fn scalar_cmp(a: Scalar, b: Scalar) -> Ordering
    ensures { result ≡ ord_z.cmp (key a.0) (key b.0) }
{
    biased(a.0).cmp(&biased(b.0))
}
