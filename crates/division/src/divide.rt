// One division gives both: FloorDivide takes its quotient, Modulus its remainder. Numbers are 64 bits in two's complement.
ghost use Rattle.std.specs.Prelude.{◌≡◌, ◌+◌, ◌<◌};
ghost use Rattle.std.specs.Int.{w64};
ghost use Rattle.std.proofs.Common.{to_z};
ghost use Rattle.division.specs.Division.{Divides, minus_of};

// 2^64 - x: the number -x of a negative x, and the bits of -x.
fn magnitude(x: u64) -> u64
    requires { 0 < x }
    ensures { result + x ≡ 18446744073709551616 }
{
    18446744073709551615 - x + 1
}

fn negated(x: u64) -> u64
    ensures { result ≡ minus_of x }
{
    if x == 0 {
        return 0;
    }
    magnitude(x)
}

// Quotient and remainder: none for a zero divisor, and for a quotient beyond 64 bits.
// Where divisor and quotient differ in sign the dividend is taken as n below zero, -n - 1, so that its quotient,
// -(n / size) - 1, is rounded down.
pub fn divide(a: u64, b: u64) -> Option<(u64, u64)>
    ensures { Divides (to_z w64 a) (to_z w64 b) result }
{
    if b == 0 {
        return None;
    }
    if b < 9223372036854775808 {
        if a < 9223372036854775808 {
            return Some((a / b, a % b));
        }
        let n = 18446744073709551615 - a;
        return Some((18446744073709551615 - n / b, b - 1 - n % b));
    }
    let size = magnitude(b);
    if a == 0 {
        return Some((0, 0));
    }
    if a < 9223372036854775808 {
        let n = a - 1;
        return Some((
            18446744073709551615 - n / size,
            negated(size - 1 - n % size),
        ));
    }
    let n = magnitude(a);
    if n / size == 9223372036854775808 {
        return None;
    }
    Some((n / size, negated(n % size)))
}
