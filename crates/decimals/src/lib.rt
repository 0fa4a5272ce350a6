// Numbers as decimal digits, each with the byte that closes its word.
#![tactic(auto)]

ghost use Rattle.std.specs.Prelude.{◌≡◌, [], ◌∷◌, ◌++◌, ◌+◌, ◌≤◌, length};
ghost use Rattle.std.specs.Int.{w64};
ghost use Rattle.std.proofs.Common.{to_z};
ghost use Rattle.merge.specs.Write.{splice};
ghost use Rattle.decimals.specs.Decimal.{last_digit, decimal, signed};

use truth::scalar::Scalar;

/// How many digits n has.
pub fn decimal_length(n: u64) -> usize
    ensures value { result ≡ length (decimal n) }
    ensures upper_bound { result ≤ 20 }
{
    let mut rest = n;
    let mut count: usize = 1;
    // A digit a turn: how many there are is what is looked for.
    while rest >= 10 {
        rest = rest / 10;
        count += 1;
    }
    count
}

fn last_digit(n: u64) -> u8
    ensures { result ≡ last_digit n }
{
    48 + (n % 10) as u8
}

// The digits of n from `at` to `end`, the last one first.
fn write_digits(s: &mut [u8], at: usize, end: usize, n: u64)
    requires end_value { end ≡ at + length (decimal n) }
    requires end_in_bounds { end ≤ length s.old }
    ensures { s.new ≡ splice s.old at (decimal n) }
{
    let mut rest = n;
    let mut i = end;
    // A digit a turn, as long as there are two.
    while rest >= 10 {
        i -= 1;
        s[i] = last_digit(rest);
        rest = rest / 10;
    }
    s[at] = last_digit(rest);
}

/// One byte.
pub fn put_byte(s: &mut [u8], at: usize, b: u8)
    requires { at + 1 ≤ length s.old }
    ensures { s.new ≡ splice s.old at (b ∷ []) }
{
    s[at] = b;
}

/// n from `at` on, and the byte that closes it; the place behind.
pub fn write_number(s: &mut [u8], at: usize, n: u64, close: u8) -> usize
    requires { at + length (decimal n) + 1 ≤ length s.old }
    ensures value { result ≡ at + length (decimal n) + 1 }
    ensures s_after { s.new ≡ splice s.old at (decimal n ++ (close ∷ [])) }
{
    let end = at + decimal_length(n);
    write_digits(s, at, end, n);
    put_byte(s, end, close);
    end + 1
}

// Without its minus, a value from 2 ^ 63 up, which stands for itself less 2 ^ 64.
fn without_minus(v: u64) -> u64
    requires { 9223372036854775808 ≤ v }
    ensures { result + v ≡ 18446744073709551616 }
{
    18446744073709551615 - v + 1
}

/// How many bytes a value has: a minus counts.
pub fn signed_length(v: Scalar) -> usize
    ensures value { result ≡ length (signed (to_z w64 v.0)) }
    ensures upper_bound { result ≤ 20 }
{
    if v.0 < 9223372036854775808 {
        return decimal_length(v.0);
    }
    1 + decimal_length(without_minus(v.0))
}

/// A value from `at` on, and the byte that closes it; the place behind.
pub fn write_signed(s: &mut [u8], at: usize, v: Scalar, close: u8) -> usize
    requires { at + length (signed (to_z w64 v.0)) + 1 ≤ length s.old }
    ensures value { result ≡ at + length (signed (to_z w64 v.0)) + 1 }
    ensures s_after { s.new ≡ splice s.old at (signed (to_z w64 v.0) ++ (close ∷ [])) }
{
    if v.0 < 9223372036854775808 {
        return write_number(s, at, v.0, close);
    }
    put_byte(s, at, b'-');
    write_number(s, at + 1, without_minus(v.0), close)
}
