// The value of a reason: its column's type tells a number from a symbol.
ghost use Rattle.std.specs.Prelude.{◌≡◌, List, [], ◌∷◌, ◌++◌, ℕ, ◌+◌, ◌≤◌, eqb, length, get_or};
ghost use Rattle.merge.specs.Reasons.{shown_in};
ghost use Rattle.merge.specs.Write.{splice};
ghost use Rattle.reasons.specs.Text.{value_text};

use decimals::{signed_length, write_signed};
use records::record::Column;
use symbol_text::{symbol_length, write_symbol};
use truth::scalar::Scalar;

fn is_text(t: &[u8], column: Column) -> bool
    ensures { result ≡ eqb (get_or t.now column.0 0) 4 }
{
    let c = column.0 as usize;
    if c < t.len() {
        return t[c] == 4;
    }
    false
}

/// How many bytes the value has, whatever text pool is lent.
pub fn value_length(t: &[u8], column: Column, v: Scalar) -> usize
    ensures by_index { (text : List ℕ) → result ≡ length (value_text (shown_in t.now text column.0 v.0)) }
    ensures upper_bound { result ≤ 8589934591 }
{
    if is_text(t, column) {
        return symbol_length(v);
    }
    signed_length(v)
}

/// The value from `at` on, and the byte that closes it; the place behind.
pub fn write_value(
    buffer: &mut [u8],
    at: usize,
    t: &[u8],
    text: &[u8],
    column: Column,
    v: Scalar,
    close: u8,
) -> usize
    requires { at + length (value_text (shown_in t.now text.now column.0 v.0)) + 1 ≤ length buffer.old }
    ensures value { result ≡ at + length (value_text (shown_in t.now text.now column.0 v.0)) + 1 }
    ensures buffer_after { buffer.new ≡ splice buffer.old at
        (value_text (shown_in t.now text.now column.0 v.0) ++ (close ∷ [])) }
{
    if is_text(t, column) {
        return write_symbol(buffer, at, text, v, close);
    }
    write_signed(buffer, at, v, close)
}
