// One reason's line of text. t is the column table, `text` the text pool.
ghost use Rattle.std.specs.Prelude.{◌≡◌, List, ℕ, ◌+◌, ◌≤◌, length};
ghost use Rattle.merge.specs.Reasons.{shown_in};
ghost use Rattle.merge.specs.Write.{splice};
ghost use Rattle.reasons.specs.Reason.{reason_in};
ghost use Rattle.reasons.specs.Text.{reason_text};

use crate::operator::{operator_length, write_operator};
use crate::value::{value_length, write_value};
use decimals::{decimal_length, write_number};
use read_operands::operands::Comparison;
use records::record::Column;
use truth::scalar::Scalar;

/// How many bytes the line has, whatever text pool is lent.
pub fn reason_length(
    t: &[u8],
    column: Column,
    operator: Comparison,
    value: Scalar,
    line: u64,
) -> usize
    ensures by_index { (text : List ℕ) →
        result ≡ length (reason_text (reason_in (shown_in t.now text) column.0 operator value.0 line)) }
    ensures upper_bound { result ≤ 8589934640 }
{
    let a = decimal_length(column.0 as u64);
    let b = operator_length(operator);
    let c = value_length(t, column, value);
    let d = decimal_length(line);
    a + b + c + d + 4
}

/// The line from `at` on; the place behind. Bytes behind it keep their values.
pub fn write_reason(
    buffer: &mut [u8],
    at: usize,
    t: &[u8],
    text: &[u8],
    column: Column,
    operator: Comparison,
    value: Scalar,
    line: u64,
) -> usize
    requires { at + length (reason_text (reason_in (shown_in t.now text.now) column.0 operator value.0 line))
        ≤ length buffer.old }
    ensures value { result ≡ at + length (reason_text (reason_in (shown_in t.now text.now) column.0 operator
        value.0 line)) }
    ensures buffer_after { buffer.new ≡ splice buffer.old at
        (reason_text (reason_in (shown_in t.now text.now) column.0 operator value.0 line)) }
{
    let b = write_number(buffer, at, column.0 as u64, b' ');
    let c = write_operator(buffer, b, operator);
    let d = write_value(buffer, c, t, text, column, value, b' ');
    write_number(buffer, d, line, 10)
}
