// The bytes of a checked screen. Checking has shown that what is read here is there, so nothing is tested again.
ghost use Rattle.std.specs.Prelude.{◌≡◌, ◌<◌};
ghost use Rattle.truth.specs.FromBytes.{null_marked, row_keys};
ghost use Rattle.truth.specs.Evaluate.{keyed, leaf_of, ColumnThere};

use crate::scalar::Scalar;
use crate::value::Value;
use records::bytes::value_in;
use records::record::{Column, Fields};

pub fn null_marked(nulls: u64, c: u32) -> bool
    requires { c < 64 }
    ensures { result ≡ null_marked nulls c }
{
    (nulls >> c) % 2 == 1
}

pub fn column_value(row: &[u8], nulls: u64, c: Column) -> Value
    requires { ColumnThere row.now c.0 }
    ensures { keyed result ≡ row_keys row.now nulls c.0 }
{
    if null_marked(nulls, c.0) {
        return None;
    }
    Some(Scalar(value_in(row, c.0 as usize)))
}

// The value of a column, a literal or a null; every other kind has none of its own.
pub fn leaf_value(f: Fields, row: &[u8], nulls: u64) -> Value
    requires { f.kind ≡ 1 → ColumnThere row.now f.a }
    ensures { keyed result ≡ leaf_of (row_keys row.now nulls) f }
{
    if f.kind == 1 {
        return column_value(row, nulls, Column(f.a));
    }
    if f.kind == 2 {
        return Some(Scalar(f.b as u64 + 4294967296 * f.c as u64));
    }
    None
}
