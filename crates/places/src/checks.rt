// What number 18 asks of a row. Every column is looked at, whether the screen reads it or not.
ghost use Rattle.std.specs.Prelude.{◌≡◌, ℕ, ◌≤◌};
ghost use Rattle.records.specs.Bytes.{all};
ghost use Rattle.truth.specs.FromBytes.{null_marked};
ghost use Rattle.places.specs.Places.{whole_at, half_at, is_half, place_ok, places_ok};

use records::bytes::value_at;
use row_test::row::marks_ok;
use truth::read::null_marked;

fn is_half(half: u64) -> bool
    ensures { result ≡ is_half half }
{
    (half == 0) | ((half == 1) | (half == 18446744073709551615))
}

fn place_ok(null: bool, whole: u64, half: u64) -> bool
    ensures { result ≡ place_ok null whole half }
{
    if null {
        return (whole == 0) & (half == 0);
    }
    is_half(half)
}

fn each_ok(columns: usize, row: &[u8], nulls: u64) -> bool
    requires { columns ≤ 64 }
    ensures { result ≡ all (λ (c : ℕ). place_ok (null_marked nulls c) (whole_at row.now c)
        (half_at row.now c)) columns }
{
    for c in 0..columns {
        let null = null_marked(nulls, c as u32);
        if !place_ok(null, value_at(row, 2 * c), value_at(row, 2 * c + 1)) {
            return false;
        }
    }
    true
}

/// Whether the row is one of `columns` places: not so, it is refused with 18.
pub fn places_ok(columns: usize, row: &[u8], nulls: u64) -> bool
    requires { columns ≤ 64 }
    ensures { result ≡ places_ok columns row.now nulls }
{
    if row.len() != 16 * columns {
        return false;
    }
    if !marks_ok(columns, nulls) {
        return false;
    }
    each_ok(columns, row, nulls)
}
