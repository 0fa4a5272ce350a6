// A column's place: 16 bytes, the whole part and then the half part.
ghost use Rattle.std.specs.Prelude.{◌≡◌, true, ◌<◌};
ghost use Rattle.std.specs.Int.{w64};
ghost use Rattle.std.proofs.Common.{to_z};
ghost use Rattle.places.specs.Places.{is_half, places_row};
ghost use Rattle.places.specs.Held.{half_in, place_in, Halved};

use records::bytes::value_at;
use records::record::Column;
use truth::read::null_marked;
use truth::scalar::Scalar;

/// The half part: -1, 0 or +1.
#[derive(Clone, Copy)]
pub enum Half {
    Minus,
    Zero,
    Plus,
}

/// The whole part and the half part; None is null.
pub type Place = Option<(Scalar, Half)>;

fn half_of(bits: u64) -> Half
    ensures { is_half bits ≡ true → half_in result ≡ to_z w64 bits }
{
    if bits == 0 {
        return Half::Zero;
    }
    if bits == 1 {
        return Half::Plus;
    }
    Half::Minus
}

/// The place of column c in a row that has no other half parts.
pub fn place_at(row: &[u8], nulls: u64, c: Column) -> Place
    requires { (c.0 < 64) × Halved row.now nulls }
    ensures { place_in result ≡ places_row row.now nulls c.0 }
{
    if null_marked(nulls, c.0) {
        return None;
    }
    let whole = value_at(row, 2 * (c.0 as usize));
    let half = value_at(row, 2 * (c.0 as usize) + 1);
    Some((Scalar(whole), half_of(half)))
}
