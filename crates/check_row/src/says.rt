// What a line says of its column, on the column's place. Null meets a line only where a null test, or a list that keeps nulls,
// makes it true; all else is unknown, or false.
ghost use Rattle.std.specs.Prelude.{◌≡◌, List, ℕ};
ghost use Rattle.std.proofs.Math.Option.{none, some};
ghost use Rattle.truth.specs.Comparison.{comparison_holds};
ghost use Rattle.truth.specs.Evaluate.{holds_key};
ghost use Rattle.truth.specs.FromBytes.{values_from, closes_low, closes_high};
ghost use Rattle.constraints.proofs.Columns.{null_fits, value_fits};
ghost use Rattle.read_operands.specs.Read.{comparison_in, says_in};
ghost use Rattle.places.specs.Held.{key_in, place_in};
ghost use Rattle.check_row.specs.Line.{meets_all, same_keys, within_ends};

use constraints::column::Nullability;
use places::compare::{place_cmp, same_place};
use places::place::{Half, Place};
use read_operands::operands::{Comparison, Says};
use records::bytes::value_at;
use records::record::ClosedInterval;
use std::cmp::Ordering;
use truth::scalar::Scalar;

#[tactic(auto, using(truth::proofs::Comparisons::is_ne_lem, truth::proofs::Comparisons::is_le_lem, truth::proofs::Comparisons::is_ge_lem))]
fn compare_holds(k: Comparison, o: Ordering) -> bool
    ensures { result ≡ comparison_holds (comparison_in k) o }
{
    match k {
        Comparison::Eq => o.is_eq(),
        Comparison::NotEq => o.is_ne(),
        Comparison::Lt => o.is_lt(),
        Comparison::LtEq => o.is_le(),
        Comparison::Gt => o.is_gt(),
        Comparison::GtEq => o.is_ge(),
    }
}

// Left closes the low end only, Right the high end only.
fn within_ends(ends: ClosedInterval, low: Ordering, high: Ordering) -> bool
    ensures { result ≡ within_ends (closes_low ends) (closes_high ends) low high }
{
    match ends {
        ClosedInterval::Both => low.is_ge() & high.is_le(),
        ClosedInterval::Left => low.is_ge() & high.is_lt(),
        ClosedInterval::Right => low.is_gt() & high.is_le(),
        ClosedInterval::None => low.is_gt() & high.is_lt(),
    }
}

fn null_fits(must: Nullability) -> bool
    ensures { result ≡ null_fits must }
{
    !matches!(must, Nullability::NonNull)
}

fn value_fits(must: Nullability) -> bool
    ensures { result ≡ value_fits must }
{
    !matches!(must, Nullability::Null)
}

// Whether one of `count` values of the pool, from the one numbered `start` on, is the place's value.
fn place_listed(p: &[u8], start: u32, count: u32, whole: Scalar, half: Half) -> bool
    ensures { result ≡ holds_key (key_in whole.0 half) (values_from p.now start count) }
{
    let end = start as usize + count as usize;
    for i in start as usize..end {
        let w = Scalar(value_at(p, i));
        if place_cmp(whole, half, w).is_eq() {
            return true;
        }
    }
    false
}

// A negated list that keeps nulls is not strict; an empty one lets every value pass, null too.
fn null_meets(s: Says) -> bool
    ensures { (p : List ℕ) → result ≡ meets_all (says_in p s) none }
{
    match s {
        Says::Nothing => true,
        Says::Compare(_, _) => false,
        Says::Between(_, _, _) => false,
        Says::Allow(_, _) => false,
        Says::Disallow(strict, _, count) => !strict | (count == 0),
        Says::Require(must) => null_fits(must),
    }
}

fn value_meets(p: &[u8], s: Says, whole: Scalar, half: Half) -> bool
    ensures { result ≡ meets_all (says_in p.now s) (some (key_in whole.0 half)) }
{
    match s {
        Says::Nothing => true,
        Says::Compare(k, v) => compare_holds(k, place_cmp(whole, half, v)),
        Says::Between(ends, low, high) => within_ends(
            ends,
            place_cmp(whole, half, low),
            place_cmp(whole, half, high),
        ),
        Says::Allow(start, count) => place_listed(p, start, count, whole, half),
        Says::Disallow(_, start, count) => !place_listed(p, start, count, whole, half),
        Says::Require(must) => value_fits(must),
    }
}

/// Whether the place meets what is said of its column.
pub fn meets(p: &[u8], s: Says, x: Place) -> bool
    ensures { result ≡ meets_all (says_in p.now s) (place_in x) }
{
    match x {
        None => null_meets(s),
        Some((whole, half)) => value_meets(p, s, whole, half),
    }
}

/// Whether two places have one value; a null has none.
pub fn same_value(x: Place, y: Place) -> bool
    ensures { result ≡ same_keys (place_in x) (place_in y) }
{
    match (x, y) {
        (Some((whole, half)), Some((other, part))) => same_place(whole, half, other, part),
        _ => false,
    }
}
