// The place of a resolved column that is not null: the smallest possible value of its allowed list, or what its bounds say.
// The column's numbers of conjuncts stand in `marks`; the tables are those of the conjuncts, as in `columns`.
ghost use Rattle.std.specs.Prelude.{◌≡◌, List, ℕ};
ghost use Rattle.std.proofs.Math.Option.{none};
ghost use Rattle.constraints.specs.Lined.{lined};
ghost use Rattle.constraints.specs.Payload.{payload};
ghost use Rattle.constraints.specs.Resolve.{is_feasible};
ghost use Rattle.column_constraints.specs.Abstraction.{Conjuncts, conjuncts, numbered, column_of, bound_of, list_of};
ghost use Rattle.column_constraints.specs.Abstraction.{starts_in, counts_in};
ghost use Rattle.row_shown.specs.Shown as shown;
ghost use Rattle.row_shown.specs.Bits.{bits_column, bits_bound, smallest_of};

use column_constraints::bound::{Bound, clears_lower, clears_upper};
use column_constraints::column::ColumnConstraints;
use column_sets::marks::{allows, disallows, excludes};
use column_sets::told::{count_at, kind_at, start_at};
use records::bytes::{byte, value_at};
use resolve_deferred::resolve::fixed_value;
use std::cmp::Ordering;
use truth::scalar::{Scalar, scalar_cmp};

/// A whole part and a half part, 64 bits each in two's complement.
#[derive(Clone, Copy)]
pub struct Place {
    pub whole: u64,
    pub half: u64,
}

/// The smallest value found so far, if one is found.
#[derive(Clone, Copy)]
pub struct Smallest {
    pub found: bool,
    pub value: u64,
}

fn exactly(v: u64) -> Place
    ensures { result ≡ shown.exactly v }
{
    Place { whole: v, half: 0 }
}

fn plus_half(v: u64) -> Place
    ensures { result ≡ shown.plus_half v }
{
    Place { whole: v, half: 1 }
}

fn minus_half(v: u64) -> Place
    ensures { result ≡ shown.minus_half v }
{
    Place {
        whole: v,
        half: 18446744073709551615,
    }
}

/// A null column's place.
pub fn null_place() -> Place
    ensures { result ≡ shown.exactly 0 }
{
    exactly(0)
}

// ---- The bounds.

fn upper_place(u: Bound) -> Place
    ensures { result ≡ shown.upper_place (bits_bound (bound_of u)) }
{
    match u {
        Bound::Absent => plus_half(0),
        Bound::Open(v) => minus_half(v.value.0),
        Bound::Closed(v) => minus_half(v.value.0),
    }
}

fn lower_place(l: Bound, u: Bound) -> Place
    ensures { result ≡ shown.lower_place (bits_bound (bound_of l)) (bits_bound (bound_of u)) }
{
    match l {
        Bound::Absent => upper_place(u),
        Bound::Open(v) => plus_half(v.value.0),
        Bound::Closed(v) => plus_half(v.value.0),
    }
}

/// Without a list: the fixed value, else the lower bound plus a half, else the upper minus a half, else 0 plus a half.
fn fixed_place(c: ColumnConstraints) -> Place
    ensures { (t : Conjuncts) (a : List ℕ) → result ≡ shown.place_by none (bits_column (column_of t (numbered a c))) }
{
    match fixed_value(c) {
        None => lower_place(c.lower, c.upper),
        Some(v) => exactly(v.value.0),
    }
}

// ---- The list.

fn lesser_by(o: Ordering, v: u64, w: u64) -> u64
    ensures { result ≡ shown.lesser_by o v w }
{
    if o.is_le() { v } else { w }
}

fn smaller(possible: bool, v: Scalar, s: Smallest) -> Smallest
    ensures { smallest_of result ≡ shown.smaller possible v.0 (smallest_of s) }
{
    if !possible {
        return s;
    }
    if !s.found {
        return Smallest {
            found: true,
            value: v.0,
        };
    }
    let o = scalar_cmp(v, Scalar(s.value));
    Smallest {
        found: true,
        value: lesser_by(o, v.0, s.value),
    }
}

/// Does v survive the bounds and the three sets.
fn is_possible(told: &[u64], pool: &[u8], marks: &[u8], c: ColumnConstraints, v: Scalar) -> bool
    ensures { result ≡ is_feasible lined (column_of (conjuncts told.now pool.now) (numbered marks.now c))
        (payload.key v.0) }
{
    let low = c.lower;
    if !clears_lower(low, v) {
        return false;
    }
    let upp = c.upper;
    if !clears_upper(upp, v) {
        return false;
    }
    if excludes(told, marks, c.len, v) {
        return false;
    }
    if !allows(told, pool, marks, c.len, v) {
        return false;
    }
    !disallows(told, pool, marks, c.len, v)
}

/// The smallest possible value of the list of conjunct f, from its end on.
fn smallest_listed(told: &[u64], pool: &[u8], marks: &[u8], c: ColumnConstraints, f: u8) -> Smallest
    ensures { smallest_of result ≡ shown.smallest (is_feasible lined (column_of (conjuncts told.now pool.now)
        (numbered marks.now c))) (list_of (starts_in told.now) (counts_in told.now) pool.now f) }
{
    let s = start_at(told, f as usize) as usize;
    let m = count_at(told, f as usize) as usize;
    let mut best = Smallest {
        found: false,
        value: 0,
    };
    for i in (0..m).rev() {
        let v = Scalar(value_at(pool, s + i));
        let possible = is_possible(told, pool, marks, c, v);
        best = smaller(possible, v, best);
    }
    best
}

fn list_place(s: Smallest) -> Place
    ensures { result ≡ shown.list_place (smallest_of s) }
{
    if !s.found {
        return plus_half(0);
    }
    exactly(s.value)
}

/// The place of a resolved column that is not null. Of several allowed lists the first is walked: a possible value is
/// in all.
pub fn value_place(told: &[u64], pool: &[u8], marks: &[u8], c: ColumnConstraints) -> Place
    ensures { result ≡ shown.value_place (bits_column (column_of (conjuncts told.now pool.now)
        (numbered marks.now c))) }
{
    let n = c.len;
    for i in 0..n {
        let f = byte(marks, i);
        if kind_at(told, f as usize) == 1 {
            let s = smallest_listed(told, pool, marks, c, f);
            return list_place(s);
        }
    }
    fixed_place(c)
}
