// One side of a column's range. Every comparison of values goes through `compare`.
ghost use Rattle.std.specs.Prelude.{◌≡◌, true, false};
ghost use Rattle.truth.specs.Order.{above, is_equal};
ghost use Rattle.constraints.specs.Scalars.{opposite, scalar_cmp};
ghost use Rattle.constraints.specs.Bound.{at, is_absent, tightened, opened_by, tighten_by, tighten, is_change};
ghost use Rattle.constraints.specs.Bound.{crosses_by, crosses, clears};
ghost use Rattle.constraints.specs.Payload.{payload};
ghost use Rattle.constraints.specs.Lined.{lined};
ghost use Rattle.column_constraints.specs.Abstraction.{limit_of, bound_of, tightened_of};
ghost use Rattle.constraints.specs.declared.column.BoundChange.TheVariants.{NewValue};

use constraints::column::BoundChange;
use std::cmp::Ordering;
use truth::scalar::{Scalar, scalar_cmp};

/// A value with the number of the conjunct that gave it. `opener` is 0, or one more than the number of the conjunct whose
/// excluded value opened the bound.
#[derive(Clone, Copy)]
pub struct Limit {
    pub value: Scalar,
    pub line: u8,
    pub opener: u32,
}

/// `Closed` is `>=` or `<=`, `Open` is `>` or `<`.
#[derive(Clone, Copy)]
pub enum Bound {
    Absent,
    Open(Limit),
    Closed(Limit),
}

/// A bound, and what became of it.
#[derive(Clone, Copy)]
pub struct Tightened {
    pub bound: Bound,
    pub change: BoundChange,
}

pub fn compare(v: Limit, w: Limit) -> Ordering
    ensures { result ≡ scalar_cmp lined (limit_of v) (limit_of w) }
{
    scalar_cmp(v.value, w.value)
}

pub fn same(v: Scalar, w: Scalar) -> bool
    ensures { result ≡ is_equal (scalar_cmp payload v.0 w.0) }
{
    scalar_cmp(v, w).is_eq()
}

fn bound_at(v: Limit, inclusive: bool) -> Bound
    ensures { bound_of result ≡ at inclusive (limit_of v) }
{
    if inclusive {
        return Bound::Closed(v);
    }
    Bound::Open(v)
}

fn new_value(v: Limit, inclusive: bool) -> Tightened
    ensures { tightened_of result ≡ tightened (at inclusive (limit_of v)) NewValue }
{
    Tightened {
        bound: bound_at(v, inclusive),
        change: BoundChange::NewValue,
    }
}

fn opened_by(held: bool, inclusive: bool) -> BoundChange
    ensures { result ≡ opened_by held inclusive }
{
    if held & !inclusive {
        return BoundChange::NewlyOpen;
    }
    BoundChange::NoChange
}

// `Greater` says that the new value is the tighter one. Of two equal ones the held stays, closed only if both are.
fn tighten(o: Ordering, held: bool, w: Limit, inclusive: bool, v: Limit) -> Tightened
    ensures { tightened_of result ≡ tighten_by o held (limit_of w) inclusive (limit_of v) }
{
    match o {
        Ordering::Greater => new_value(v, inclusive),
        Ordering::Equal => Tightened {
            bound: bound_at(w, inclusive & held),
            change: opened_by(held, inclusive),
        },
        Ordering::Less => Tightened {
            bound: bound_at(w, held),
            change: BoundChange::NoChange,
        },
    }
}

pub fn tighten_lower(held: Bound, v: Limit, inclusive: bool) -> Tightened
    ensures { tightened_of result ≡ tighten lined (bound_of held) inclusive (limit_of v) }
{
    match held {
        Bound::Absent => new_value(v, inclusive),
        Bound::Open(w) => {
            let o = compare(v, w);
            tighten(o, false, w, inclusive, v)
        }
        Bound::Closed(w) => {
            let o = compare(v, w);
            tighten(o, true, w, inclusive, v)
        }
    }
}

pub fn tighten_upper(held: Bound, v: Limit, inclusive: bool) -> Tightened
    ensures { tightened_of result ≡ tighten (opposite lined) (bound_of held) inclusive (limit_of v) }
{
    match held {
        Bound::Absent => new_value(v, inclusive),
        Bound::Open(w) => {
            let o = compare(w, v);
            tighten(o, false, w, inclusive, v)
        }
        Bound::Closed(w) => {
            let o = compare(w, v);
            tighten(o, true, w, inclusive, v)
        }
    }
}

/// Both kinds of move are a change.
pub fn is_change(k: BoundChange) -> bool
    ensures { result ≡ is_change k }
{
    !matches!(k, BoundChange::NoChange)
}

fn crosses_by(o: Ordering, c: bool, d: bool) -> bool
    ensures { result ≡ crosses_by o c d }
{
    match o {
        Ordering::Less => false,
        Ordering::Equal => !(c & d),
        Ordering::Greater => true,
    }
}

fn crosses_at(c: bool, v: Limit, u: Bound) -> bool
    ensures { result ≡ crosses lined (at c (limit_of v)) (bound_of u) }
{
    match u {
        Bound::Absent => false,
        Bound::Open(w) => {
            let o = compare(v, w);
            crosses_by(o, c, false)
        }
        Bound::Closed(w) => {
            let o = compare(v, w);
            crosses_by(o, c, true)
        }
    }
}

/// Whether no value lies between the two.
pub fn crosses(l: Bound, u: Bound) -> bool
    ensures { result ≡ crosses lined (bound_of l) (bound_of u) }
{
    match l {
        Bound::Absent => false,
        Bound::Open(v) => crosses_at(false, v, u),
        Bound::Closed(v) => crosses_at(true, v, u),
    }
}

fn above_by(o: Ordering, inclusive: bool) -> bool
    ensures { result ≡ above inclusive o }
{
    match o {
        Ordering::Less => true,
        Ordering::Equal => inclusive,
        Ordering::Greater => false,
    }
}

/// Whether the lower bound lets v through.
pub fn clears_lower(l: Bound, v: Scalar) -> bool
    ensures { result ≡ clears lined (bound_of l) (payload.key v.0) }
{
    match l {
        Bound::Absent => true,
        Bound::Open(w) => {
            let o = scalar_cmp(w.value, v);
            above_by(o, false)
        }
        Bound::Closed(w) => {
            let o = scalar_cmp(w.value, v);
            above_by(o, true)
        }
    }
}

/// Whether the upper bound lets v through.
pub fn clears_upper(u: Bound, v: Scalar) -> bool
    ensures { result ≡ clears (opposite lined) (bound_of u) (payload.key v.0) }
{
    match u {
        Bound::Absent => true,
        Bound::Open(w) => {
            let o = scalar_cmp(v, w.value);
            above_by(o, false)
        }
        Bound::Closed(w) => {
            let o = scalar_cmp(v, w.value);
            above_by(o, true)
        }
    }
}

pub fn is_absent(b: Bound) -> bool
    ensures { result ≡ is_absent (bound_of b) }
{
    matches!(b, Bound::Absent)
}
