// The comparisons that a resolved column is written out as, by places: 0 the lower bound (or the one value), 1 the
// upper bound, 2 + i the number i of the column. A place may be vacant. Places one after the other are the comparisons
// in their order (`places-law`), so that whoever writes them out needs no array of them.
ghost use Rattle.std.specs.Prelude.{◌≡◌, cond, List, ℕ, ◌+◌, length};
ghost use Rattle.constraints.specs.Bound.{of_bound};
ghost use Rattle.constraints.specs.Comparisons.{IsLower, IsUpper, collect_column_comparisons};
ghost use Rattle.constraints.specs.Lined.{lined};
ghost use Rattle.column_constraints.specs.Abstraction.{Conjuncts, numbered, column_of, bound_of, excluded_by, compared_of, Fine};
ghost use Rattle.column_constraints.specs.Abstraction.{limit_of};
ghost use Rattle.column_constraints.specs.Abstraction.{kinds_in, values_in};
ghost use Rattle.column_constraints.specs.Steps.{placed_mark, placed_free, placed_point, placed};

use column_constraints::bound::{Bound, Limit, is_absent};
use column_constraints::column::{ColumnConstraints, Compared};
use column_sets::marks::limit_at;
use column_sets::told::kind_at;
use records::bytes::byte;
use resolve_deferred::resolve::fixed_value;

fn at_lower(l: Bound) -> Compared
    ensures { compared_of result ≡ of_bound IsLower (bound_of l) }
{
    match l {
        Bound::Absent => Compared::Vacant,
        Bound::Open(v) => Compared::Gt(v),
        Bound::Closed(v) => Compared::GtEq(v),
    }
}

fn at_upper(u: Bound) -> Compared
    ensures { compared_of result ≡ of_bound IsUpper (bound_of u) }
{
    match u {
        Bound::Absent => Compared::Vacant,
        Bound::Open(v) => Compared::Lt(v),
        Bound::Closed(v) => Compared::LtEq(v),
    }
}

fn at_mark(told: &[u64], j: u8) -> Compared
    ensures { compared_of result ≡ placed_mark (kinds_in told.now) (values_in told.now) j }
{
    let v = limit_at(told, j);
    if kind_at(told, j as usize) == 0 {
        return Compared::NotEq(v);
    }
    Compared::Vacant
}

// A column that no value pins.
fn at_place(told: &[u64], marks: &[u8], c: ColumnConstraints, p: usize) -> Compared
    ensures { (t : Conjuncts) → t.kinds ≡ kinds_in told.now → t.values ≡ values_in told.now →
        compared_of result ≡ placed_free t (numbered marks.now c) p }
{
    if p == 0 {
        let low = c.lower;
        return at_lower(low);
    }
    if p == 1 {
        let upp = c.upper;
        return at_upper(upp);
    }
    at_mark(told, byte(marks, p - 2))
}

/// The comparison at place p. The places are those below `places`.
pub fn comparison_at(told: &[u64], marks: &[u8], c: ColumnConstraints, p: usize) -> Compared
    ensures { (t : Conjuncts) → t.kinds ≡ kinds_in told.now → t.values ≡ values_in told.now →
        compared_of result ≡ placed t (numbered marks.now c) p }
{
    match fixed_value(c) {
        None => at_place(told, marks, c, p),
        Some(v) => at_point(v, p),
    }
}

fn at_point(v: Limit, p: usize) -> Compared
    ensures { compared_of result ≡ placed_point (limit_of v) p }
{
    if p == 0 {
        return Compared::Eq(v);
    }
    Compared::Vacant
}

fn excluded_count(told: &[u64], marks: &[u8], n: usize) -> usize
    ensures { (vs : List ℕ) → result ≡ length (excluded_by (kinds_in told.now) vs marks.now n) }
{
    let mut m: usize = 0;
    for i in 0..n {
        let j = byte(marks, i);
        m = m + counted(kind_at(told, j as usize) == 0);
    }
    m
}

fn counted(b: bool) -> usize
    ensures { result ≡ cond b 1 0 }
{
    if b {
        return 1;
    }
    0
}

/// How many comparisons the column is written out as.
pub fn comparison_count(told: &[u64], marks: &[u8], c: ColumnConstraints) -> usize
    requires { Fine 128 marks.now c.len }
    ensures { (t : Conjuncts) → t.kinds ≡ kinds_in told.now →
        result ≡ length (collect_column_comparisons lined (column_of t (numbered marks.now c))) }
{
    match fixed_value(c) {
        None => {
            let n = excluded_count(told, marks, c.len);
            counted(!is_absent(c.lower)) + (counted(!is_absent(c.upper)) + n)
        }
        Some(_) => 1,
    }
}
