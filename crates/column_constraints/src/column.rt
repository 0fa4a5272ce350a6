// A column's constraints: what the conjuncts say of its bounds and of nulls. The sets are crate `column_sets`.
ghost use Rattle.std.specs.Prelude.{◌≡◌, List, ℕ};
ghost use Rattle.constraints.specs.Column as q;
ghost use Rattle.constraints.specs.Column.{is_null_required};
ghost use Rattle.constraints.specs.Lined.{lined};
ghost use Rattle.column_constraints.specs.Abstraction.{Conjuncts, numbered, column_of, limit_of};
ghost use Rattle.column_constraints.specs.Steps.{consistent};

use crate::bound::{Bound, Limit, crosses, tighten_lower, tighten_upper};
use constraints::column::{BoundChange, Nullability};

/// `len` counts the column's numbers: the conjuncts that gave excluded values and lists, each once, in insertion order. They
/// stand in the column's row of an array beside the table, so that a column is small; a conjunct's kind says which of the
/// three sets its values belong to. One row serves all three: a conjunct gives to one only. `strict`: some negated is_in
/// that drops nulls gave a value. `since` is the conjunct that first required null or not null, where something is
/// required. `unsat` stays: an impossible column takes nothing.
#[derive(Clone, Copy)]
pub struct ColumnConstraints {
    pub lower: Bound,
    pub upper: Bound,
    pub len: usize,
    pub strict: bool,
    pub nullability: Nullability,
    pub since: u64,
    pub unsat: bool,
}

/// A column that took a bound in, and what became of the one it had.
#[derive(Clone, Copy)]
pub struct Bounded {
    pub column: ColumnConstraints,
    pub change: BoundChange,
}

pub fn empty() -> ColumnConstraints
    ensures result_value { (t : Conjuncts) (a : List ℕ) → column_of t (numbered a result) ≡ q.empty }
    ensures len_value { result.len ≡ 0 }
{
    ColumnConstraints {
        lower: Bound::Absent,
        upper: Bound::Absent,
        len: 0,
        strict: false,
        nullability: Nullability::Unconstrained,
        since: 0,
        unsat: false,
    }
}

/// Marks the column impossible when its bounds cross.
pub fn check_bound_consistency(c: ColumnConstraints) -> ColumnConstraints
    ensures result_value { (t : Conjuncts) (a : List ℕ) → column_of t (numbered a result) ≡ consistent (column_of t (numbered a c)) }
    ensures len_value { result.len ≡ c.len }
{
    ColumnConstraints {
        unsat: c.unsat | crosses(c.lower, c.upper),
        ..c
    }
}

pub fn add_lower(c: ColumnConstraints, v: Limit, inclusive: bool) -> Bounded
    ensures column_value { (t : Conjuncts) (a : List ℕ) → column_of t (numbered a result.column) ≡
        q.add_lower lined (limit_of v) inclusive (column_of t (numbered a c)) }
    ensures len_value { result.column.len ≡ c.len }
    ensures change_value { (t : Conjuncts) (a : List ℕ) → result.change ≡
        q.lower_change lined (limit_of v) inclusive (column_of t (numbered a c)) }
{
    if c.unsat {
        return Bounded {
            column: c,
            change: BoundChange::NoChange,
        };
    }
    let m = tighten_lower(c.lower, v, inclusive);
    let column = ColumnConstraints {
        lower: m.bound,
        unsat: crosses(m.bound, c.upper),
        ..c
    };
    Bounded {
        column,
        change: m.change,
    }
}

pub fn add_upper(c: ColumnConstraints, v: Limit, inclusive: bool) -> Bounded
    ensures column_value { (t : Conjuncts) (a : List ℕ) → column_of t (numbered a result.column) ≡
        q.add_upper lined (limit_of v) inclusive (column_of t (numbered a c)) }
    ensures len_value { result.column.len ≡ c.len }
    ensures change_value { (t : Conjuncts) (a : List ℕ) → result.change ≡
        q.upper_change lined (limit_of v) inclusive (column_of t (numbered a c)) }
{
    if c.unsat {
        return Bounded {
            column: c,
            change: BoundChange::NoChange,
        };
    }
    let m = tighten_upper(c.upper, v, inclusive);
    let column = ColumnConstraints {
        upper: m.bound,
        unsat: crosses(c.lower, m.bound),
        ..c
    };
    Bounded {
        column,
        change: m.change,
    }
}

/// The first requirement stays; the opposite one makes the column impossible.
pub fn require_nullability(c: ColumnConstraints, n: Nullability) -> ColumnConstraints
    ensures result_value { (t : Conjuncts) (a : List ℕ) → column_of t (numbered a result) ≡ q.require_nullability lined n (column_of t (numbered a c)) }
    ensures len_value { result.len ≡ c.len }
{
    if c.unsat {
        return c;
    }
    ColumnConstraints {
        nullability: nullability_kept(c.nullability, n),
        unsat: nullability_clashes(c.nullability, n),
        ..c
    }
}

fn nullability_kept(m: Nullability, n: Nullability) -> Nullability
    ensures { result ≡ q.first_required m n }
{
    match m {
        Nullability::Unconstrained => n,
        _ => m,
    }
}

fn nullability_clashes(m: Nullability, n: Nullability) -> bool
    ensures { result ≡ q.opposed m n }
{
    matches!(
        (m, n),
        (Nullability::Null, Nullability::NonNull) | (Nullability::NonNull, Nullability::Null)
    )
}

pub fn is_null(n: Nullability) -> bool
    ensures { result ≡ is_null_required n }
{
    matches!(n, Nullability::Null)
}

/// One place of a column.
#[derive(Clone, Copy)]
pub enum Compared {
    Vacant,
    Eq(Limit),
    Gt(Limit),
    GtEq(Limit),
    Lt(Limit),
    LtEq(Limit),
    NotEq(Limit),
}

/// A column after a merge. `emitted`: something that is written out again changed; `any`: something changed.
#[derive(Clone, Copy)]
pub struct Merged {
    pub column: ColumnConstraints,
    pub emitted: bool,
    pub any: bool,
}
