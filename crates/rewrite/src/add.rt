// What a conjunct says, taken into its column.
ghost use Rattle.std.specs.Prelude.{◌≡◌, true, List, [], map, ℕ, ◌<◌, length};
ghost use Rattle.truth.specs.FromBytes.{closes_low, closes_high};
ghost use Rattle.constraints.specs.Column as q;
ghost use Rattle.constraints.specs.Lined.{on_line, lined};
ghost use Rattle.constraints.specs.Mapped.{map_constraint};
ghost use Rattle.column_constraints.specs.Abstraction.{Conjuncts, conjuncts_of, conjuncts, numbered, column_of, limit_of, Fine};
ghost use Rattle.column_constraints.specs.Abstraction.{kinds_in, values_in};
ghost use Rattle.merge.specs.Classify.{comparison_constraints};
ghost use Rattle.read_operands.specs.Read.{says_in, comparison_in};
ghost use Rattle.rewrite.specs.Told.{Told};

use column_constraints::bound::Limit;
use column_constraints::column::{ColumnConstraints, add_lower, add_upper, require_nullability};
use column_sets::marks::{add_allowed, add_disallowed, add_excluded};
use read_operands::operands::{Comparison, Says};
use records::record::ClosedInterval;
use truth::scalar::Scalar;

// The column alone; what became of its bound matters to a merge.
fn with_lower(c: ColumnConstraints, v: Limit, inclusive: bool) -> ColumnConstraints
    ensures result_value { (t : Conjuncts) (a : List ℕ) → column_of t (numbered a result) ≡ q.add_lower lined (limit_of v) inclusive (column_of t (numbered a c)) }
    ensures len_value { result.len ≡ c.len }
{
    add_lower(c, v, inclusive).column
}

fn with_upper(c: ColumnConstraints, v: Limit, inclusive: bool) -> ColumnConstraints
    ensures result_value { (t : Conjuncts) (a : List ℕ) → column_of t (numbered a result) ≡ q.add_upper lined (limit_of v) inclusive (column_of t (numbered a c)) }
    ensures len_value { result.len ≡ c.len }
{
    add_upper(c, v, inclusive).column
}

// `==` is a lower and an upper bound, both inclusive.
fn add_equal(c: ColumnConstraints, v: Limit) -> ColumnConstraints
    ensures result_value { (t : Conjuncts) (a : List ℕ) → column_of t (numbered a result) ≡ q.add_upper lined (limit_of v) true
        (q.add_lower lined (limit_of v) true (column_of t (numbered a c))) }
    ensures len_value { result.len ≡ c.len }
{
    let d = with_lower(c, v, true);
    with_upper(d, v, true)
}

// `column k v`, of conjunct j. Only `!=` gives the number j to the column.
fn add_comparison(
    told: &[u64],
    marks: &mut [u8],
    c: ColumnConstraints,
    j: u8,
    k: Comparison,
    v: Scalar,
) -> ColumnConstraints
    requires { Fine (length marks.old) marks.old c.len × (j < length marks.old) × Told (conjuncts_of (kinds_in
        told.now) (values_in told.now) [] [] []) j
        (comparison_constraints (comparison_in k) v.0) }
    ensures result_after { (t : Conjuncts) → t.kinds ≡ kinds_in told.now → t.values ≡ values_in told.now →
        column_of t (numbered marks.new result) ≡ q.add_all lined (map (map_constraint (on_line j)) (comparison_constraints (comparison_in k) v.0)) (column_of t (numbered marks.old c)) }
    ensures fine { Fine (length marks.old) marks.new result.len }
{
    let l = Limit {
        value: v,
        line: j,
        opener: 0,
    };
    match k {
        Comparison::Eq => add_equal(c, l),
        Comparison::NotEq => add_excluded(told, marks, c, j),
        Comparison::Lt => with_upper(c, l, false),
        Comparison::LtEq => with_upper(c, l, true),
        Comparison::Gt => with_lower(c, l, false),
        Comparison::GtEq => with_lower(c, l, true),
    }
}

fn closes_low(ends: ClosedInterval) -> bool
    ensures { result ≡ closes_low ends }
{
    matches!(ends, ClosedInterval::Both | ClosedInterval::Left)
}

fn closes_high(ends: ClosedInterval) -> bool
    ensures { result ≡ closes_high ends }
{
    matches!(ends, ClosedInterval::Both | ClosedInterval::Right)
}

fn add_between(c: ColumnConstraints, ends: ClosedInterval, v: Limit, w: Limit) -> ColumnConstraints
    ensures result_value { (t : Conjuncts) (a : List ℕ) → column_of t (numbered a result) ≡ q.add_upper lined (limit_of w) (closes_high ends)
        (q.add_lower lined (limit_of v) (closes_low ends) (column_of t (numbered a c))) }
    ensures len_value { result.len ≡ c.len }
{
    let d = with_lower(c, v, closes_low(ends));
    with_upper(d, w, closes_high(ends))
}

/// What conjunct j says of its column, whose numbers are in `marks`.
pub fn add_says(
    told: &[u64],
    pool: &[u8],
    marks: &mut [u8],
    c: ColumnConstraints,
    j: u8,
    s: Says,
) -> ColumnConstraints
    requires { Fine (length marks.old) marks.old c.len × (j < length marks.old) × Told (conjuncts told.now
        pool.now) j (says_in pool.now s) }
    ensures result_after { let t = conjuncts told.now pool.now in
        column_of t (numbered marks.new result) ≡ q.add_all lined (map (map_constraint (on_line j)) (says_in pool.now s)) (column_of t (numbered marks.old c)) }
    ensures fine { Fine (length marks.old) marks.new result.len }
{
    match s {
        Says::Nothing => c,
        Says::Compare(k, v) => add_comparison(told, marks, c, j, k, v),
        Says::Between(ends, v, w) => {
            let low = Limit {
                value: v,
                line: j,
                opener: 0,
            };
            let upp = Limit {
                value: w,
                line: j,
                opener: 0,
            };
            add_between(c, ends, low, upp)
        }
        Says::Allow(_, _) => add_allowed(marks, c, j),
        Says::Disallow(strict, _, _) => add_disallowed(told, marks, c, j, strict),
        Says::Require(n) => require_nullability(c, n),
    }
}
