// The columns of type Text with literals for ranks.
ghost use Rattle.std.specs.Prelude.{◌≡◌, cond, List, ℕ, ◌≤◌, eqb, length};
ghost use Rattle.truth.specs.FromBytes.{aexpr_of};
ghost use Rattle.constraints.specs.Mapped.{map_bound};
ghost use Rattle.column_constraints.specs.Abstraction.{Conjuncts, numbered, column_of, limit_of, bound_of};
ghost use Rattle.column_table.specs.State.{ColumnTable, Shows};
ghost use Rattle.column_table.specs.Words.{columns_of};
ghost use Rattle.symbol_columns.specs.Literals.{literal_limit, literal_column, literal_table};

use crate::literals::literal_behind;
use column_constraints::bound::{Bound, Limit};
use column_constraints::column::ColumnConstraints;
use column_table::cells::{load, store};
use rewrite::emit::is_fixed;
use truth::scalar::Scalar;

fn literal_limit(rs: &[u8], nodes: &[u32], v: Limit, upper: bool) -> Limit
    ensures { (p : List ℕ) → limit_of result ≡ literal_limit (aexpr_of rs.now p) nodes.now upper (limit_of v) }
{
    let line = v.line;
    let opener = v.opener;
    Limit {
        value: Scalar(literal_behind(rs, nodes, line, opener, upper)),
        line: line,
        opener: opener,
    }
}

fn literal_bound(rs: &[u8], nodes: &[u32], b: Bound, upper: bool) -> Bound
    ensures { (p : List ℕ) → bound_of result ≡ map_bound (literal_limit (aexpr_of rs.now p) nodes.now upper)
        (bound_of b) }
{
    match b {
        Bound::Absent => Bound::Absent,
        Bound::Open(v) => Bound::Open(literal_limit(rs, nodes, v, upper)),
        Bound::Closed(v) => Bound::Closed(literal_limit(rs, nodes, v, upper)),
    }
}

fn either_bound(first: bool, b: Bound, d: Bound) -> Bound
    ensures { result ≡ cond first b d }
{
    if first {
        return b;
    }
    d
}

// The bounds of a column that is one value keep it one: both take the lower bound's literal.
fn literal_column(rs: &[u8], nodes: &[u32], c: ColumnConstraints) -> ColumnConstraints
    ensures by_index { (p : List ℕ) (t : Conjuncts) (a : List ℕ) → column_of t (numbered a result) ≡
        literal_column (aexpr_of rs.now p) nodes.now (column_of t (numbered a c)) }
    ensures len_value { result.len ≡ c.len }
{
    let low = c.lower;
    let upp = c.upper;
    let nul = c.nullability;
    let fixed = is_fixed(c);
    let lower = literal_bound(rs, nodes, low, false);
    let upper = literal_bound(rs, nodes, upp, true);
    ColumnConstraints {
        lower: lower,
        upper: either_bound(fixed, lower, upper),
        len: c.len,
        strict: c.strict,
        nullability: nul,
        since: c.since,
        unsat: c.unsat,
    }
}

fn typed_column(rs: &[u8], nodes: &[u32], c: ColumnConstraints, ty: u8) -> ColumnConstraints
    ensures by_index { (p : List ℕ) (t : Conjuncts) (a : List ℕ) → column_of t (numbered a result) ≡ cond (eqb ty 4)
        (literal_column (aexpr_of rs.now p) nodes.now (column_of t (numbered a c)))
        (column_of t (numbered a c)) }
    ensures len_value { result.len ≡ c.len }
{
    if ty == 4 {
        return literal_column(rs, nodes, c);
    }
    c
}

/// The columns of the table t that are of type Text hold literals of the records `rs` then.
pub fn to_literals(t: &[u8], rs: &[u8], nodes: &[u32], cells: &mut [u64])
    requires { (length t.now ≤ 64) × (length cells.old ≡ 448) }
    ensures by_index { (p : List ℕ) (s : Conjuncts) (marks : List ℕ) (T : ColumnTable) →
        Shows s (columns_of cells.old) marks T → Shows s (columns_of cells.new) marks
        (literal_table t.now (aexpr_of rs.now p) nodes.now T) }
    ensures cells_len_unchanged { length cells.new ≡ length cells.old }
{
    for x in 0..t.len() {
        let c = load(cells, x);
        let d = typed_column(rs, nodes, c, t[x]);
        store(cells, x, d);
    }
}
