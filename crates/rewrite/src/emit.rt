// The comparisons of a resolved column, written out.
ghost use Rattle.std.specs.Prelude.{◌≡◌, List, ℕ, ◌+◌, ◌*◌, ◌≤◌, ◌<◌, ◌^◌, length};
ghost use Rattle.constraints.specs.Comparisons.{collect_column_comparisons};
ghost use Rattle.constraints.specs.Lined.{Lined, lined};
ghost use Rattle.constraints.specs.Resolve.{fixed_at};
ghost use Rattle.column_constraints.specs.Abstraction.{Conjuncts, numbered, column_of, compared_of, Fine};
ghost use Rattle.column_constraints.specs.Abstraction.{kinds_in, values_in};
ghost use Rattle.merge.specs.Emit.{of_column, is_fixed};
ghost use Rattle.merge.specs.Lines.{map_comparisons};
ghost use Rattle.merge.specs.Write.{write_comparisons};
ghost use Rattle.read_operands.specs.Read.{comparison_in};
ghost use Rattle.rewrite.specs.Written.{write_compared};

use crate::write::write_comparison;
use column_constraints::column::{ColumnConstraints, Compared};
use columns::comparisons::comparison_at;
use read_operands::operands::Comparison;
use records::record::Column;
use resolve_deferred::resolve::fixed_value;
use truth::scalar::Scalar;

/// Whether the bounds pin the column to one value.
pub fn is_fixed(c: ColumnConstraints) -> bool
    ensures { (t : Conjuncts) (a : List ℕ) → result ≡ is_fixed (fixed_at lined (column_of t (numbered a c)).lower
        (column_of t (numbered a c)).upper) }
{
    fixed_value(c).is_some()
}

fn write_one(t: &[u8], rs: &mut [u8], u: u32, a: Column, k: Comparison, v: Scalar) -> u32
    requires { (u < 2 ^ 31) × (16 * u + 48 ≤ length rs.old) }
    ensures value { result ≡ u + 3 }
    ensures rs_after { rs.new ≡ write_compared t.now u a.0 (comparison_in k) v.0
        rs.old }
{
    write_comparison(t, rs, u, a, k, v);
    u + 3
}

// One place of the column, which may be vacant.
fn write_place(t: &[u8], rs: &mut [u8], u: u32, a: Column, k: Compared) -> u32
    requires { (u < 2 ^ 31) × (16 * (u + 3 * length (compared_of k)) ≤ length rs.old) }
    ensures value { result ≡ u + 3 * length (compared_of k) }
    ensures rs_after { rs.new ≡ write_comparisons t.now u (map_comparisons (λ (v : Lined). v.bits) (of_column a.0 (compared_of k)))
        rs.old }
{
    match k {
        Compared::Vacant => u,
        Compared::Eq(v) => write_one(t, rs, u, a, Comparison::Eq, v.value),
        Compared::Gt(v) => write_one(t, rs, u, a, Comparison::Gt, v.value),
        Compared::GtEq(v) => write_one(t, rs, u, a, Comparison::GtEq, v.value),
        Compared::Lt(v) => write_one(t, rs, u, a, Comparison::Lt, v.value),
        Compared::LtEq(v) => write_one(t, rs, u, a, Comparison::LtEq, v.value),
        Compared::NotEq(v) => write_one(t, rs, u, a, Comparison::NotEq, v.value),
    }
}

/// The column's comparisons, three records each, from record u on; the first number behind them.
pub fn write_column(
    t: &[u8],
    rs: &mut [u8],
    u: u32,
    a: Column,
    told: &[u64],
    marks: &[u8],
    c: ColumnConstraints,
) -> u32
    requires { Fine 128 marks.now c.len × (u ≤ 4096) × ((s : Conjuncts) → s.kinds ≡ kinds_in told.now →
        s.values ≡ values_in told.now →
        16 * (u + 3 * length (collect_column_comparisons lined (column_of s (numbered marks.now c)))) ≤ length rs.old) }
    ensures value { (s : Conjuncts) → s.kinds ≡ kinds_in told.now → s.values ≡ values_in told.now →
        result ≡ u + 3 * length (collect_column_comparisons lined (column_of s (numbered marks.now c))) }
    ensures rs_after { (s : Conjuncts) → s.kinds ≡ kinds_in told.now → s.values ≡ values_in told.now →
        rs.new ≡ write_comparisons t.now u
        (map_comparisons (λ (v : Lined). v.bits) (of_column a.0
        (collect_column_comparisons lined (column_of s (numbered marks.now c))))) rs.old }
{
    let places = c.len + 2;
    let mut at = u;
    for p in 0..places {
        let k = comparison_at(told, marks, c, p);
        at = write_place(t, rs, at, a, k);
    }
    at
}
