// A line on a row: what it says of its column, on the column's place. Lines that no plain screen has do not pass.
ghost use Rattle.std.specs.Prelude.{◌≡◌, ℕ, ◌<◌, ◌≤◌, length, get_or};
ghost use Rattle.truth.specs.FromBytes.{aexpr_of};
ghost use Rattle.merge.specs.Classify as c;
ghost use Rattle.reading.specs.Columns.{ColumnsBelow};
ghost use Rattle.places.specs.Places.{places_row};
ghost use Rattle.places.specs.Held.{Halved};
ghost use Rattle.check_row.specs.Line.{line_true, lines_true};

use crate::says::{meets, same_value};
use places::place::place_at;
use read_operands::operands::Conjunct;
use reading::classify::classify;
use records::record::Node;

fn line_passes(rs: &[u8], p: &[u8], n: Node, row: &[u8], nulls: u64) -> bool
    requires { Halved row.now nulls × ColumnsBelow 64 (c.classify (aexpr_of rs.now p.now) n.0) }
    ensures { result ≡ line_true (places_row row.now nulls)
        (c.classify (aexpr_of rs.now p.now) n.0) }
{
    let k = classify(rs, n);
    match k {
        Conjunct::Bounds(a, s) => meets(p, s, place_at(row, nulls, a)),
        Conjunct::Normalized(a, s) => meets(p, s, place_at(row, nulls, a)),
        Conjunct::Equality(a, b) => same_value(place_at(row, nulls, a), place_at(row, nulls, b)),
        Conjunct::Recorded(_, a, s) => meets(p, s, place_at(row, nulls, a)),
        Conjunct::NonNullPair(_, _) => false,
        Conjunct::Opaque => false,
    }
}

/// Whether the first n of `nodes` are all true of the row.
pub fn lines_pass(rs: &[u8], p: &[u8], nodes: &[u32], n: usize, row: &[u8], nulls: u64) -> bool
    requires n_in_bounds { (n ≤ length nodes.now) × Halved row.now nulls }
    requires by_index { (i : ℕ) → i < n → ColumnsBelow 64 (c.classify (aexpr_of rs.now p.now) (get_or nodes.now i 0)) }
    ensures { result ≡ lines_true (aexpr_of rs.now p.now) (places_row row.now nulls)
        nodes.now n }
{
    for i in 0..n {
        if !line_passes(rs, p, Node(nodes[i]), row, nulls) {
            return false;
        }
    }
    true
}
