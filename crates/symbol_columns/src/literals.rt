// The literal behind a limit: that of the conjunct that gave it, or whose excluded value opened the bound.
ghost use Rattle.std.specs.Prelude.{◌≡◌, cond, List, ℕ};
ghost use Rattle.truth.specs.FromBytes.{aexpr_of};
ghost use Rattle.read_operands.specs.Read.{says_in, conjunct_in};
ghost use Rattle.symbol_sources.specs.Sources.{giver};
ghost use Rattle.symbol_columns.specs.Literals.{literal_in, conjunct_literal, literal_behind};

use column_sets::marks::number_at;
use read_operands::operands::{Conjunct, Says};
use reading::classify::classify_by_record;
use records::record::Node;

fn end_of(low: u64, high: u64, upper: bool) -> u64
    ensures { result ≡ cond upper high low }
{
    if upper {
        return high;
    }
    low
}

// is_between has a literal for each of its bounds, a comparison one.
fn said_literal(s: Says, upper: bool) -> u64
    ensures { (p : List ℕ) → result ≡ literal_in upper (says_in p s) }
{
    match s {
        Says::Nothing => 0,
        Says::Compare(_, v) => v.0,
        Says::Between(_, v, w) => end_of(v.0, w.0, upper),
        Says::Allow(_, _) => 0,
        Says::Disallow(_, _, _) => 0,
        Says::Require(_) => 0,
    }
}

fn conjunct_literal(k: Conjunct, upper: bool) -> u64
    ensures { (p : List ℕ) (n : ℕ) → result ≡ conjunct_literal upper (conjunct_in p n k) }
{
    match k {
        Conjunct::Bounds(_, s) => said_literal(s, upper),
        Conjunct::Normalized(_, s) => said_literal(s, upper),
        Conjunct::Equality(_, _) => 0,
        Conjunct::Recorded(_, _, s) => said_literal(s, upper),
        Conjunct::NonNullPair(_, _) => 0,
        Conjunct::Opaque => 0,
    }
}

// The number of the conjunct that gave the value.
fn giver_of(line: u8, opener: u32) -> usize
    ensures { result ≡ giver line opener }
{
    if opener == 0 {
        return line as usize;
    }
    (opener - 1) as usize
}

/// `nodes` are the screen's conjuncts; upper: the limit is an upper bound.
pub fn literal_behind(rs: &[u8], nodes: &[u32], line: u8, opener: u32, upper: bool) -> u64
    ensures { (p : List ℕ) → result ≡ literal_behind (aexpr_of rs.now p) nodes.now upper line opener }
{
    let j = giver_of(line, opener);
    let node = Node(number_at(nodes, j));
    let k = classify_by_record(rs, node);
    conjunct_literal(k, upper)
}
