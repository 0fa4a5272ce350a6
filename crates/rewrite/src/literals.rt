// The literals and lists of the conjuncts, each decoded once: a column's sets hold numbers of conjuncts, and this
// table says which values the numbers stand for.
ghost use Rattle.std.specs.Prelude.{◌≡◌, true, List, ℕ, ◌*◌, ◌/◌, ◌%◌, ◌≤◌, ◌<◌, length, get_or};
ghost use Rattle.truth.specs.FromBytes.{aexpr_of};
ghost use Rattle.column_constraints.specs.Abstraction.{Conjuncts, conjuncts};
ghost use Rattle.merge.specs.Classify as c;
ghost use Rattle.rewrite.specs.Told.{said_by, comparison_kind, kind_of, Worded};
ghost use Rattle.rewrite.specs.Told.{ToldConjunct};

use read_operands::operands::{Comparison, Conjunct, Says};
use reading::classify::classify_by_record;
use records::record::Node;

fn said_by(k: Conjunct) -> Says
    ensures { result ≡ said_by k }
{
    match k {
        Conjunct::Bounds(_, s) | Conjunct::Normalized(_, s) | Conjunct::Recorded(_, _, s) => s,
        _ => Says::Nothing,
    }
}

fn comparison_kind(k: Comparison) -> u64
    ensures { result ≡ comparison_kind k }
{
    match k {
        Comparison::NotEq => 0,
        _ => 3,
    }
}

fn kind_of(s: Says) -> u64
    ensures { result ≡ kind_of s }
{
    match s {
        Says::Compare(k, _) => comparison_kind(k),
        Says::Allow(_, _) => 1,
        Says::Disallow(_, _, _) => 2,
        _ => 3,
    }
}

// A list's start and count in one word.
fn list_word(start: u32, count: u32) -> u64
    ensures { (result % 4294967296 ≡ start) × (result / 4294967296 ≡ count) }
{
    start as u64 + 4294967296 * (count as u64)
}

fn word_of(s: Says) -> u64
    ensures { Worded s result }
{
    match s {
        Says::Compare(_, v) => v.0,
        Says::Allow(start, count) | Says::Disallow(_, start, count) => list_word(start, count),
        _ => 0,
    }
}

// A comparison other than `!=` excludes no value and has no list, so the table need not say anything of it. Most
// conjuncts are such, and two bytes tell.
fn tells_nothing(rs: &[u8], n: Node) -> bool
    ensures { result ≡ true → (t : Conjuncts) (p : List ℕ) (j : ℕ) →
        ToldConjunct t j (c.classify (aexpr_of rs.now p) n.0) }
{
    let at = 16 * (n.0 as usize);
    if at + 15 < rs.len() {
        if rs[at] == 4 {
            return rs[at + 1] != 2;
        }
        return false;
    }
    false
}

/// What the first n nodes say, two words a conjunct as `column_sets::told` reads them; a conjunct that tells nothing leaves its
/// words as they were, and so are those behind. The caller lends the table: returned, it would be copied.
pub fn read_literals(rs: &[u8], nodes: &[u32], n: usize, told: &mut [u64])
    requires { (n ≤ length nodes.now) × (2 * n ≤ length told.old) }
    ensures by_index { (p : List ℕ) (i : ℕ) → i < n → ToldConjunct (conjuncts told.new p) i
        (c.classify (aexpr_of rs.now p) (get_or nodes.now i 0)) }
    ensures by_index_2 { (i : ℕ) → 2 * n ≤ i → get_or told.new i 0 ≡ get_or told.old i 0 }
{
    for i in 0..n {
        let node = Node(nodes[i]);
        if !tells_nothing(rs, node) {
            let k = classify_by_record(rs, node);
            let s = said_by(k);
            told[2 * i] = word_of(s);
            told[2 * i + 1] = kind_of(s);
        }
    }
}
