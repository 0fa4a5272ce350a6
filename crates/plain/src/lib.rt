// Whether a screen is plain (01, 'Records'): each conjunct is one of the forms listed there, and no column but Int and Day
// ones is read. A conjunct's form is told by how the merging reads it.
#![tactic(auto)]

ghost use Rattle.std.specs.Prelude.{◌≡◌, not, ◌||◌, List, ℕ, ◌<◌, ◌≤◌, eqb, length, get_or};
ghost use Rattle.records.specs.Bytes.{all};
ghost use Rattle.checking.specs.Checked.{Checked};
ghost use Rattle.checking.specs.Columns.{bit};
ghost use Rattle.truth.specs.FromBytes.{aexpr_of, aexpr_at};
ghost use Rattle.merge.specs.Minterms.{minterms};
ghost use Rattle.merge.specs.Plain.{is_number_column, plain_conjunct, plain_screen};
ghost use Rattle.read_operands.specs.Read.{says_in};
ghost use Rattle.read_operands.specs.Walk.{walked, first_of};
ghost use Rattle.plain.specs.Forms.{is_negation, says_something};

use checking::reads::columns_word;
use read_operands::operands::{Conjunct, Says};
use reading::classify::classify;
use records::record::{Node, Record, record_at};

fn is_negation(r: Record) -> bool
    ensures { result ≡ is_negation r }
{
    matches!(r, Record::Not(_))
}

fn says_something(s: Says) -> bool
    ensures { (p : List ℕ) → result ≡ says_something (says_in p s) }
{
    !matches!(s, Says::Nothing)
}

// Not of a difference of two columns is read as their equality, but it is no plain conjunct.
fn plain_conjunct(rs: &[u8], n: Node) -> bool
    ensures { (p : List ℕ) → result ≡ plain_conjunct (aexpr_of rs.now p) n.0 }
{
    match classify(rs, n) {
        Conjunct::Bounds(_, _) | Conjunct::Normalized(_, _) => true,
        Conjunct::Equality(_, _) => !is_negation(record_at(rs, n)),
        Conjunct::Recorded(_, _, s) => says_something(s),
        Conjunct::NonNullPair(_, _) | Conjunct::Opaque => false,
    }
}

fn plain_conjuncts(rs: &[u8], nodes: &[u32], n: usize) -> bool
    requires { n ≤ length nodes.now }
    ensures { (p : List ℕ) → result ≡ all (λ i. plain_conjunct (aexpr_of rs.now p)
        (get_or nodes.now i 0)) n }
{
    for i in 0..n {
        if !plain_conjunct(rs, Node(nodes[i])) {
            return false;
        }
    }
    true
}

// Int or Day.
fn is_number(ty: u8) -> bool
    ensures { result ≡ (eqb ty 1 || eqb ty 2) }
{
    (ty == 1) | (ty == 2)
}

fn is_set(word: u64, c: u32) -> bool
    requires { c < 64 }
    ensures { result ≡ bit word c }
{
    (word >> c) % 2 == 1
}

/// No column whose bit is set in the word is of another type.
pub fn only_numbers(t: &[u8], word: u64) -> bool
    requires { length t.now ≤ 64 }
    ensures { result ≡ all (λ c. not (bit word c) || is_number_column t.now c) (length t.now) }
{
    (0..t.len()).all(|c| !is_set(word, c as u32) | is_number(t[c]))
}

/// Whether the screen is plain; the first n of `nodes` are its conjuncts.
pub fn is_plain(t: &[u8], rs: &[u8], root: Node, nodes: &[u32], n: usize) -> bool
    requires { (length t.now ≤ 64) × (root.0 < 4096) × (n ≤ length nodes.now) }
    ensures { (p : List ℕ) (used : ℕ) → Checked t.now rs.now p used root.0 →
        first_of nodes.now n ≡ minterms (walked rs.now) root.0 →
        result ≡ plain_screen t.now (aexpr_at rs.now p used) root.0 }
{
    if !only_numbers(t, columns_word(rs, root)) {
        return false;
    }
    plain_conjuncts(rs, nodes, n)
}
