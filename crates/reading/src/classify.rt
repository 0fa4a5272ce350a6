// `classify_into_constraints`: what a conjunct says. It looks at the conjunct's record and at its operands' records,
// and at nothing below them.
ghost use Rattle.std.specs.Prelude.{◌≡◌, List, ℕ, ◌+◌, ◌*◌, ◌<◌, length, get_or};
ghost use Rattle.truth.specs.FromBytes.{to_aexpr, aexpr_of};
ghost use Rattle.merge.specs.Classify as c;
ghost use Rattle.read_operands.specs.Read.{conjunct_in};

use classify_operands::conjuncts::{
    binary_conjunct, classify_is_between, classify_is_in, classify_negated, classify_null,
};
use constraints::column::Nullability;
use read_operands::operands::{Conjunct, Listing, operand_at};
use records::bytes::word_in;
use records::operator::operator_at;
use records::record::{Node, Record, record_at};

/// A negated is_in with nulls_equal keeps nulls, so it does not count as a value constraint.
fn classify_negation(rs: &[u8], r: Record) -> Conjunct
    ensures { (p : List ℕ) (n : ℕ) → conjunct_in p n result ≡ c.classify_negation (aexpr_of rs.now p) n
        (to_aexpr p r) }
{
    match r {
        Record::Binary(o, x, y) => classify_negated(
            o.negate(),
            operand_at(rs, x),
            operand_at(rs, y),
        ),
        Record::IsNull(x) => classify_null(Nullability::NonNull, operand_at(rs, x)),
        Record::IsNotNull(x) => classify_null(Nullability::Null, operand_at(rs, x)),
        Record::IsIn(equal, x, list) => classify_is_in(
            Listing::Disallow(!equal),
            operand_at(rs, x),
            operand_at(rs, list),
        ),
        _ => Conjunct::Opaque,
    }
}

fn classify_record(rs: &[u8], r: Record) -> Conjunct
    ensures { (p : List ℕ) (n : ℕ) → conjunct_in p n result ≡ c.classify_record (aexpr_of rs.now p) n
        (to_aexpr p r) }
{
    match r {
        Record::Binary(o, x, y) => binary_conjunct(o, operand_at(rs, x), operand_at(rs, y)),
        Record::Not(x) => classify_negation(rs, record_at(rs, x)),
        Record::IsNull(x) => classify_null(Nullability::Null, operand_at(rs, x)),
        Record::IsNotNull(x) => classify_null(Nullability::NonNull, operand_at(rs, x)),
        Record::IsBetween(ends, x, low, high) => classify_is_between(
            ends,
            operand_at(rs, x),
            operand_at(rs, low),
            operand_at(rs, high),
        ),
        Record::IsIn(_, x, list) => classify_is_in(
            Listing::Allow,
            operand_at(rs, x),
            operand_at(rs, list),
        ),
        _ => Conjunct::Opaque,
    }
}

// A binary record whose sixteen bytes are there.
fn classify_binary(rs: &[u8], n: Node) -> Conjunct
    requires there { 16 * n.0 + 15 < length rs.now }
    requires binary { get_or rs.now (16 * n.0) 0 ≡ 4 }
    ensures { (p : List ℕ) → conjunct_in p n.0 result ≡ c.classify (aexpr_of rs.now p) n.0 }
{
    let at = 16 * (n.0 as usize);
    binary_conjunct(
        operator_at(rs[at + 1]),
        operand_at(rs, Node(word_in(rs, at + 4))),
        operand_at(rs, Node(word_in(rs, at + 8))),
    )
}

/// What the conjunct at node n says, by its record: for whoever reads one conjunct of many. A function with one caller is
/// inlined there, which `classify` is to be where all of a screen's conjuncts are read.
pub fn classify_by_record(rs: &[u8], n: Node) -> Conjunct
    ensures { (p : List ℕ) → conjunct_in p n.0 result ≡ c.classify (aexpr_of rs.now p) n.0 }
{
    classify_record(rs, record_at(rs, n))
}

/// What the conjunct at node n says. Comparisons, the usual case, are read without building a record.
pub fn classify(rs: &[u8], n: Node) -> Conjunct
    ensures { (p : List ℕ) → conjunct_in p n.0 result ≡ c.classify (aexpr_of rs.now p) n.0 }
{
    let at = 16 * (n.0 as usize);
    if at + 15 < rs.len() && rs[at] == 4 {
        return classify_binary(rs, n);
    }
    classify_record(rs, record_at(rs, n))
}
