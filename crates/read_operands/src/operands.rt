// What a conjunct and its operands are read as, and the reading of an operand: it looks at one record.
ghost use Rattle.std.specs.Prelude.{◌≡◌, not, ◌&&◌, cond, List, ℕ, ◌+◌, ◌*◌, ◌<◌, leb, length};
ghost use Rattle.truth.specs.FromBytes.{values_from, to_aexpr, aexpr_of};
ghost use Rattle.merge.specs.Classify as c;
ghost use Rattle.read_operands.specs.Read.{operand_in};

use constraints::column::Nullability;
use records::bytes::{value_in, word_in};
use records::record::{ClosedInterval, Column, Node, Record, record_at};
use truth::scalar::Scalar;

/// The six comparisons that give bounds and excluded values.
#[derive(Clone, Copy)]
pub enum Comparison {
    Eq,
    NotEq,
    Lt,
    LtEq,
    Gt,
    GtEq,
}

/// `List`: at most 100 values and no null; its start and count in the pool.
#[derive(Clone, Copy)]
pub enum Operand {
    Column(Column),
    Literal(Scalar),
    List(u32, u32),
    Other,
}

/// is_in, or its negation; whether the negation drops nulls.
#[derive(Clone, Copy)]
pub enum Listing {
    Allow,
    Disallow(bool),
}

/// What a conjunct says of its column.
#[derive(Clone, Copy)]
pub enum Says {
    /// The column only enters the table.
    Nothing,
    Compare(Comparison, Scalar),
    Between(ClosedInterval, Scalar, Scalar),
    Allow(u32, u32),
    Disallow(bool, u32, u32),
    Require(Nullability),
}

/// What a conjunct is to the merging.
#[derive(Clone, Copy)]
pub enum Conjunct {
    /// Written anew from the merged constraints, so its node is dropped.
    Bounds(Column, Says),
    /// The same of a negated comparison, which forces the rebuild.
    Normalized(Column, Says),
    Equality(Column, Column),
    /// Kept, but the column learns of it; whether reading stops if the column became impossible.
    Recorded(bool, Column, Says),
    /// Another comparison of two columns, which are then not null.
    NonNullPair(Column, Column),
    Opaque,
}

fn list_operand(marked: bool, start: u32, count: u32) -> Operand
    ensures { (p : List ℕ) → operand_in p result ≡ cond (not marked && leb (length (values_from p start count)) 100)
        (c.AList (values_from p start count)) c.Other }
{
    if marked {
        return Operand::Other;
    }
    if count <= 100 {
        return Operand::List(start, count);
    }
    Operand::Other
}

fn operand_of(r: Record) -> Operand
    ensures { (p : List ℕ) → operand_in p result ≡ c.operand (to_aexpr p r) }
{
    match r {
        Record::Column(a) => Operand::Column(a),
        Record::Literal(_, v) => Operand::Literal(Scalar(v)),
        Record::List(_, marked, start, count) => list_operand(marked, start, count),
        _ => Operand::Other,
    }
}

// Sixteen bytes that are there: three kinds matter, so no record is made. A literal's value is B and C, the eight bytes
// at 16 n + 8.
fn operand_in(rs: &[u8], n: Node) -> Operand
    requires { 16 * n.0 + 15 < length rs.now }
    ensures { (p : List ℕ) → operand_in p result ≡ c.operand (aexpr_of rs.now p n.0) }
{
    let at = 16 * (n.0 as usize);
    let kind = rs[at];
    if kind == 1 {
        return Operand::Column(Column(word_in(rs, at + 4)));
    }
    if kind == 2 {
        return Operand::Literal(Scalar(value_in(rs, 2 * (n.0 as usize) + 1)));
    }
    if kind == 9 {
        return list_operand(rs[at + 1] == 1, word_in(rs, at + 4), word_in(rs, at + 8));
    }
    Operand::Other
}

pub fn operand_at(rs: &[u8], n: Node) -> Operand
    ensures { (p : List ℕ) → operand_in p result ≡ c.operand (aexpr_of rs.now p n.0) }
{
    if 16 * (n.0 as usize) + 15 < rs.len() {
        return operand_in(rs, n);
    }
    operand_of(record_at(rs, n))
}
