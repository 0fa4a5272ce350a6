// What a conjunct says, by its operator and its operands: no record is read here.
ghost use Rattle.std.specs.Prelude.{◌≡◌, List, [], ◌∷◌, ℕ};
ghost use Rattle.truth.specs.FromBytes.{values_from, closes_low, closes_high};
ghost use Rattle.merge.specs.Classify as c;
ghost use Rattle.read_operands.specs.Read.{ordinary_in, operand_in, listing_in, says_in, conjunct_in, binary_conjunct};

use constraints::column::Nullability;
use read_operands::operands::{Comparison, Conjunct, Listing, Operand, Says};
use records::operator::Operator;
use records::record::{ClosedInterval, Column};
use truth::scalar::Scalar;

fn ordinary_comparison(o: Operator) -> Option<Comparison>
    ensures { ordinary_in result ≡ c.ordinary_comparison o }
{
    match o {
        Operator::Eq => Some(Comparison::Eq),
        Operator::NotEq => Some(Comparison::NotEq),
        Operator::Lt => Some(Comparison::Lt),
        Operator::LtEq => Some(Comparison::LtEq),
        Operator::Gt => Some(Comparison::Gt),
        Operator::GtEq => Some(Comparison::GtEq),
        _ => None,
    }
}

// ---- comparisons

fn column_literal(o: Operator, a: Column, v: Scalar) -> Conjunct
    ensures { (p : List ℕ) (n : ℕ) → conjunct_in p n result ≡ c.classify_column_literal n a.0 v.0
        (c.ordinary_comparison o) }
{
    match ordinary_comparison(o) {
        None => Conjunct::Recorded(false, a, Says::Nothing),
        Some(k) => Conjunct::Bounds(a, Says::Compare(k, v)),
    }
}

// `lit op col` is read as `col op' lit`, with the operator of `swap_operands`.
fn literal_column(swapped: Option<Operator>, a: Column, v: Scalar) -> Conjunct
    ensures { (p : List ℕ) (n : ℕ) → conjunct_in p n result ≡ c.classify_literal_column n a.0 v.0 swapped }
{
    match swapped {
        None => Conjunct::Opaque,
        Some(o) => column_literal(o, a, v),
    }
}

fn column_column(o: Operator, a: Column, b: Column) -> Conjunct
    ensures { (p : List ℕ) (n : ℕ) → conjunct_in p n result ≡ c.classify_column_column n a.0 b.0 o }
{
    if !o.is_null_propagating_comparison() {
        return Conjunct::Opaque;
    }
    if o == Operator::Eq {
        return Conjunct::Equality(a, b);
    }
    Conjunct::NonNullPair(a, b)
}

fn classify_comparison(o: Operator, left: Operand, right: Operand) -> Conjunct
    ensures { (p : List ℕ) (n : ℕ) → conjunct_in p n result ≡ c.classify_comparison n o (operand_in p left)
        (operand_in p right) }
{
    match (left, right) {
        (Operand::Column(a), Operand::Column(b)) => column_column(o, a, b),
        (Operand::Column(a), Operand::Literal(v)) => column_literal(o, a, v),
        (Operand::Literal(v), Operand::Column(a)) => literal_column(o.swap_operands(), a, v),
        _ => Conjunct::Opaque,
    }
}

// Checking refuses a screen with an operator that is left out.
pub fn binary_conjunct(o: Operator, left: Operand, right: Operand) -> Conjunct
    ensures { (p : List ℕ) (n : ℕ) → conjunct_in p n result ≡ binary_conjunct n o (operand_in p left)
        (operand_in p right) }
{
    if o.is_left_out() {
        return Conjunct::Opaque;
    }
    classify_comparison(o, left, right)
}

// ---- is_between

pub fn classify_is_between(
    ends: ClosedInterval,
    a: Operand,
    low: Operand,
    high: Operand,
) -> Conjunct
    ensures { (p : List ℕ) (n : ℕ) → conjunct_in p n result ≡ c.classify_is_between n (closes_low ends) (closes_high ends)
        (operand_in p a) (operand_in p low) (operand_in p high) }
{
    match (a, low, high) {
        (Operand::Column(x), Operand::Literal(v), Operand::Literal(w)) => {
            Conjunct::Bounds(x, Says::Between(ends, v, w))
        }
        _ => Conjunct::Opaque,
    }
}

// ---- is_in

fn listing_says(k: Listing, start: u32, count: u32) -> Says
    ensures { (p : List ℕ) → says_in p result ≡ (listing_in k (values_from p start count) ∷ []) }
{
    match k {
        Listing::Allow => Says::Allow(start, count),
        Listing::Disallow(strict) => Says::Disallow(strict, start, count),
    }
}

pub fn classify_is_in(k: Listing, a: Operand, list: Operand) -> Conjunct
    ensures { (p : List ℕ) (n : ℕ) → conjunct_in p n result ≡ c.classify_is_in n (listing_in k) (operand_in p a)
        (operand_in p list) }
{
    match (a, list) {
        (Operand::Column(x), Operand::List(start, count)) => {
            Conjunct::Recorded(false, x, listing_says(k, start, count))
        }
        _ => Conjunct::Opaque,
    }
}

// ---- null tests

pub fn classify_null(must: Nullability, a: Operand) -> Conjunct
    ensures { (p : List ℕ) (n : ℕ) → conjunct_in p n result ≡ c.classify_null n must (operand_in p a) }
{
    match a {
        Operand::Column(x) => Conjunct::Recorded(true, x, Says::Require(must)),
        _ => Conjunct::Opaque,
    }
}

// ---- one record

fn normalized(k: Conjunct) -> Conjunct
    ensures { (p : List ℕ) (n : ℕ) → conjunct_in p n result ≡ c.normalized (conjunct_in p n k) }
{
    match k {
        Conjunct::Bounds(a, s) => Conjunct::Normalized(a, s),
        _ => k,
    }
}

// A comparison below Not, by its complementary operator.
pub fn classify_negated(op: Option<Operator>, left: Operand, right: Operand) -> Conjunct
    ensures { (p : List ℕ) (n : ℕ) → conjunct_in p n result ≡ c.classify_negated n op (operand_in p left)
        (operand_in p right) }
{
    match op {
        None => Conjunct::Opaque,
        Some(o) => normalized(classify_comparison(o, left, right)),
    }
}
