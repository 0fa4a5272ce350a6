//! Symbols under one row: what a row gives a Text column, a literal or a null, two of them compared, and one looked for in a
//! list. Comparisons are those of numbers (crate `truth`): of two symbols the one is 1 and the other beside it.
#![tactic(auto)]

ghost use Rattle.std.specs.Prelude.{◌≡◌, true, ◌+◌, ◌*◌, ◌≤◌, length};
ghost use Rattle.records.specs.Shape.{in_pool};
ghost use Rattle.truth.specs.Halves.{ord_z};
ghost use Rattle.truth.specs.Membership.{mem};
ghost use Rattle.truth.specs.FromBytes.{values_from};
ghost use Rattle.truth.specs.Evaluate.{keyed, ColumnThere};
ghost use Rattle.symbols.specs.Symbol.{symbol_key};
ghost use Rattle.symbol_values.specs.SymbolValues.{bits_in, symbolic, PooledValue, leaf_bits, beside_one, as_one, beside};
ghost use Rattle.symbol_values.specs.SymbolValues.{PooledFrom, symbol_member};

use membership::member::{known_in, member};
use records::bytes::value_in;
use records::record::Fields;
use std::cmp::Ordering;
use symbols::symbol_cmp;
use three_valued::logic::Truth;
use truth::read::null_marked;
use truth::scalar::Scalar;
use truth::value::Value;

/// The value of a column, a literal or a null.
pub fn symbol_leaf(f: Fields, row: &[u8], nulls: u64) -> Value
    requires { f.kind ≡ 1 → ColumnThere row.now f.a }
    ensures { bits_in result ≡ leaf_bits row.now nulls f }
{
    if f.kind == 1 {
        if null_marked(nulls, f.a) {
            return None;
        }
        return Some(Scalar(value_in(row, f.a as usize)));
    }
    if f.kind == 2 {
        return Some(Scalar(f.b as u64 + 4294967296 * f.c as u64));
    }
    None
}

/// What is compared, as 1.
pub fn as_one(x: Value) -> Value
    ensures { keyed result ≡ as_one (bits_in x) }
{
    x.map(|_| Scalar(1))
}

fn beside_one(o: Ordering) -> u64
    ensures { result ≡ beside_one o }
{
    match o {
        Ordering::Less => 2,
        Ordering::Equal => 1,
        Ordering::Greater => 0,
    }
}

/// What x is compared with, beside 1.
pub fn beside_value(text: &[u8], x: Value, y: Value) -> Value
    requires pooled_value { PooledValue (length text.now) (bits_in x) }
    requires pooled_value_2 { PooledValue (length text.now) (bits_in y) }
    ensures { keyed result ≡ beside text.now (bits_in x) (bits_in y) }
{
    let b = y?;
    match x {
        None => Some(Scalar(1)),
        Some(a) => Some(Scalar(beside_one(symbol_cmp(text, a.0, b.0)))),
    }
}

// Whether one of `count` values of the pool, from the one numbered `start` on, has the bytes of `v`.
fn symbol_listed(text: &[u8], pool: &[u8], start: u32, count: u32, v: u64) -> bool
    requires count_in_bounds { 8 * (start + count) ≤ length pool.now }
    requires v_value { in_pool (length text.now) v ≡ true }
    requires pooled_from { PooledFrom (length text.now) pool.now start count }
    ensures { result ≡ mem (symbol_key text.now) ord_z (symbol_key text.now v)
        (values_from pool.now start count) }
{
    let end = start as usize + count as usize;
    for i in start as usize..end {
        let w = value_in(pool, i);
        if symbol_cmp(text, v, w).is_eq() {
            return true;
        }
    }
    false
}

/// is_in of the symbol `x` and the record of a list; `equal` is nulls_equal.
pub fn symbol_member(text: &[u8], pool: &[u8], list: Fields, equal: bool, x: Value) -> Truth
    requires b_in_bounds { 8 * (list.a + list.b) ≤ length pool.now }
    requires pooled_value { PooledValue (length text.now) (bits_in x) }
    requires pooled_from { PooledFrom (length text.now) pool.now list.a list.b }
    ensures { result ≡ symbol_member text.now pool.now list equal
        (symbolic text.now (bits_in x)) }
{
    match x {
        None => member(pool, list, equal, x),
        Some(v) => known_in(
            equal,
            list.code == 1,
            symbol_listed(text, pool, list.a, list.b, v.0),
        ),
    }
}
