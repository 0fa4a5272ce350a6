// One record: its sixteen bytes as numbers (`Fields`), and what they mean (`Record`).
// A node number and a column number are both small whole numbers; their types keep one from being taken for the other.
ghost use Rattle.std.specs.Prelude.{◌≡◌, ◌+◌, ◌*◌, ◌<◌, length};
ghost use Rattle.records.specs.Record.{fields_at, closed_at, decode, record_at, closed_code, flag_code, encode, inputs, list_of};

use crate::bytes::{byte, word_at, word_in};
use crate::operator::{Operator, operator_at};

// The number of a record, as the Rust's `Node`.
#[derive(Clone, Copy)]
pub struct Node(pub u32);

// The number of a column in the table; the Rust has a name there.
#[derive(Clone, Copy)]
pub struct Column(pub u32);

// Byte 0 kind, 1 code, 2 type, 3 zero; A, B and C.
#[derive(Clone, Copy)]
pub struct Fields {
    pub kind: u8,
    pub code: u8,
    pub ty: u8,
    pub zero: u8,
    pub a: u32,
    pub b: u32,
    pub c: u32,
}

// The closed ends of is_between, as polars' `ClosedInterval`.
#[derive(Clone, Copy)]
pub enum ClosedInterval {
    Both,
    Left,
    Right,
    None,
}

#[derive(Clone, Copy)]
pub enum Record {
    // No kind of 01: only unchecked bytes give it.
    Invalid,
    Column(Column),
    // Type and value; 64 bits in two's complement.
    Literal(u8, u64),
    // A null of a type.
    Null(u8),
    Binary(Operator, Node, Node),
    Not(Node),
    IsNull(Node),
    IsNotNull(Node),
    // Value, low, high.
    IsBetween(ClosedInterval, Node, Node, Node),
    // Type, whether it also holds a null, start and count in the pool.
    List(u8, bool, u32, u32),
    // nulls_equal, value, list.
    IsIn(bool, Node, Node),
}

// The nodes that a record names.
#[derive(Clone, Copy)]
pub enum Inputs {
    Zero,
    One(Node),
    Two(Node, Node),
    Three(Node, Node, Node),
}

// Sixteen bytes that are there.
#[tactic(auto, unfolding(crate::specs::Record::fields_at))]
pub fn fields_in(rs: &[u8], n: Node) -> Fields
    requires { 16 * n.0 + 15 < length rs.now }
    ensures { result ≡ fields_at rs.now n }
{
    let at = 16 * (n.0 as usize);
    Fields {
        kind: rs[at],
        code: rs[at + 1],
        ty: rs[at + 2],
        zero: rs[at + 3],
        a: word_in(rs, at + 4),
        b: word_in(rs, at + 8),
        c: word_in(rs, at + 12),
    }
}

#[tactic(auto, unfolding(crate::specs::Record::fields_at))]
fn fields_past(rs: &[u8], n: Node) -> Fields
    ensures { result ≡ fields_at rs.now n }
{
    let at = 16 * (n.0 as usize);
    Fields {
        kind: byte(rs, at),
        code: byte(rs, at + 1),
        ty: byte(rs, at + 2),
        zero: byte(rs, at + 3),
        a: word_at(rs, at + 4),
        b: word_at(rs, at + 8),
        c: word_at(rs, at + 12),
    }
}

// The sixteen bytes of record n as numbers; bytes past the end are 0.
pub fn fields_at(rs: &[u8], n: Node) -> Fields
    ensures { result ≡ fields_at rs.now n }
{
    if 16 * (n.0 as usize) + 15 < rs.len() {
        return fields_in(rs, n);
    }
    fields_past(rs, n)
}

#[tactic(auto, unfolding(crate::specs::Record::closed_at))]
fn closed_at(code: u8) -> ClosedInterval
    ensures { result ≡ closed_at code }
{
    match code {
        0 => ClosedInterval::Both,
        1 => ClosedInterval::Left,
        2 => ClosedInterval::Right,
        _ => ClosedInterval::None,
    }
}

// The record that the fields mean. Fields that its kind does not use are not looked at.
#[tactic(auto, unfolding(crate::specs::Record::decode))]
pub fn decode_fields(f: Fields) -> Record
    ensures { result ≡ decode f }
{
    let kind = f.kind;
    match kind {
        1 => Record::Column(Column(f.a)),
        2 => Record::Literal(f.ty, (f.b as u64) + 4294967296 * (f.c as u64)),
        3 => Record::Null(f.ty),
        4 => Record::Binary(operator_at(f.code), Node(f.a), Node(f.b)),
        5 => Record::Not(Node(f.a)),
        6 => Record::IsNull(Node(f.a)),
        7 => Record::IsNotNull(Node(f.a)),
        8 => Record::IsBetween(closed_at(f.code), Node(f.a), Node(f.b), Node(f.c)),
        9 => Record::List(f.ty, f.code == 1, f.a, f.b),
        10 => Record::IsIn(f.code == 1, Node(f.a), Node(f.b)),
        _ => Record::Invalid,
    }
}

#[tactic(auto, unfolding(crate::specs::Record::record_at))]
pub fn record_at(rs: &[u8], n: Node) -> Record
    ensures { result ≡ record_at rs.now n }
{
    decode_fields(fields_at(rs, n))
}

fn closed_code(k: ClosedInterval) -> u8
    ensures { result ≡ closed_code k }
{
    k as u8
}

fn flag_code(flag: bool) -> u8
    ensures { result ≡ flag_code flag }
{
    flag as u8
}

fn fields_of(kind: u8, code: u8, ty: u8, a: u32, b: u32, c: u32) -> Fields
    ensures { result ≡ fields kind code ty a b c }
{
    Fields {
        kind,
        code,
        ty,
        zero: 0,
        a,
        b,
        c,
    }
}

ghost use Rattle.records.specs.Record.{fields};

// The fields that say a record; those that its kind does not use are zero.
#[tactic(auto, unfolding(crate::specs::Record::encode))]
pub fn encode_record(r: Record) -> Fields
    ensures { result ≡ encode r }
{
    match r {
        Record::Invalid => fields_of(0, 0, 0, 0, 0, 0),
        Record::Column(c) => fields_of(1, 0, 0, c.0, 0, 0),
        Record::Literal(ty, v) => fields_of(
            2,
            0,
            ty,
            0,
            (v % 4294967296) as u32,
            (v / 4294967296) as u32,
        ),
        Record::Null(ty) => fields_of(3, 0, ty, 0, 0, 0),
        Record::Binary(o, x, y) => fields_of(4, o.code(), 0, x.0, y.0, 0),
        Record::Not(x) => fields_of(5, 0, 0, x.0, 0, 0),
        Record::IsNull(x) => fields_of(6, 0, 0, x.0, 0, 0),
        Record::IsNotNull(x) => fields_of(7, 0, 0, x.0, 0, 0),
        Record::IsBetween(k, x, y, z) => fields_of(8, closed_code(k), 0, x.0, y.0, z.0),
        Record::List(ty, marked, start, count) => fields_of(
            9,
            flag_code(marked),
            ty,
            start,
            count,
            0,
        ),
        Record::IsIn(equal, x, list) => fields_of(10, flag_code(equal), 0, x.0, list.0, 0),
    }
}

pub fn inputs_of(r: Record) -> Inputs
    ensures { list_of result ≡ inputs r }
{
    match r {
        Record::Binary(_, x, y) | Record::IsIn(_, x, y) => Inputs::Two(x, y),
        Record::Not(x) | Record::IsNull(x) | Record::IsNotNull(x) => Inputs::One(x),
        Record::IsBetween(_, x, y, z) => Inputs::Three(x, y, z),
        _ => Inputs::Zero,
    }
}

// The inputs of record n, whose sixteen bytes are there: only the words that its kind names are read.
fn inputs_in(rs: &[u8], n: Node) -> Inputs
    requires { 16 * n.0 + 15 < length rs.now }
    ensures { list_of result ≡ inputs (record_at rs.now n) }
{
    let at = 16 * (n.0 as usize);
    let kind = rs[at];
    match kind {
        4 | 10 => Inputs::Two(Node(word_in(rs, at + 4)), Node(word_in(rs, at + 8))),
        5 | 6 | 7 => Inputs::One(Node(word_in(rs, at + 4))),
        8 => Inputs::Three(
            Node(word_in(rs, at + 4)),
            Node(word_in(rs, at + 8)),
            Node(word_in(rs, at + 12)),
        ),
        _ => Inputs::Zero,
    }
}

// The inputs of record n, without decoding the rest of it.
pub fn inputs_at(rs: &[u8], n: Node) -> Inputs
    ensures { list_of result ≡ inputs (record_at rs.now n) }
{
    if 16 * (n.0 as usize) + 15 < rs.len() {
        return inputs_in(rs, n);
    }
    inputs_of(record_at(rs, n))
}
