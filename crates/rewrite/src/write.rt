// `comparison_node` and `fold_and`: the records that a rebuilt screen adds behind the used ones.
ghost use Rattle.std.specs.Prelude.{◌≡◌, ◌∷◌, ◌++◌, [], ℕ, ◌+◌, ◌*◌, ◌-◌, ◌≤◌, ◌<◌, ◌%◌, ◌/◌, ◌^◌, length};
ghost use Rattle.read_operands.specs.Read.{comparison_in};
ghost use Rattle.merge.specs.Classify.{comparison_operator};
ghost use Rattle.merge.specs.Write.{splice, word_bytes, field_bytes, write_record, write_comparison};
ghost use Rattle.rewrite.specs.Written.{write_compared, chain_at, ands_to};

use read_operands::operands::Comparison;
use records::bytes::byte;
use records::operator::Operator;
use records::record::{Column, Fields, Node, Record, encode_record};
use truth::scalar::Scalar;

fn low_byte(x: u32) -> u8
    ensures { result ≡ x % 256 }
{
    (x % 256) as u8
}

fn put_bytes(s: &mut [u8], at: usize, a: u8, b: u8, c: u8, d: u8)
    requires { at + 4 ≤ length s.old }
    ensures { s.new ≡ splice s.old at (a ∷ b ∷ c ∷ d ∷ []) }
{
    s[at] = a;
    s[at + 1] = b;
    s[at + 2] = c;
    s[at + 3] = d;
}

/// The four bytes of x from `at` on, the lowest first.
pub fn put_word(s: &mut [u8], at: usize, x: u32)
    requires { at + 4 ≤ length s.old }
    ensures { s.new ≡ splice s.old at (word_bytes x) }
{
    put_bytes(
        s,
        at,
        low_byte(x),
        low_byte(x / 256),
        low_byte(x / 65536),
        low_byte(x / 16777216),
    );
}

/// The eight bytes of x from `at` on, the lowest first.
pub fn put_value(s: &mut [u8], at: usize, x: u64)
    requires { at + 8 ≤ length s.old }
    ensures { s.new ≡ splice s.old at (word_bytes (x % 4294967296) ++ word_bytes (x / 4294967296)) }
{
    put_word(s, at, (x % 4294967296) as u32);
    put_word(s, at + 4, (x / 4294967296) as u32);
}

fn put_fields(s: &mut [u8], at: usize, f: Fields)
    requires { at + 16 ≤ length s.old }
    ensures { s.new ≡ splice s.old at (field_bytes f) }
{
    put_bytes(s, at, f.kind, f.code, f.ty, f.zero);
    put_word(s, at + 4, f.a);
    put_word(s, at + 8, f.b);
    put_word(s, at + 12, f.c);
}

/// Record n, which there is room for, becomes r.
pub fn put_record(rs: &mut [u8], n: Node, r: Record)
    requires { 16 * n.0 + 16 ≤ length rs.old }
    ensures { rs.new ≡ write_record rs.old n.0 r }
{
    let f = encode_record(r);
    put_fields(rs, 16 * (n.0 as usize), f);
}

fn operator_of(k: Comparison) -> Operator
    ensures { result ≡ comparison_operator (comparison_in k) }
{
    match k {
        Comparison::Eq => Operator::Eq,
        Comparison::NotEq => Operator::NotEq,
        Comparison::Lt => Operator::Lt,
        Comparison::LtEq => Operator::LtEq,
        Comparison::Gt => Operator::Gt,
        Comparison::GtEq => Operator::GtEq,
    }
}

/// `comparison_node`: column, literal of the column's type, binary record, from record u on.
pub fn write_comparison(t: &[u8], rs: &mut [u8], u: u32, a: Column, k: Comparison, v: Scalar)
    requires { (u < 2 ^ 31) × (16 * u + 48 ≤ length rs.old) }
    ensures { rs.new ≡ write_compared t.now u a.0 (comparison_in k) v.0
        rs.old }
{
    let ty = byte(t, a.0 as usize);
    let o = operator_of(k);
    put_record(rs, Node(u), Record::Column(a));
    put_record(rs, Node(u + 1), Record::Literal(ty, v.0));
    put_record(rs, Node(u + 2), Record::Binary(o, Node(u), Node(u + 1)));
}

/// A literal that is false: the root when nothing passes.
pub fn write_false(rs: &mut [u8], n: Node)
    requires { 16 * n.0 + 16 ≤ length rs.old }
    ensures { rs.new ≡ write_record rs.old n.0 (kind.Literal 3 0) }
{
    put_record(rs, n, Record::Literal(3, 0));
}

ghost use Rattle.records.specs.declared.record.Record.TheVariants as kind;

// The conjunct number i of the rebuilt chain: the kept nodes, then the comparisons, three records each, from `used` on.
fn chain_at(nodes: &[u32], kept: usize, used: u32, i: usize) -> u32
    requires { (kept ≤ length nodes.now) × (used < 2 ^ 20) × (i < 2 ^ 20) }
    ensures { result ≡ chain_at nodes.now kept used i }
{
    if i < kept {
        return nodes[i];
    }
    used + 3 * ((i - kept) as u32) + 2
}

/// `fold_and`: the Ands over the chain's `total` conjuncts, left-deep, from record `at` on.
pub fn write_ands(rs: &mut [u8], nodes: &[u32], kept: usize, used: u32, total: usize, at: u32)
    requires { (kept ≤ length nodes.now) × (used < 2 ^ 20) × (total < 2 ^ 20) × (at < 2 ^ 20) × (16 * (at + total)
        ≤ length rs.old + 16) }
    ensures { rs.new ≡ ands_to (chain_at nodes.now kept used) at (total - 1) rs.old }
{
    let mut acc = chain_at(nodes, kept, used, 0);
    let mut u = at;
    for i in 1..total {
        let n = chain_at(nodes, kept, used, i);
        put_record(
            rs,
            Node(u),
            Record::Binary(Operator::And, Node(acc), Node(n)),
        );
        acc = u;
        u += 1;
    }
}
