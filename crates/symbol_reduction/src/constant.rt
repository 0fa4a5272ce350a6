// A constant in the place of a record: a literal 0 or 1, or a null. Only what the evaluators look at is written.
ghost use Rattle.std.specs.Prelude.{◌≡◌, ◌+◌, ◌*◌, ◌≤◌, length};
ghost use Rattle.symbol_reduction.specs.Reduction.{constant_kind, constant_value, with_value};

use records::record::Node;
use three_valued::logic::Truth;

fn constant_kind(s: Truth) -> u8
    ensures { result ≡ constant_kind s }
{
    match s {
        Truth::False => 2,
        Truth::Unknown => 3,
        Truth::True => 2,
    }
}

fn constant_value(s: Truth) -> u8
    ensures { result ≡ constant_value s }
{
    match s {
        Truth::False => 0,
        Truth::Unknown => 0,
        Truth::True => 1,
    }
}

fn put_value(out: &mut [u8], at: usize, kind: u8, value: u8)
    requires { at + 16 ≤ length out.old }
    ensures { out.new ≡ with_value out.old at kind value }
{
    out[at] = kind;
    out[at + 8] = value;
    out[at + 9] = 0;
    out[at + 10] = 0;
    out[at + 11] = 0;
    out[at + 12] = 0;
    out[at + 13] = 0;
    out[at + 14] = 0;
    out[at + 15] = 0;
}

/// Record n becomes the constant s.
pub fn put_constant(out: &mut [u8], n: Node, s: Truth)
    requires { 16 * n.0 + 16 ≤ length out.old }
    ensures { out.new ≡ with_value out.old (16 * n.0) (constant_kind s) (constant_value s) }
{
    put_value(
        out,
        16 * (n.0 as usize),
        constant_kind(s),
        constant_value(s),
    );
}
