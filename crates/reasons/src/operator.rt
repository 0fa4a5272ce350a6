// The variant names of `Operator`, each with the blank behind it.
ghost use Rattle.std.specs.Prelude.{◌≡◌, [], ◌∷◌, ◌++◌, ◌+◌, ◌≤◌, length};
ghost use Rattle.merge.specs.Write.{splice};
ghost use Rattle.read_operands.specs.Read.{comparison_in};
ghost use Rattle.reasons.specs.Text.{operator_name};

use read_operands::operands::Comparison;

/// How many bytes the operator's name has.
pub fn operator_length(k: Comparison) -> usize
    ensures value { result ≡ length (operator_name (comparison_in k)) }
    ensures upper_bound { result ≤ 5 }
{
    match k {
        Comparison::Eq => 2,
        Comparison::NotEq => 5,
        Comparison::Lt => 2,
        Comparison::LtEq => 4,
        Comparison::Gt => 2,
        Comparison::GtEq => 4,
    }
}

fn put_three(s: &mut [u8], at: usize, a: u8, b: u8, c: u8) -> usize
    requires { at + 3 ≤ length s.old }
    ensures value { result ≡ at + 3 }
    ensures s_after { s.new ≡ splice s.old at (a ∷ b ∷ c ∷ []) }
{
    s[at] = a;
    s[at + 1] = b;
    s[at + 2] = c;
    at + 3
}

fn put_two(s: &mut [u8], at: usize, a: u8, b: u8) -> usize
    requires { at + 2 ≤ length s.old }
    ensures value { result ≡ at + 2 }
    ensures s_after { s.new ≡ splice s.old at (a ∷ b ∷ []) }
{
    s[at] = a;
    s[at + 1] = b;
    at + 2
}

/// The operator's name from `at` on, and a blank; the place behind.
pub fn write_operator(s: &mut [u8], at: usize, k: Comparison) -> usize
    requires { at + length (operator_name (comparison_in k)) + 1 ≤ length s.old }
    ensures value { result ≡ at + length (operator_name (comparison_in k)) + 1 }
    ensures s_after { s.new ≡ splice s.old at (operator_name (comparison_in k) ++ (32 ∷ [])) }
{
    match k {
        Comparison::Eq => put_three(s, at, b'E', b'q', b' '),
        Comparison::NotEq => {
            let next = put_three(s, at, b'N', b'o', b't');
            put_three(s, next, b'E', b'q', b' ')
        }
        Comparison::Lt => put_three(s, at, b'L', b't', b' '),
        Comparison::LtEq => {
            let next = put_two(s, at, b'L', b't');
            put_three(s, next, b'E', b'q', b' ')
        }
        Comparison::Gt => put_three(s, at, b'G', b't', b' '),
        Comparison::GtEq => {
            let next = put_two(s, at, b'G', b't');
            put_three(s, next, b'E', b'q', b' ')
        }
    }
}
