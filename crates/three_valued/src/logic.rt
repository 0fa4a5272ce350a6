// The truths of ISO/IEC 9075. And, Or and Xor are three tables, indexed by the codes of the two truths:
// 0 false, 1 unknown, 2 true.
ghost use Rattle.std.specs.Prelude.{◌≡◌, ◌<◌};
ghost use Rattle.three_valued.specs.Logic.{truth_code, truth_of, and3, or3, xor3, not3, of_bool};

#[derive(Clone, Copy, PartialEq, Eq)]
pub enum Truth {
    False,
    Unknown,
    True,
}

const AND: [[u8; 3]; 3] = [[0, 0, 0], [0, 1, 1], [0, 1, 2]];

const OR: [[u8; 3]; 3] = [[0, 1, 2], [1, 1, 2], [2, 2, 2]];

const XOR: [[u8; 3]; 3] = [[0, 1, 2], [1, 1, 1], [2, 1, 0]];

fn truth_code(t: Truth) -> usize
    ensures { result ≡ truth_code t }
{
    match t {
        Truth::False => 0,
        Truth::Unknown => 1,
        Truth::True => 2,
    }
}

fn truth_of(code: u8) -> Truth
    ensures { result ≡ truth_of code }
{
    if code == 0 {
        return Truth::False;
    }
    if code == 1 {
        return Truth::Unknown;
    }
    Truth::True
}

pub fn and_of(a: Truth, b: Truth) -> Truth
    ensures { result ≡ and3 a b }
{
    let i = truth_code(a);
    let j = truth_code(b);
    truth_of(AND[i][j])
}

pub fn or_of(a: Truth, b: Truth) -> Truth
    ensures { result ≡ or3 a b }
{
    let i = truth_code(a);
    let j = truth_code(b);
    truth_of(OR[i][j])
}

pub fn xor_of(a: Truth, b: Truth) -> Truth
    ensures { result ≡ xor3 a b }
{
    let i = truth_code(a);
    let j = truth_code(b);
    truth_of(XOR[i][j])
}

pub fn not_of(t: Truth) -> Truth
    ensures { result ≡ not3 t }
{
    match t {
        Truth::False => Truth::True,
        Truth::Unknown => Truth::Unknown,
        Truth::True => Truth::False,
    }
}

impl From<bool> for Truth {
    ghost from_gives = { λ b t. t ≡ of_bool b };

    fn from(b: bool) -> Truth {
        if b { Truth::True } else { Truth::False }
    }
}
