// `Operator` of src/dsl/expr/mod.rs, its variants in the Rust's order; a binary record holds its place there as a code.
// Its methods answer as the Rust's.
ghost use Rattle.std.specs.Prelude.{◌≡◌, ◌<◌};
ghost use Rattle.records.specs.Operator.{code_of, operator_at};
ghost use Rattle.records.specs.Operator as operator;

#[derive(Clone, Copy, PartialEq, Eq)]
pub enum Operator {
    Eq,
    EqValidity,
    NotEq,
    NotEqValidity,
    Lt,
    LtEq,
    Gt,
    GtEq,
    Plus,
    Minus,
    Multiply,
    RustDivide,
    TrueDivide,
    FloorDivide,
    Modulus,
    And,
    Or,
    Xor,
    LogicalAnd,
    LogicalOr,
}

impl Operator {
    // The code of an operator in a binary record.
    pub fn code(self) -> u8
        ensures { result ≡ code_of self }
    {
        self as u8
    }

    // Eq to GtEq: they take two values of one type.
    pub fn is_comparison(self) -> bool
        ensures { result ≡ operator.is_comparison self }
    {
        self.code() <= 7
    }

    // Plus to TrueDivide: left out, refused with number 6.
    pub fn is_left_out(self) -> bool
        ensures { result ≡ operator.is_left_out self }
    {
        matches!(self.code(), 8..=12)
    }

    // Comparisons for which a null operand gives null. The validity variants take null as a value.
    pub fn is_null_propagating_comparison(self) -> bool
        ensures { result ≡ operator.is_null_propagating_comparison self }
    {
        match self {
            Operator::Eq
            | Operator::NotEq
            | Operator::Lt
            | Operator::LtEq
            | Operator::Gt
            | Operator::GtEq => true,
            _ => false,
        }
    }

    // The operator such that `b op.swap_operands() a` is equivalent to `a op b`; arithmetic that does not commute has
    // none.
    pub fn swap_operands(self) -> Option<Operator>
        ensures { result ≡ operator.swap_operands self }
    {
        match self {
            Operator::Lt => Some(Operator::Gt),
            Operator::LtEq => Some(Operator::GtEq),
            Operator::Gt => Some(Operator::Lt),
            Operator::GtEq => Some(Operator::LtEq),
            Operator::Minus
            | Operator::RustDivide
            | Operator::TrueDivide
            | Operator::FloorDivide
            | Operator::Modulus => None,
            _ => Some(self),
        }
    }

    // The operator such that `a op.negate() b` is equivalent to `!(a op b)`; only a comparison has one.
    pub fn negate(self) -> Option<Operator>
        ensures { result ≡ operator.negate self }
    {
        match self {
            Operator::Eq => Some(Operator::NotEq),
            Operator::EqValidity => Some(Operator::NotEqValidity),
            Operator::NotEq => Some(Operator::Eq),
            Operator::NotEqValidity => Some(Operator::EqValidity),
            Operator::Lt => Some(Operator::GtEq),
            Operator::LtEq => Some(Operator::Gt),
            Operator::Gt => Some(Operator::LtEq),
            Operator::GtEq => Some(Operator::Lt),
            _ => None,
        }
    }
}

// The operator of a code. Checking refuses codes above 19; here they read as `Eq`.
#[tactic(auto, unfolding(crate::specs::Operator::operator_at))]
pub fn operator_at(code: u8) -> Operator
    ensures { result ≡ operator_at code }
{
    match code {
        0 => Operator::Eq,
        1 => Operator::EqValidity,
        2 => Operator::NotEq,
        3 => Operator::NotEqValidity,
        4 => Operator::Lt,
        5 => Operator::LtEq,
        6 => Operator::Gt,
        7 => Operator::GtEq,
        8 => Operator::Plus,
        9 => Operator::Minus,
        10 => Operator::Multiply,
        11 => Operator::RustDivide,
        12 => Operator::TrueDivide,
        13 => Operator::FloorDivide,
        14 => Operator::Modulus,
        15 => Operator::And,
        16 => Operator::Or,
        17 => Operator::Xor,
        18 => Operator::LogicalAnd,
        19 => Operator::LogicalOr,
        _ => Operator::Eq,
    }
}
