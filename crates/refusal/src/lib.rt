// Why a call refuses what it is given. A call for C answers the number, which is below 256.
#![tactic(auto)]

ghost use Rattle.std.specs.Prelude.{◌≡◌};
ghost use Rattle.refusal.specs.Numbers.{number};

#[derive(Clone, Copy, PartialEq, Eq, Debug)]
pub enum Refusal {
    Table,
    Size,
    Root,
    Record,
    Reference,
    Operator,
    Types,
    Tree,
    Conjuncts,
    Room,
    RowLength,
    Row,
    Short,
    File,
    Reasons,
    Plain,
    Cells,
    Columns,
    Chain,
    Tally,
}

impl Refusal {
    /// The number of `SCREEN_REFUSED_..` in include/screen.h.
    pub fn number(self) -> u32
        ensures { result ≡ number self }
    {
        match self {
            Refusal::Table => 1,
            Refusal::Size => 2,
            Refusal::Root => 3,
            Refusal::Record => 4,
            Refusal::Reference => 5,
            Refusal::Operator => 6,
            Refusal::Types => 7,
            Refusal::Tree => 8,
            Refusal::Conjuncts => 9,
            Refusal::Room => 11,
            Refusal::RowLength => 12,
            Refusal::Row => 13,
            Refusal::Short => 14,
            Refusal::File => 15,
            Refusal::Reasons => 16,
            Refusal::Plain => 17,
            Refusal::Cells => 18,
            Refusal::Columns => 19,
            Refusal::Chain => 20,
            Refusal::Tally => 21,
        }
    }
}
