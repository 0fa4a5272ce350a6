/// What the search for the line in the way finds: that a row passes already, the first line whose removal makes some row pass, or
/// that no single line does.
#[derive(Clone, Copy)]
pub enum Way {
    Passes,
    Line(u64),
    NoLine,
}
