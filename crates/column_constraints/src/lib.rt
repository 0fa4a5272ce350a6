// `ColumnConstraints` of the Rust: the two bounds (`bound`), the column that holds them (`column`). specs/Abstraction.antt says
// which column of values a struct stands for.
#![tactic(auto)]

pub mod bound;
pub mod column;
