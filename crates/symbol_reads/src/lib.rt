//! The columns that a screen reads beside a text pool (02, 2.10).
#![tactic(auto)]

ghost use Rattle.std.specs.Prelude.{◌≡◌};
ghost use Rattle.checking.specs.ReadAnswer.{columns_answered};
ghost use Rattle.symbol_screens.specs.Rewriting.{lent};
ghost use Rattle.symbol_rows.specs.ColumnsWith.{columns_answer_in};

use check_lent::check_lent;
use checking::reads::{ColumnsRead, columns_word};
use records::record::Node;
use refusal::Refusal;

/// The columns that the root reaches.
pub fn columns_read_with(
    t: &[u8],
    rs: &[u8],
    p: &[u8],
    text: &[u8],
    used: u64,
    root: u64,
) -> Result<ColumnsRead, Refusal>
    ensures { columns_answered result ≡ columns_answer_in (lent text.now) t.now rs.now p.now used
        root }
{
    check_lent(t, rs, p, text.len(), used, root)?;
    let word = columns_word(rs, Node(root as u32));
    Ok(ColumnsRead {
        word,
        count: u64::count_ones(word) as u64,
    })
}
