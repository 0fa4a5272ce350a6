// What the calls that go through a plain screen do first where a text pool is lent (02, 2.10): the checks in their order, 8, 9 and 17
// among them; then the screen's numbers, of which everything else is told. Text columns make no screen plain, but records of
// type Text that the root does not reach are allowed, and so are Text columns that it does not read.
#![tactic(auto)]

ghost use Rattle.std.specs.Prelude.{◌≡◌, ℕ, ◌*◌, ◌<◌, ◌≤◌, length, get_or, take};
ghost use Rattle.checking.specs.Checked.{Checked};
ghost use Rattle.plain_lines.specs.Refusal.{checked_refusal};
ghost use Rattle.numbered_screen.specs.Numbered.{Numbered};
ghost use Rattle.refusal.specs.Numbers.{fault};
ghost use Rattle.plain_symbols.specs.Refusal.{refusal_number, plain_refusal_with};

use check_lent::check_lent;
use checking::reads::columns_word;
use limits::CONJUNCTS;
use numbered_screen::{number_records, number_table};
use plain::only_numbers;
use plain_lines::plain_lines;
use records::record::Node;
use refusal::Refusal;

// 8, 9 and 17 of an accepted screen; `table` and `records` are its numbers. A screen that is not plain
// as one of numbers is not plain.
fn numbers_refusal(
    t: &[u8],
    rs: &[u8],
    p: &[u8],
    used: u64,
    root: u64,
    table: &[u8],
    records: &[u8],
) -> Result<(), Refusal>
    requires few { length t.now ≤ 64 }
    requires low { root < 4096 }
    requires numbers { Numbered t.now rs.now used table.now records.now }
    requires accepted { Checked table.now records.now p.now used root }
    ensures { fault result ≡ refusal_number (checked_refusal t.now rs.now p.now used root) }
{
    let mut nodes = [0u32; CONJUNCTS];
    plain_lines(table, records, p, used, root, &mut nodes)?;
    let word = columns_word(records, Node(root as u32));
    if only_numbers(t, word) {
        return Ok(());
    }
    Err(Refusal::Plain)
}

/// The refusal of a screen that is not plain. Of one that is, `table`, as far as the screen has columns, and `records` have the
/// numbers.
pub fn plain_numbers(
    t: &[u8],
    rs: &[u8],
    p: &[u8],
    text: &[u8],
    used: u64,
    root: u64,
    table: &mut [u8],
    records: &mut [u8],
) -> Result<(), Refusal>
    requires columns { 64 ≤ length table.old }
    requires room { used ≤ 4096 → 16 * used ≤ length records.old }
    ensures refusal { fault result ≡ refusal_number (plain_refusal_with text.now t.now rs.now
        p.now used root) }
    ensures numbers { fault result ≡ 0 → Numbered t.now rs.now used
        (take (length t.now) table.new) records.new }
{
    check_lent(t, rs, p, text.len(), used, root)?;
    let n = 16 * (used as usize);
    number_table(t, table);
    number_records(rs, n, records);
    numbers_refusal(t, rs, p, used, root, &table[..t.len()], records)
}
