// Show me a row (02, 2.7): the checks in their order, 8, 9, 17 and 14 among them, then the row that the resolved columns
// give. All of a screen without symbols: the C call stands in crate `show_symbols`.
#![tactic(auto)]

ghost use Rattle.std.specs.Prelude.{◌≡◌, true, ℕ, ◌/◌, ◌≤◌, ◌<◌, min, length, get_or};
ghost use Rattle.checking.specs.Check.{check_answer};
ghost use Rattle.checking.specs.Tree.{tree_count};
ghost use Rattle.checking.specs.Answer as check;
ghost use Rattle.truth.specs.FromBytes.{aexpr_at};
ghost use Rattle.merge.specs.Minterms.{minterms};
ghost use Rattle.merge.specs.Plain.{plain_screen};
ghost use Rattle.read_operands.specs.Walk.{walked, first_of};
ghost use Rattle.show_row.specs.Answer.{show_answer};
ghost use Rattle.show_row.specs.Calls.{show_number, show_listed, row_out, nulls_out, screen_bytes, ShowPromise};
ghost use Rattle.show_row.specs.Low.{LowShown};
ghost use Rattle.show_row.specs.ShowAnswer.{row_found, show_answered};

pub mod indexed;
pub mod merged;

use crate::indexed::show_indexed;
use crate::merged::show_lines;
use checking::check::check_counted;
use far_lists::far::travels_far;
use limits::{COLUMNS, CONJUNCTS, FEW_RECORDS, RECORDS};
use minterm_iter::minterms;
use plain::is_plain;
use records::record::Node;
use refusal::Refusal;
use rewrite::literals::read_literals;

// The lines of a plain screen are the first n of `nodes`; the row has room.
fn show_plain(
    t: &[u8],
    rs: &[u8],
    p: &[u8],
    used: u32,
    root: Node,
    nodes: &[u32],
    n: usize,
    row: &mut [u8],
) -> Option<u64>
    requires accepted { check_answer t.now rs.now p.now used root.0 ≡ check.Accepted }
    requires small { tree_count rs.now root.0 ≤ 4096 }
    requires walked { first_of nodes.now n ≡ minterms (walked rs.now) root.0 }
    requires there { (n ≤ 128) × (n ≤ length nodes.now) }
    requires plain { plain_screen t.now (aexpr_at rs.now p.now used) root.0 ≡ true }
    requires room { length t.now ≤ length row.old / 16 }
    ensures value { row_found result ≡ show_answer t.now rs.now p.now used root.0
        (length row.old) }
    ensures row_after { row.new ≡ row_out (row_found result) (screen_bytes t.now rs.now p.now used
        root.0) row.old }
    ensures low_shown { LowShown (row_found result) t.now rs.now p.now used root.0 }
{
    let mut told = [0u64; 2 * CONJUNCTS];
    let mut marks = [0u8; COLUMNS * CONJUNCTS];
    let none = [0u64; 1];
    read_literals(rs, nodes, n, &mut told);
    if travels_far(rs, nodes, n, &told) {
        return show_indexed(rs, p, nodes, n, &told, &mut marks, t.len(), row);
    }
    show_lines(rs, p, nodes, n, &told, &none, &mut marks, t.len(), row)
}

// An accepted screen with a tree of at most 4,096 records: 9, 17, 14, then its row.
fn show_counted(
    t: &[u8],
    rs: &[u8],
    p: &[u8],
    used: u32,
    root: Node,
    row: &mut [u8],
) -> Result<Option<u64>, Refusal>
    requires accepted { check_answer t.now rs.now p.now used root.0 ≡ check.Accepted }
    requires small { tree_count rs.now root.0 ≤ 4096 }
    ensures value { show_answered result ≡ show_answer t.now rs.now p.now used root.0
        (length row.old) }
    ensures row_after { row.new ≡ row_out (show_answered result) (screen_bytes t.now rs.now p.now used
        root.0) row.old }
    ensures low_shown { LowShown (show_answered result) t.now rs.now p.now used root.0 }
{
    let mut nodes = [0u32; CONJUNCTS];
    let n = minterms(rs, root, &mut nodes);
    if 128 < n {
        return Err(Refusal::Conjuncts);
    }
    if !is_plain(t, rs, root, &nodes, n) {
        return Err(Refusal::Plain);
    }
    if row.len() / 16 < t.len() {
        return Err(Refusal::Short);
    }
    Ok(show_plain(t, rs, p, used, root, &nodes, n, row))
}

// An accepted screen: 8, and the rest.
fn show_checked(
    t: &[u8],
    rs: &[u8],
    p: &[u8],
    used: u32,
    root: Node,
    trees: &[u16],
    row: &mut [u8],
) -> Result<Option<u64>, Refusal>
    requires root_value { check_answer t.now rs.now p.now used root.0 ≡ check.Accepted }
    requires counted { (a : ℕ) → a ≤ root.0 → get_or trees.now a 0 ≡ min (tree_count rs.now a) 4097 }
    requires root_in_bounds { root.0 < length trees.now }
    ensures value { show_answered result ≡ show_answer t.now rs.now p.now used root.0
        (length row.old) }
    ensures row_after { row.new ≡ row_out (show_answered result) (screen_bytes t.now rs.now p.now used
        root.0) row.old }
    ensures low_shown { LowShown (show_answered result) t.now rs.now p.now used root.0 }
{
    let top = trees[root.0 as usize];
    if 4096 < top {
        return Err(Refusal::Tree);
    }
    show_counted(t, rs, p, used, root, row)
}

fn show_within(
    t: &[u8],
    rs: &[u8],
    p: &[u8],
    used: u64,
    root: u64,
    types: &mut [u8],
    trees: &mut [u16],
    row: &mut [u8],
) -> Result<Option<u64>, Refusal>
    requires used_in_bounds { used ≤ 4096 → used ≤ length types.old }
    requires used_in_bounds_2 { used ≤ 4096 → used ≤ length trees.old }
    ensures value { show_answered result ≡ show_answer t.now rs.now p.now used root
        (length row.old) }
    ensures row_after { row.new ≡ row_out (show_answered result) (screen_bytes t.now rs.now p.now used
        root) row.old }
    ensures low_shown { LowShown (show_answered result) t.now rs.now p.now used root }
{
    check_counted(t, rs, p, used, root, types, trees)?;
    show_checked(t, rs, p, used as u32, Node(root as u32), trees, row)
}

/// One row that passes a plain screen, into the lent row.
// The tables of checking are as long as the screen needs: most have few records.
fn show_row(
    t: &[u8],
    rs: &[u8],
    p: &[u8],
    used: u64,
    root: u64,
    row: &mut [u8],
) -> Result<Option<u64>, Refusal>
    ensures value { show_answered result ≡ show_answer t.now rs.now p.now used root
        (length row.old) }
    ensures row_after { row.new ≡ row_out (show_answered result) (screen_bytes t.now rs.now p.now used
        root) row.old }
    ensures low_shown { LowShown (show_answered result) t.now rs.now p.now used root }
{
    if used <= 64 {
        let mut few = [0u8; FEW_RECORDS];
        let mut small = [0u16; FEW_RECORDS];
        return show_within(t, rs, p, used, root, &mut few, &mut small, row);
    }
    let mut types = [0u8; RECORDS];
    let mut trees = [0u16; RECORDS];
    show_within(t, rs, p, used, root, &mut types, &mut trees, row)
}

// Below 256: the refusal's number, and nothing is written. 256: no row passes, and nothing is written. 257: the first 16
// bytes a column of `row`, and `nulls`, are a row that passes.
pub fn show_of_screen(
    table: &[u8],
    records: &[u8],
    pool: &[u8],
    used: u64,
    root: u64,
    row: &mut [u8],
    nulls: &mut u64,
) -> u32
    ensures answer { result ≡ show_number (show_answer table.now records.now pool.now
        used root (length row.old)) }
    ensures listed { show_listed result ≡ true }
    ensures row { row.new ≡ row_out (show_answer table.now records.now
        pool.now used root (length row.old)) (screen_bytes table.now
        records.now pool.now used root) row.old }
    ensures nulls { nulls.new ≡ nulls_out (show_answer table.now records.now
        pool.now used root (length row.old)) nulls.old }
    ensures promise { ShowPromise table.now records.now pool.now used root result
        row.old row.new nulls.new }
{
    match show_row(table, records, pool, used, root, row) {
        Err(r) => r.number(),
        Ok(shown) => match shown {
            None => 256,
            Some(marks) => {
                *nulls = marks;
                257
            }
        },
    }
}
