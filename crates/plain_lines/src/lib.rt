// What the calls that go through a plain screen line by line do first: the checks in their order, 8, 9 and 17 among them, then
// the lines, that is the conjuncts counted from 0.
#![tactic(auto)]

ghost use Rattle.std.specs.Prelude.{◌≡◌, ℕ, ◌≤◌, ◌<◌, min, length, get_or};
ghost use Rattle.checking.specs.Check.{check_answer};
ghost use Rattle.checking.specs.Tree.{tree_count};
ghost use Rattle.checking.specs.Answer as check;
ghost use Rattle.plain_lines.specs.Refusal.{plain_refusal, refusal_in, LinesIn};

use checking::check::check_counted;
use limits::{FEW_RECORDS, RECORDS};
use minterm_iter::minterms;
use plain::is_plain;
use records::record::Node;
use refusal::Refusal;

// An accepted screen with a tree of at most 4,096 records: 9, then 17.
fn lines_counted(
    t: &[u8],
    rs: &[u8],
    p: &[u8],
    used: u32,
    root: Node,
    nodes: &mut [u32],
) -> Result<u32, Refusal>
    requires accepted { check_answer t.now rs.now p.now used root.0 ≡ check.Accepted }
    requires small { tree_count rs.now root.0 ≤ 4096 }
    requires room { 128 ≤ length nodes.old }
    ensures answer { refusal_in result ≡ plain_refusal t.now rs.now p.now used root.0 }
    ensures lines { LinesIn rs.now root.0 nodes.new result }
{
    let n = minterms(rs, root, nodes);
    if 128 < n {
        return Err(Refusal::Conjuncts);
    }
    if !is_plain(t, rs, root, nodes, n) {
        return Err(Refusal::Plain);
    }
    Ok(n as u32)
}

// An accepted screen: 8, and the rest.
fn lines_checked(
    t: &[u8],
    rs: &[u8],
    p: &[u8],
    used: u32,
    root: Node,
    trees: &[u16],
    nodes: &mut [u32],
) -> Result<u32, Refusal>
    requires root_value { check_answer t.now rs.now p.now used root.0 ≡ check.Accepted }
    requires counted { (a : ℕ) → a ≤ root.0 → get_or trees.now a 0 ≡ min (tree_count rs.now a) 4097 }
    requires root_in_bounds { root.0 < length trees.now }
    requires in_bounds { 128 ≤ length nodes.old }
    ensures answer { refusal_in result ≡ plain_refusal t.now rs.now p.now used root.0 }
    ensures lines { LinesIn rs.now root.0 nodes.new result }
{
    let top = trees[root.0 as usize];
    if 4096 < top {
        return Err(Refusal::Tree);
    }
    lines_counted(t, rs, p, used, root, nodes)
}

fn lines_within(
    t: &[u8],
    rs: &[u8],
    p: &[u8],
    used: u64,
    root: u64,
    types: &mut [u8],
    trees: &mut [u16],
    nodes: &mut [u32],
) -> Result<u32, Refusal>
    requires used_in_bounds { used ≤ 4096 → used ≤ length types.old }
    requires used_in_bounds_2 { used ≤ 4096 → used ≤ length trees.old }
    requires in_bounds { 128 ≤ length nodes.old }
    ensures answer { refusal_in result ≡ plain_refusal t.now rs.now p.now used root }
    ensures lines { LinesIn rs.now root nodes.new result }
{
    check_counted(t, rs, p, used, root, types, trees)?;
    lines_checked(t, rs, p, used as u32, Node(root as u32), trees, nodes)
}

/// The lines of a plain screen, into `nodes`: how many there are.
// The tables of checking are as long as the screen needs: most have few records.
pub fn plain_lines(
    t: &[u8],
    rs: &[u8],
    p: &[u8],
    used: u64,
    root: u64,
    nodes: &mut [u32],
) -> Result<u32, Refusal>
    requires room { 128 ≤ length nodes.old }
    ensures answer { refusal_in result ≡ plain_refusal t.now rs.now p.now used root }
    ensures lines { LinesIn rs.now root nodes.new result }
{
    if used <= 64 {
        let mut few = [0u8; FEW_RECORDS];
        let mut small = [0u16; FEW_RECORDS];
        return lines_within(t, rs, p, used, root, &mut few, &mut small, nodes);
    }
    let mut types = [0u8; RECORDS];
    let mut trees = [0u16; RECORDS];
    lines_within(t, rs, p, used, root, &mut types, &mut trees, nodes)
}
