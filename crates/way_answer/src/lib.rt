// The answer of the line in the way (02, 2.9): the checks in their order, 8, 9 and 17 among them, then the lines, each left out in
// turn.
#![tactic(auto)]

ghost use Rattle.std.specs.Prelude.{◌≡◌, true, ℕ, ◌≤◌, ◌<◌, min, length, get_or};
ghost use Rattle.checking.specs.Check.{check_answer};
ghost use Rattle.checking.specs.Tree.{tree_count};
ghost use Rattle.checking.specs.Answer as check;
ghost use Rattle.truth.specs.FromBytes.{aexpr_at};
ghost use Rattle.merge.specs.Minterms.{minterms};
ghost use Rattle.merge.specs.Plain.{plain_screen};
ghost use Rattle.read_operands.specs.Walk.{walked, first_of};
ghost use Rattle.judge_lines.specs.WayAnswer.{way_found, way_answered};
ghost use Rattle.way_answer.specs.Answer.{way_answer};

pub mod indexed;

use crate::indexed::{judge_indexed, looks_often};
use checking::check::check_counted;
use judge_lines::answer::Way;
use judge_lines::lines::judge_lines;
use limits::{COLUMNS, CONJUNCTS, FEW_RECORDS, RECORDS};
use minterm_iter::minterms;
use plain::is_plain;
use records::record::Node;
use refusal::Refusal;
use rewrite::literals::read_literals;

// The lines of a plain screen are the first n of `nodes`.
fn judge_plain(
    t: &[u8],
    rs: &[u8],
    p: &[u8],
    used: u32,
    root: Node,
    nodes: &mut [u32],
    n: usize,
) -> Way
    requires accepted { check_answer t.now rs.now p.now used root.0 ≡ check.Accepted }
    requires small { tree_count rs.now root.0 ≤ 4096 }
    requires walked { first_of nodes.old n ≡ minterms (walked rs.now) root.0 }
    requires there { (n ≤ 128) × (n ≤ length nodes.old) }
    requires plain { plain_screen t.now (aexpr_at rs.now p.now used) root.0 ≡ true }
    ensures { way_found result ≡ way_answer t.now rs.now p.now used root.0 }
{
    let mut told = [0u64; 2 * CONJUNCTS];
    let mut marks = [0u8; COLUMNS * CONJUNCTS];
    let none = [0u64; 1];
    read_literals(rs, nodes, n, &mut told);
    if looks_often(&told, n) {
        return judge_indexed(rs, p, nodes, n, &told, &mut marks);
    }
    judge_lines(rs, p, nodes, n, &told, &none, &mut marks)
}

// An accepted screen with a tree of at most 4,096 records: 9, then 17, then its lines.
fn judge_counted(t: &[u8], rs: &[u8], p: &[u8], used: u32, root: Node) -> Result<Way, Refusal>
    requires accepted { check_answer t.now rs.now p.now used root.0 ≡ check.Accepted }
    requires small { tree_count rs.now root.0 ≤ 4096 }
    ensures { way_answered result ≡ way_answer t.now rs.now p.now used root.0 }
{
    let mut nodes = [0u32; CONJUNCTS];
    let n = minterms(rs, root, &mut nodes);
    if 128 < n {
        return Err(Refusal::Conjuncts);
    }
    if !is_plain(t, rs, root, &nodes, n) {
        return Err(Refusal::Plain);
    }
    Ok(judge_plain(t, rs, p, used, root, &mut nodes, n))
}

// An accepted screen: 8, and the rest.
fn judge_checked(
    t: &[u8],
    rs: &[u8],
    p: &[u8],
    used: u32,
    root: Node,
    trees: &[u16],
) -> Result<Way, Refusal>
    requires root_value { check_answer t.now rs.now p.now used root.0 ≡ check.Accepted }
    requires counted { (a : ℕ) → a ≤ root.0 → get_or trees.now a 0 ≡ min (tree_count rs.now a) 4097 }
    requires root_in_bounds { root.0 < length trees.now }
    ensures { way_answered result ≡ way_answer t.now rs.now p.now used root.0 }
{
    let top = trees[root.0 as usize];
    if 4096 < top {
        return Err(Refusal::Tree);
    }
    judge_counted(t, rs, p, used, root)
}

fn judge_within(
    t: &[u8],
    rs: &[u8],
    p: &[u8],
    used: u64,
    root: u64,
    types: &mut [u8],
    trees: &mut [u16],
) -> Result<Way, Refusal>
    requires used_in_bounds { used ≤ 4096 → used ≤ length types.old }
    requires used_in_bounds_2 { used ≤ 4096 → used ≤ length trees.old }
    ensures { way_answered result ≡ way_answer t.now rs.now p.now used root }
{
    check_counted(t, rs, p, used, root, types, trees)?;
    judge_checked(t, rs, p, used as u32, Node(root as u32), trees)
}

/// The first single line whose removal makes some row pass, of a plain screen that lets nothing pass.
// The tables of checking are as long as the screen needs: most have few records.
pub fn line_in_the_way(t: &[u8], rs: &[u8], p: &[u8], used: u64, root: u64) -> Result<Way, Refusal>
    ensures { way_answered result ≡ way_answer t.now rs.now p.now used root }
{
    if used <= 64 {
        let mut few = [0u8; FEW_RECORDS];
        let mut small = [0u16; FEW_RECORDS];
        return judge_within(t, rs, p, used, root, &mut few, &mut small);
    }
    let mut types = [0u8; RECORDS];
    let mut trees = [0u16; RECORDS];
    judge_within(t, rs, p, used, root, &mut types, &mut trees)
}
