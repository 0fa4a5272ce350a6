// Number 11, reckoned before a byte is written.
ghost use Rattle.std.specs.Prelude.{◌≡◌, List, ℕ, ◌≤◌, ◌<◌, ◌*◌, length, get_or};
ghost use Rattle.checking.specs.Tree.{sum_at};
ghost use Rattle.merge.specs.Emit.{NothingPasses};
ghost use Rattle.merge.specs.Write.{outcome_bytes};
ghost use Rattle.merge.specs.Rewrite.{written_if};
ghost use Rattle.read_operands.specs.Walk.{first_of};
ghost use Rattle.reckoning.specs.Rewritten.{is_rewritten};
ghost use Rattle.reckoning.specs.Reckon.{room_for, reckoned, reckoned_answer};

use merge::answer::RewriteAnswer;
use records::record::Node;
use rewrite::write::write_false;

fn wide(x: u16) -> usize
    ensures value { result ≡ x }
    ensures upper_bound { result < 65536 }
{
    x as usize
}

// A node past the table has no tree.
fn tree_at(trees: &[u16], n: u32) -> usize
    ensures value { result ≡ get_or trees.now n 0 }
    ensures upper_bound { result < 65536 }
{
    let at = n as usize;
    if at < trees.len() {
        return wide(trees[at]);
    }
    0
}

// The trees of the first `kept` nodes together.
fn kept_trees(trees: &[u16], nodes: &[u32], kept: usize) -> usize
    requires { (kept ≤ length nodes.now) × (kept ≤ 256) }
    ensures value { result ≡ sum_at (λ n. get_or trees.now n 0) (first_of nodes.now kept) }
    ensures upper_bound { result ≤ 65536 * kept }
{
    let mut sum: usize = 0;
    for i in 0..kept {
        sum = sum + tree_at(trees, nodes[i]);
    }
    sum
}

fn room_for(len: usize, used: usize) -> bool
    ensures { result ≡ room_for len used }
{
    (used <= 4096) & (used <= len / 16)
}

/// The answer for a chain of the first `kept` nodes and `total` comparisons; a rebuilt chain has one.
pub fn rebuilt_answer(
    len: usize,
    trees: &[u16],
    nodes: &[u32],
    kept: usize,
    used: u32,
    total: usize,
) -> RewriteAnswer
    requires { (kept ≤ length nodes.now) × (kept ≤ 256) × (used ≤ 4096) × (total ≤ 100000)
        × (0 < total) }
    ensures { result ≡ reckoned len trees.now used (first_of nodes.now kept) total }
{
    let added = 3 * total + (kept + total - 1);
    let end = used as usize + added;
    if !room_for(len, end) {
        return RewriteAnswer::Refused(11);
    }
    if 4096 < kept_trees(trees, nodes, kept) + added {
        return RewriteAnswer::Refused(11);
    }
    RewriteAnswer::Rewritten((end - 1) as u64, end as u64)
}

/// "Nothing passes": the root becomes a false literal behind the used records, if there is room.
pub fn nothing_passes(rs: &mut [u8], used: u32) -> RewriteAnswer
    requires { used ≤ 4096 }
    ensures by_index { (trees : List ℕ) → result ≡ reckoned_answer (length rs.old) trees used NothingPasses }
    ensures by_index_2 { (t : List ℕ) → rs.new ≡ written_if result rs.old
        (outcome_bytes t rs.old used NothingPasses) }
{
    if !room_for(rs.len(), used as usize + 1) {
        return RewriteAnswer::Refused(11);
    }
    write_false(rs, Node(used));
    RewriteAnswer::NothingPasses(used as u64, used as u64 + 1)
}

pub fn is_rewritten(a: RewriteAnswer) -> bool
    ensures { result ≡ is_rewritten a }
{
    match a {
        RewriteAnswer::Refused(_) => false,
        RewriteAnswer::Unchanged => false,
        RewriteAnswer::NothingPasses(_, _) => false,
        RewriteAnswer::Rewritten(_, _) => true,
    }
}
