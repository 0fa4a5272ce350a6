// `MintermIter` as the Rust has it: a struct with the lent records and the nodes still to visit. Its methods are thin:
// the work is done by `rooted` and `next_minterm` (crate next_minterm), on plain slices and stacks. `minterms` has all conjuncts of
// a root from the struct, and serves every other caller.
#![tactic(auto)]

ghost use Rattle.std.specs.Prelude.{◌≡◌, [], ◌∷◌, ℕ, ◌≤◌, min, length};
ghost use Rattle.truth.specs.AExpr.{Inputs};
ghost use Rattle.std.specs.Iterator.{at_most};
ghost use Rattle.merge.specs.Minterms.{minterms, pending};
ghost use Rattle.read_operands.specs.Walk.{walked, first_of};
ghost use Rattle.next_minterm.specs.Iter.{stack_in, Walkable, Next};

use next_minterm::{Over, Stack, next_minterm, rooted, take};
use records::record::Node;

#[derive(Clone, Copy)]
pub struct MintermIter<'a> {
    pub records: &'a [u8],
    pub stack: Stack,
}

impl<'a> MintermIter<'a> {
    pub fn new(root: Node, records: &'a [u8]) -> MintermIter<'a>
        ensures { (result.records ≡ records.entry) × (stack_in result.stack ≡ (root.0 ∷ []))
            × (result.stack.len ≤ 128) }
    {
        MintermIter {
            records,
            stack: rooted(root),
        }
    }
}

impl<'a> Iterator for MintermIter<'a> {
    type Item = Result<Node, Over>;

    ghost can_next = { λ s. Walkable s.records.now s.stack };

    ghost next_gives = { λ s r t. (t.records ≡ s.records)
        × Next (walked s.records.now) (stack_in s.stack) r (stack_in t.stack)
        × Walkable s.records.now t.stack };

    ghost remaining = { λ s. at_most (length (pending (walked s.records.now) (stack_in s.stack))) };

    fn next(&mut self) -> Option<Result<Node, Over>> {
        let depth = self.stack.len;
        let m = next_minterm(self.records, &mut self.stack.nodes, depth);
        self.stack.len = m.depth;
        m.item
    }
}

/// The conjuncts of the root, into `nodes`; how many they are, 129 if more than 128.
pub fn minterms(rs: &[u8], root: Node, nodes: &mut [u32]) -> usize
    requires below { (n : ℕ) → n ≤ root.0 → Inputs n (walked rs.now n) }
    requires room { 128 ≤ length nodes.old }
    ensures counted { result ≡ min (length (minterms (walked rs.now) root.0)) 129 }
    ensures all { length (minterms (walked rs.now) root.0) ≤ 128
        → first_of nodes.new result ≡ minterms (walked rs.now) root.0 }
{
    let mut len: usize = 0;
    for item in MintermIter::new(root, rs) {
        let found = take(nodes, len, Some(item));
        len = found.len;
        if !found.more {
            return len;
        }
    }
    len
}
