// The walk of `MintermIter` (crate minterm_iter) on plain slices and stacks: its first stack, a step, and what a step gives taken
// into an array.
#![tactic(auto)]

ghost use Rattle.std.specs.Prelude.{◌≡◌, [], ◌∷◌, ◌≤◌, length};
ghost use Rattle.read_operands.specs.Walk.{walked, stack_of, InputsBelow};
ghost use Rattle.next_minterm.specs.Iter.{stack_in, Next, Taken};

use limits::CONJUNCTS;
use read_operands::minterms::sides_at;
use records::record::Node;

/// The stack's 128 places do not suffice.
#[derive(Clone, Copy)]
pub struct Over;

/// What one step gives, and how many nodes of the stack are left.
#[derive(Clone, Copy)]
pub struct Minterm {
    pub item: Option<Result<Node, Over>>,
    pub depth: usize,
}

/// The step on the stack of the nodes still to visit, the next one on top: down the left sides of Ands to the first
/// conjunct. What is left of the stack gives the rest. Each node on the stack gives at least one conjunct, so over 128
/// nodes are over 128 conjuncts.
pub fn next_minterm(rs: &[u8], stack: &mut [u32; 128], depth: usize) -> Minterm
    requires { InputsBelow (walked rs.now) (stack_of stack.old depth) × (depth ≤ 128)
        × (length stack.old ≡ 128) }
    ensures { Next (walked rs.now) (stack_of stack.old depth) result.item
        (stack_of stack.new result.depth)
        × InputsBelow (walked rs.now) (stack_of stack.new result.depth) × (result.depth ≤ 128) }
{
    if depth == 0 {
        return Minterm {
            item: None,
            depth: 0,
        };
    }
    let mut left = depth - 1;
    let mut top = stack[left];
    // Down the left sides: how deep they go is not known before.
    while let Some((x, y)) = sides_at(rs, Node(top)) {
        if 127 <= left {
            return Minterm {
                item: Some(Err(Over)),
                depth: 0,
            };
        }
        stack[left] = y.0;
        left += 1;
        top = x.0;
    }
    Minterm {
        item: Some(Ok(Node(top))),
        depth: left,
    }
}

/// The nodes still to visit, the next one last.
#[derive(Clone, Copy)]
pub struct Stack {
    pub nodes: [u32; 128],
    pub len: usize,
}

pub fn rooted(root: Node) -> Stack
    ensures { (stack_in result ≡ (root.0 ∷ [])) × (result.len ≤ 128) }
{
    let mut nodes = [0u32; CONJUNCTS];
    nodes[0] = root.0;
    Stack { nodes, len: 1 }
}

/// How many conjuncts are found, and whether there may be more. 129 stands for more than 128.
#[derive(Clone, Copy)]
pub struct Found {
    pub len: usize,
    pub more: bool,
}

/// An item taken into `nodes`, behind the `len` that are there.
pub fn take(nodes: &mut [u32], len: usize, item: Option<Result<Node, Over>>) -> Found
    requires { 128 ≤ length nodes.old }
    ensures { Taken nodes.old len item nodes.new result.len result.more }
{
    match item {
        None => Found { len, more: false },
        Some(Ok(n)) => {
            if 128 <= len {
                return Found {
                    len: 129,
                    more: false,
                };
            }
            nodes[len] = n.0;
            Found {
                len: len + 1,
                more: true,
            }
        }
        Some(Err(_)) => Found {
            len: 129,
            more: false,
        },
    }
}
