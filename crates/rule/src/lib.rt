// Rewriting a screen: the checks in 01's order, 8 and 9 among them, then the merging. A screen with symbols goes the same way up
// to the merging, so that each step has one caller. Checking takes every screen as one without symbols first, as most are.
#![tactic(auto)]

ghost use Rattle.std.specs.Prelude.{◌≡◌, false, ℕ, ◌≤◌, ◌<◌, min, length, get_or};
ghost use Rattle.checking.specs.Check.{check_answer_in};
ghost use Rattle.checking.specs.Tree.{tree_count};
ghost use Rattle.checking.specs.Answer as check;
ghost use Rattle.merge.specs.Demand.{AreBytes};
ghost use Rattle.merge.specs.declared.answer.RewriteAnswer.TheVariants as answer;
ghost use Rattle.symbol_screens.proofs.NumbersChecked.{NoText};
ghost use Rattle.symbol_screens.specs.Rewriting.{lent};
ghost use Rattle.symbol_merge.specs.Explains.{Explains};

use check_lent::check_beside;
use limits::{CONJUNCTS, FEW_CONJUNCTS, FEW_RECORDS, RECORDS};
use merge::answer::{RewriteAnswer, Rewriting};
use merge_conjuncts::sized::{ALL_MARKS, FEW_MARKS, TWICE_ALL, TWICE_FEW, merge_in};
use minterm_iter::minterms;
use records::record::Node;
use rewrite_symbols::merge_sized;

fn refused(number: u32) -> Rewriting
    ensures answer_value { result.answer ≡ answer.Refused number }
    ensures length_value { result.length ≡ 0 }
{
    Rewriting {
        answer: RewriteAnswer::Refused(number),
        passes: 0,
        length: 0,
    }
}

// An accepted screen with a tree of at most 4,096 records: 9, then the merging of its conjuncts. `trees` has the tree
// counts of the records up to the root. It has no symbols where `symbols` is false.
fn rewrite_counted(
    t: &[u8],
    rs: &mut [u8],
    p: &[u8],
    text: &[u8],
    symbols: bool,
    used: u32,
    root: Node,
    trees: &[u16],
    reasons: &mut [u8],
) -> Rewriting
    requires accepted { check_answer_in (lent text.now) t.now rs.old p.now used root.0 ≡ check.Accepted }
    requires free { symbols ≡ false → (length text.now ≤ 8192) × NoText t.now rs.old used }
    requires counted { (a : ℕ) → a ≤ root.0 → get_or trees.now a 0 ≡ min (tree_count rs.old a) 4097 }
    requires small { tree_count rs.old root.0 ≤ 4096 }
    ensures explains { AreBytes text.now → Explains text.now t.now rs.old
        p.now used root.0 reasons.old result rs.new reasons.new }
{
    let mut nodes = [0u32; CONJUNCTS];
    let n = minterms(rs, root, &mut nodes);
    if 128 < n {
        return refused(9);
    }
    if n <= 16 {
        if symbols {
            return merge_sized(t, rs, p, text, used, root, trees, &nodes, n, reasons);
        }
        return merge_in::<FEW_CONJUNCTS, TWICE_FEW, FEW_MARKS>(
            t, rs, p, used, root, trees, &nodes, n, reasons,
        );
    }
    if symbols {
        return merge_sized(t, rs, p, text, used, root, trees, &nodes, n, reasons);
    }
    merge_in::<CONJUNCTS, TWICE_ALL, ALL_MARKS>(t, rs, p, used, root, trees, &nodes, n, reasons)
}

// An accepted screen: 8, and the rest. `trees` has the tree counts of its records; the merging adds up those of the nodes
// that it keeps.
fn rewrite_checked(
    t: &[u8],
    rs: &mut [u8],
    p: &[u8],
    text: &[u8],
    symbols: bool,
    used: u32,
    root: Node,
    trees: &[u16],
    reasons: &mut [u8],
) -> Rewriting
    requires accepted { check_answer_in (lent text.now) t.now rs.old p.now used root.0 ≡ check.Accepted }
    requires free { symbols ≡ false → (length text.now ≤ 8192) × NoText t.now rs.old used }
    requires counted { (a : ℕ) → a ≤ root.0 → get_or trees.now a 0 ≡ min (tree_count rs.old a) 4097 }
    requires there { root.0 < length trees.now }
    ensures explains { AreBytes text.now → Explains text.now t.now rs.old
        p.now used root.0 reasons.old result rs.new reasons.new }
{
    let top = trees[root.0 as usize];
    if 4096 < top {
        return refused(8);
    }
    rewrite_counted(t, rs, p, text, symbols, used, root, trees, reasons)
}

// 1 to 7, and the rest. `types` and `trees` are room for checking.
fn rewrite_within(
    t: &[u8],
    rs: &mut [u8],
    p: &[u8],
    text: &[u8],
    used: u64,
    root: u64,
    types: &mut [u8],
    trees: &mut [u16],
    reasons: &mut [u8],
) -> Rewriting
    requires used_in_bounds { used ≤ 4096 → used ≤ length types.old }
    requires used_in_bounds_2 { used ≤ 4096 → used ≤ length trees.old }
    ensures explains { AreBytes text.now → Explains text.now t.now rs.old
        p.now used root reasons.old result rs.new reasons.new }
{
    let fault = check_beside(t, rs, p, text.len(), used, root, types, trees);
    if fault % 8 != 0 {
        return refused(fault % 8);
    }
    rewrite_checked(
        t,
        rs,
        p,
        text,
        fault != 0,
        used as u32,
        Node(root as u32),
        trees,
        reasons,
    )
}

/// The answer of rewriting, with the passes that it made and the length of the text; `rs` is written only if it is
/// `NothingPasses` or `Rewritten`, `reasons` only if it is `Rewritten`. `text` is the text pool: a screen without symbols is
/// merged as it stands, whatever is lent.
// The tables of checking are as long as the screen needs: most have few records.
pub fn rewrite_screen(
    t: &[u8],
    rs: &mut [u8],
    p: &[u8],
    text: &[u8],
    used: u64,
    root: u64,
    reasons: &mut [u8],
) -> Rewriting
    ensures explains { AreBytes text.now → Explains text.now t.now rs.old
        p.now used root reasons.old result rs.new reasons.new }
{
    if used <= 64 {
        let mut few = [0u8; FEW_RECORDS];
        let mut small = [0u16; FEW_RECORDS];
        return rewrite_within(t, rs, p, text, used, root, &mut few, &mut small, reasons);
    }
    let mut types = [0u8; RECORDS];
    let mut trees = [0u16; RECORDS];
    rewrite_within(t, rs, p, text, used, root, &mut types, &mut trees, reasons)
}
