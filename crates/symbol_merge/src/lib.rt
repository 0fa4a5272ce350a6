// The merging of a screen with symbols (02, 2.10): that of its screen of ranks, with the literals that its limits stand for.
// The ranks stand in the records lent while they are merged, so that one function merges both kinds of screens.
#![tactic(auto)]

ghost use Rattle.std.specs.Prelude.{◌≡◌, List, map, ℕ, ◌*◌, ◌<◌, ◌≤◌, min, length, get_or};
ghost use Rattle.checking.specs.Check.{check_answer_in};
ghost use Rattle.checking.specs.Tree.{tree_count};
ghost use Rattle.checking.specs.Answer as check;
ghost use Rattle.truth.specs.FromBytes.{aexpr_of};
ghost use Rattle.constraints.specs.Payload.{payload};
ghost use Rattle.column_constraints.specs.Abstraction.{conjuncts, kinds_in, values_in};
ghost use Rattle.filter_constraint.specs.Concluded.{lined_to};
ghost use Rattle.filter_constraint.specs.Merges.{Counts, Merges};
ghost use Rattle.merge.specs.Classify.{classify};
ghost use Rattle.merge.specs.Demand.{AreBytes};
ghost use Rattle.merge.specs.Minterms.{minterms};
ghost use Rattle.merge.specs.Passes.{merge_passes};
ghost use Rattle.read_operands.specs.Walk.{walked, first_of};
ghost use Rattle.ranked_screen.specs.Screen.{RanksOf};
ghost use Rattle.rewrite.specs.Told.{ToldConjunct};
ghost use Rattle.reading.specs.Columns.{ColumnsBelow};
ghost use Rattle.symbol_screens.specs.Rewriting.{lent};
ghost use Rattle.symbol_merge.specs.Explains.{Explains};

use crate::front::{exchange_front, put_front, take_kinds};
use far_lists::far::{travels_far, travels_wide};
use filter_constraint::indexed::{merge_indexed, merge_wide};
use filter_constraint::merging::merge_filter_constraints;
use limits::{COLUMNS, CONJUNCTS};
use merge::answer::Rewriting;
use records::record::Node;
use rewrite::literals::read_literals;

pub mod front;

// The merging of the first n nodes of the screen of ranks, `rs` and `p`.
fn merge_ranks(
    t: &[u8],
    rs: &mut [u8],
    p: &[u8],
    used: u32,
    trees: &[u16],
    nodes: &[u32],
    n: usize,
    told: &[u64],
    bits: &[u64],
    own: &[u8],
    text: &[u8],
    reasons: &mut [u8],
    sorted: &mut [u64],
    scratch: &mut [u64],
) -> Rewriting
    requires n_bound { (n ≤ 128) × (used ≤ 4096) × (n ≤ length nodes.now) × (length sorted.old ≤ 12288)
        × (length sorted.old ≤ length scratch.old) }
    requires by_index { (i : ℕ) → i < n → ToldConjunct (conjuncts told.now p.now) i
        (classify (aexpr_of rs.old p.now) (get_or nodes.now i 0)) }
    requires by_index_2 { (i : ℕ) → i < n → ColumnsBelow 64 (classify (aexpr_of rs.old p.now) (get_or nodes.now i 0)) }
    requires counts { Counts (lined_to (aexpr_of rs.old p.now) nodes.now n)
        (conjuncts told.now p.now) t.now own.now nodes.now (values_in bits.now) }
    requires bits_value { kinds_in bits.now ≡ kinds_in told.now }
    ensures merges { Merges (lined_to (aexpr_of rs.old p.now) nodes.now n)
        (conjuncts told.now p.now)
        t.now rs.old trees.now nodes.now (values_in bits.now) own.now
        text.now reasons.old used result rs.new reasons.new }
    ensures passes_value { result.passes ≡ merge_passes payload (map (classify (aexpr_of rs.old p.now))
        (first_of nodes.now n)) }
{
    let mut marks = [0u8; COLUMNS * CONJUNCTS];
    let mut order = [0u32; 2 * CONJUNCTS];
    let mut kept = [0u32; CONJUNCTS];
    let mut lefts = [0u32; CONJUNCTS];
    let mut rights = [0u32; CONJUNCTS];
    let mut equals = [0u32; CONJUNCTS];
    if travels_far(rs, nodes, n, told) {
        return merge_indexed(
            t,
            rs,
            p,
            used,
            trees,
            nodes,
            n,
            told,
            &mut marks,
            &mut order,
            &mut kept,
            &mut lefts,
            &mut rights,
            &mut equals,
            bits,
            own,
            text,
            reasons,
        );
    }
    if travels_wide(rs, nodes, n, told) {
        if n <= 64 {
            let mut few = [0u8; 4096];
            return merge_wide(
                t,
                rs,
                p,
                used,
                trees,
                nodes,
                n,
                told,
                &mut few,
                &mut order,
                &mut kept,
                &mut lefts,
                &mut rights,
                &mut equals,
                bits,
                own,
                text,
                reasons,
                sorted,
                scratch,
            );
        }
        return merge_wide(
            t,
            rs,
            p,
            used,
            trees,
            nodes,
            n,
            told,
            &mut marks,
            &mut order,
            &mut kept,
            &mut lefts,
            &mut rights,
            &mut equals,
            bits,
            own,
            text,
            reasons,
            sorted,
            scratch,
        );
    }
    let none = [0u64; 1];
    merge_filter_constraints(
        t,
        rs,
        p,
        used,
        trees,
        nodes,
        n,
        told,
        &none,
        &mut marks,
        &mut order,
        &mut kept,
        &mut lefts,
        &mut rights,
        &mut equals,
        bits,
        own,
        text,
        reasons,
    )
}

/// The merging of the first n nodes, the conjuncts of an accepted screen with symbols. `src` and `pool` are its screen of ranks,
/// `text` is the text pool. `src`, `sorted` and `scratch` are overwritten.
pub fn merge_symbols(
    t: &[u8],
    rs: &mut [u8],
    p: &[u8],
    text: &[u8],
    used: u32,
    root: Node,
    trees: &[u16],
    nodes: &[u32],
    n: usize,
    src: &mut [u8],
    pool: &[u8],
    reasons: &mut [u8],
    sorted: &mut [u64],
    scratch: &mut [u64],
) -> Rewriting
    requires accepted { check_answer_in (lent text.now) t.now rs.old p.now used root.0 ≡ check.Accepted }
    requires counted { (a : ℕ) → a ≤ root.0 → get_or trees.now a 0 ≡ min (tree_count rs.old a) 4097 }
    requires small { tree_count rs.old root.0 ≤ 4096 }
    requires walked { first_of nodes.now n ≡ minterms (walked rs.old) root.0 }
    requires there { (n ≤ 128) × (n ≤ length nodes.now) × (length sorted.old ≤ 12288)
        × (length sorted.old ≤ length scratch.old) }
    requires copied { 16 * used ≤ length src.old }
    requires ranked { (values : List ℕ) × (ranks : List ℕ) × RanksOf text.now rs.old p.now used values ranks src.old
        pool.now }
    ensures explains { AreBytes text.now → Explains text.now t.now rs.old
        p.now used root.0 reasons.old result rs.new reasons.new }
{
    let mut told = [0u64; 2 * CONJUNCTS];
    let mut bits = [0u64; 2 * CONJUNCTS];
    let size = 16 * (used as usize);
    exchange_front(rs, src, size);
    read_literals(src, nodes, n, &mut bits);
    read_literals(rs, nodes, n, &mut told);
    take_kinds(&told, n, &mut bits);
    let r = merge_ranks(
        t, rs, pool, used, trees, nodes, n, &told, &bits, src, text, reasons, sorted, scratch,
    );
    put_front(rs, src, size);
    r
}
