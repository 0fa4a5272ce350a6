// The merging with tables for few conjuncts, or for as many as a screen may have.
ghost use Rattle.std.specs.Prelude.{◌≡◌, ℕ, ◌*◌, ◌<◌, ◌≤◌, min, length, get_or, false};
ghost use Rattle.checking.specs.Check.{check_answer};
ghost use Rattle.checking.specs.Tree.{tree_count};
ghost use Rattle.checking.specs.Answer as check;
ghost use Rattle.truth.specs.FromBytes.{aexpr_of};
ghost use Rattle.column_constraints.specs.Abstraction.{conjuncts};
ghost use Rattle.filter_constraint.specs.Room.{Room};
ghost use Rattle.merge.specs.Classify.{classify};
ghost use Rattle.merge.specs.Demand.{is_refused};
ghost use Rattle.merge.specs.Minterms.{minterms};
ghost use Rattle.merge.specs.Passes.{rewrite_passes};
ghost use Rattle.reasons.specs.Explained.{explained_answer, explained_bytes, explained_text, text_if, length_if};
ghost use Rattle.read_operands.specs.Walk.{walked, first_of};
ghost use Rattle.rewrite.specs.Told.{ToldConjunct};
ghost use Rattle.reading.specs.Columns.{ColumnsBelow};
ghost use Rattle.column_table.specs.Rows.{stride};
ghost use Rattle.merge_conjuncts.specs.Merged.{MergedNodes};

use far_lists::far::travels_far;
use filter_constraint::indexed::merge_indexed;
use filter_constraint::merging::merge_filter_constraints;
use limits::{COLUMNS, CONJUNCTS, FEW_CONJUNCTS};
use merge::answer::Rewriting;
use records::record::Node;
use rewrite::literals::read_literals;

// The merging of conjuncts whose literals are read. Inlined where the tables are: a call passes its slices in memory.
#[inline(always)]
fn merge_read(
    t: &[u8],
    rs: &mut [u8],
    p: &[u8],
    used: u32,
    trees: &[u16],
    nodes: &[u32],
    n: usize,
    told: &[u64],
    marks: &mut [u8],
    order: &mut [u32],
    kept: &mut [u32],
    lefts: &mut [u32],
    rights: &mut [u32],
    equals: &mut [u32],
    reasons: &mut [u8],
) -> Rewriting
    requires n_bound { (n ≤ stride marks.old) × (stride marks.old ≤ 128) × (used ≤ 4096) × (n ≤ length nodes.now) }
    requires room { Room n order.old kept.old lefts.old rights.old equals.old }
    requires by_index { (i : ℕ) → i < n → ToldConjunct (conjuncts told.now p.now) i
        (classify (aexpr_of rs.old p.now) (get_or nodes.now i 0)) }
    requires by_index_2 { (i : ℕ) → i < n → ColumnsBelow 64 (classify (aexpr_of rs.old p.now) (get_or nodes.now i 0)) }
    ensures { MergedNodes t.now rs.old p.now used trees.now
        nodes.now n reasons.old result rs.new reasons.new }
{
    let empty = [0u8; 0];
    if travels_far(rs, nodes, n, told) {
        return merge_indexed(
            t, rs, p, used, trees, nodes, n, told, marks, order, kept, lefts, rights, equals, told,
            &empty, &empty, reasons,
        );
    }
    let none = [0u64; 1];
    merge_filter_constraints(
        t, rs, p, used, trees, nodes, n, told, &none, marks, order, kept, lefts, rights, equals,
        told, &empty, &empty, reasons,
    )
}

// Two words of a conjunct, which enters at most two columns; and a byte of it in each column's row.
pub const TWICE_FEW: usize = 2 * FEW_CONJUNCTS;

pub const FEW_MARKS: usize = COLUMNS * FEW_CONJUNCTS;

pub const TWICE_ALL: usize = 2 * CONJUNCTS;

pub const ALL_MARKS: usize = COLUMNS * CONJUNCTS;

/// The merging of the first n nodes, the conjuncts of an accepted screen, in tables for N conjuncts, which need TWICE and
/// MARKS. Most screens have few: then the tables and rows for 128 need not be cleared.
pub fn merge_in<const N: usize, const TWICE: usize, const MARKS: usize>(
    t: &[u8],
    rs: &mut [u8],
    p: &[u8],
    used: u32,
    root: Node,
    trees: &[u16],
    nodes: &[u32],
    n: usize,
    reasons: &mut [u8],
) -> Rewriting
    requires accepted { check_answer t.now rs.old p.now used root.0 ≡ check.Accepted }
    requires counted { (a : ℕ) → a ≤ root.0 → get_or trees.now a 0 ≡ min (tree_count rs.old a) 4097 }
    requires small { tree_count rs.old root.0 ≤ 4096 }
    requires walked { first_of nodes.now n ≡ minterms (walked rs.old) root.0 }
    requires sizes { (N ≤ 128) × (TWICE ≡ 2 * N) × (MARKS ≡ 64 * N) }
    requires there { (n ≤ N) × (n ≤ length nodes.now) }
    ensures answer { result.answer ≡ explained_answer t.now rs.old p.now used root.0
        (length reasons.old) }
    ensures bytes { rs.new ≡ explained_bytes t.now rs.old p.now used
        root.0 (length reasons.old) }
    ensures passes { is_refused result.answer ≡ false → result.passes ≡ rewrite_passes rs.old
        p.now used root.0 }
    ensures text { reasons.new ≡ text_if result.answer reasons.old
        (explained_text rs.old p.now used root.0) }
    ensures length { result.length ≡ length_if result.answer (explained_text rs.old p.now used root.0) }
{
    let mut told = [0u64; TWICE];
    let mut marks = [0u8; MARKS];
    let mut order = [0u32; TWICE];
    let mut kept = [0u32; N];
    let mut lefts = [0u32; N];
    let mut rights = [0u32; N];
    let mut equals = [0u32; N];
    read_literals(rs, nodes, n, &mut told);
    merge_read(
        t,
        rs,
        p,
        used,
        trees,
        nodes,
        n,
        &told,
        &mut marks,
        &mut order,
        &mut kept,
        &mut lefts,
        &mut rights,
        &mut equals,
        reasons,
    )
}
