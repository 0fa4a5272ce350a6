// Each line left out in turn. A line is left out by putting record 0 in its place: that record has no input, so it says
// nothing of any column, and the tables of the lines and the index of their lists stay as they are.
ghost use Rattle.std.specs.Prelude.{◌≡◌, not, ℕ, ◌<◌, ◌≤◌, length, get_or};
ghost use Rattle.truth.specs.FromBytes.{aexpr_of};
ghost use Rattle.column_constraints.specs.Abstraction.{conjuncts};
ghost use Rattle.column_sets.specs.Index.{Indexed};
ghost use Rattle.merge.specs.Classify as c;
ghost use Rattle.read_operands.specs.Walk.{first_of};
ghost use Rattle.rewrite.specs.Told.{ToldConjunct};
ghost use Rattle.reading.specs.Columns.{ColumnsBelow};
ghost use Rattle.column_table.specs.Rows.{stride};
ghost use Rattle.judge_lines.specs.Lines.{without, nothing_passes, first_true};
ghost use Rattle.judge_lines.specs.Answer.{line_answer};
ghost use Rattle.judge_lines.specs.WayAnswer.{way_found};

use crate::answer::Way;
use crate::merged::lets_nothing_pass;

/// The first line whose removal makes some row pass; n if no single one does.
fn first_line(
    rs: &[u8],
    p: &[u8],
    nodes: &mut [u32],
    n: usize,
    told: &[u64],
    index: &[u64],
    marks: &mut [u8],
) -> usize
    requires n_bound { (n ≤ stride marks.old) × (stride marks.old ≤ 128) × (n ≤ length nodes.old)
        × Indexed told.now p.now index.now }
    requires by_index { (i : ℕ) → i < n → ToldConjunct (conjuncts told.now p.now) i
        (c.classify (aexpr_of rs.now p.now) (get_or nodes.old i 0)) }
    requires by_index_2 { (i : ℕ) → i < n → ColumnsBelow 64 (c.classify (aexpr_of rs.now p.now) (get_or nodes.old i 0)) }
    requires p_value { c.classify (aexpr_of rs.now p.now) 0 ≡ c.Opaque 0 }
    ensures { result ≡ first_true (λ i. not (nothing_passes (aexpr_of rs.now p.now)
        (without i (first_of nodes.old n)))) n }
{
    for i in 0..n {
        let node = nodes[i];
        nodes[i] = 0;
        let nothing = lets_nothing_pass(rs, p, nodes, n, told, index, marks);
        nodes[i] = node;
        if !nothing {
            return i;
        }
    }
    n
}

/// What is answered of the lines of a plain screen, the first n of `nodes`.
pub fn judge_lines(
    rs: &[u8],
    p: &[u8],
    nodes: &mut [u32],
    n: usize,
    told: &[u64],
    index: &[u64],
    marks: &mut [u8],
) -> Way
    requires n_bound { (n ≤ stride marks.old) × (stride marks.old ≤ 128) × (n ≤ length nodes.old)
        × Indexed told.now p.now index.now }
    requires by_index { (i : ℕ) → i < n → ToldConjunct (conjuncts told.now p.now) i
        (c.classify (aexpr_of rs.now p.now) (get_or nodes.old i 0)) }
    requires by_index_2 { (i : ℕ) → i < n → ColumnsBelow 64 (c.classify (aexpr_of rs.now p.now) (get_or nodes.old i 0)) }
    requires p_value { c.classify (aexpr_of rs.now p.now) 0 ≡ c.Opaque 0 }
    ensures { way_found result ≡ line_answer (aexpr_of rs.now p.now) (first_of nodes.old n) }
{
    if !lets_nothing_pass(rs, p, nodes, n, told, index, marks) {
        return Way::Passes;
    }
    let i = first_line(rs, p, nodes, n, told, index, marks);
    if i < n {
        return Way::Line(i as u64);
    }
    Way::NoLine
}
