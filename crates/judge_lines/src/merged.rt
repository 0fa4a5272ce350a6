// Whether lines let nothing pass, of plain lines exactly if no row does.
ghost use Rattle.std.specs.Prelude.{◌≡◌, ℕ, ◌<◌, ◌≤◌, length, get_or};
ghost use Rattle.truth.specs.FromBytes.{aexpr_of};
ghost use Rattle.column_constraints.specs.Abstraction.{conjuncts};
ghost use Rattle.column_sets.specs.Index.{Indexed};
ghost use Rattle.merge.specs.Classify.{classify};
ghost use Rattle.read_operands.specs.Walk.{first_of};
ghost use Rattle.rewrite.specs.Told.{ToldConjunct};
ghost use Rattle.reading.specs.Columns.{ColumnsBelow};
ghost use Rattle.column_table.specs.Rows.{stride};
ghost use Rattle.judge_lines.specs.Lines.{nothing_passes};

use contradiction::contradict;

/// The first n of `nodes` are the lines; `told` is what they say, `index` is the index of the lists or
/// has none, `marks` has room for the columns' numbers.
pub fn lets_nothing_pass(
    rs: &[u8],
    p: &[u8],
    nodes: &[u32],
    n: usize,
    told: &[u64],
    index: &[u64],
    marks: &mut [u8],
) -> bool
    requires n_bound { (n ≤ stride marks.old) × (stride marks.old ≤ 128) × (n ≤ length nodes.now)
        × Indexed told.now p.now index.now }
    requires by_index { (i : ℕ) → i < n → ToldConjunct (conjuncts told.now p.now) i
        (classify (aexpr_of rs.now p.now) (get_or nodes.now i 0)) }
    requires by_index_2 { (i : ℕ) → i < n → ColumnsBelow 64 (classify (aexpr_of rs.now p.now) (get_or nodes.now i 0)) }
    ensures { result ≡ nothing_passes (aexpr_of rs.now p.now) (first_of nodes.now n) }
{
    contradict(rs, p, nodes, n, told, index, marks)
}
