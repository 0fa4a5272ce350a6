// The lines judged with an index of their lists, where it is worth its making; it is large and so has a frame of its own.
ghost use Rattle.std.specs.Prelude.{◌≡◌, true, ℕ, ◌+◌, ◌<◌, ◌≤◌, length, get_or};
ghost use Rattle.truth.specs.FromBytes.{aexpr_of};
ghost use Rattle.column_constraints.specs.Abstraction.{conjuncts};
ghost use Rattle.column_constraints.specs.Abstraction.{starts_in, counts_in};
ghost use Rattle.merge.specs.Classify as c;
ghost use Rattle.read_operands.specs.Walk.{first_of};
ghost use Rattle.rewrite.specs.Told.{ToldConjunct};
ghost use Rattle.reading.specs.Columns.{ColumnsBelow};
ghost use Rattle.column_table.specs.Rows.{stride};
ghost use Rattle.judge_lines.specs.Answer.{line_answer};
ghost use Rattle.judge_lines.specs.WayAnswer.{way_found};

use column_sets::told::{count_at, start_at};
use columns::index::{INDEX, make_index};
use judge_lines::answer::Way;
use judge_lines::lines::judge_lines;

/// Whether n lines' looks for values in lists, each line left out once, may take longer than making an index of the lists;
/// `false` where a list ends behind the places that an index covers. The answer changes no result, only the time.
pub fn looks_often(told: &[u64], n: usize) -> bool
    requires { n ≤ 128 }
    ensures { result ≡ true → (j : ℕ) → j < 128 → get_or (starts_in told.now) j 0 + get_or (counts_in told.entry.now) j 0 ≤ 8192 }
{
    let mut total: usize = 0;
    for j in 0..128 {
        let start = start_at(told, j) as usize;
        let count = count_at(told, j) as usize;
        if 8192 < start + count {
            return false;
        }
        total = total + count;
    }
    40000 < n * total
}

/// `judge_lines` with an index of the lists, each of which ends before place 8192.
pub fn judge_indexed(
    rs: &[u8],
    p: &[u8],
    nodes: &mut [u32],
    n: usize,
    told: &[u64],
    marks: &mut [u8],
) -> Way
    requires n_bound { (n ≤ stride marks.old) × (stride marks.old ≤ 128) × (n ≤ length nodes.old)
        × ((j : ℕ) → j < 128 → get_or (starts_in told.now) j 0 + get_or (counts_in told.now) j 0 ≤ 8192) }
    requires by_index { (i : ℕ) → i < n → ToldConjunct (conjuncts told.now p.now) i
        (c.classify (aexpr_of rs.now p.now) (get_or nodes.old i 0)) }
    requires by_index_2 { (i : ℕ) → i < n → ColumnsBelow 64 (c.classify (aexpr_of rs.now p.now) (get_or nodes.old i 0)) }
    requires p_value { c.classify (aexpr_of rs.now p.now) 0 ≡ c.Opaque 0 }
    ensures { way_found result ≡ line_answer (aexpr_of rs.now p.now) (first_of nodes.old n) }
{
    let mut index = [0u64; INDEX];
    make_index(told, p, &mut index);
    judge_lines(rs, p, nodes, n, told, &index, marks)
}
