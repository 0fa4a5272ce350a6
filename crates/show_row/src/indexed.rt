// The row shown with an index of the lists, which is large and so has a frame of its own.
ghost use Rattle.std.specs.Prelude.{◌≡◌, ℕ, ◌+◌, ◌*◌, ◌<◌, ◌≤◌, length, get_or};
ghost use Rattle.truth.specs.FromBytes.{aexpr_of};
ghost use Rattle.column_constraints.specs.Abstraction.{conjuncts};
ghost use Rattle.column_constraints.specs.Abstraction.{starts_in, counts_in};
ghost use Rattle.merge.specs.Classify.{classify};
ghost use Rattle.read_operands.specs.Walk.{first_of};
ghost use Rattle.rewrite.specs.Told.{ToldConjunct};
ghost use Rattle.reading.specs.Columns.{ColumnsBelow};
ghost use Rattle.column_table.specs.Rows.{stride};
ghost use Rattle.show_row.specs.Answer.{row_answer, shown_bytes};
ghost use Rattle.show_row.specs.Calls.{row_out};
ghost use Rattle.show_row.specs.Low.{LowWholes};
ghost use Rattle.show_row.specs.ShowAnswer.{row_found};

use crate::merged::show_lines;
use columns::index::{INDEX, make_index};

/// `show_lines` with an index of the lists, each of which ends before place 8192.
pub fn show_indexed(
    rs: &[u8],
    p: &[u8],
    nodes: &[u32],
    n: usize,
    told: &[u64],
    marks: &mut [u8],
    columns: usize,
    row: &mut [u8],
) -> Option<u64>
    requires n_bound { (n ≤ stride marks.old) × (stride marks.old ≤ 128) × (n ≤ length nodes.now)
        × ((j : ℕ) → j < 128 → get_or (starts_in told.now) j 0 + get_or (counts_in told.now) j 0 ≤ 8192) × (columns ≤ 64)
        × (16 * columns ≤ length row.old) }
    requires by_index { (i : ℕ) → i < n → ToldConjunct (conjuncts told.now p.now) i
        (classify (aexpr_of rs.now p.now) (get_or nodes.now i 0)) }
    requires by_index_2 { (i : ℕ) → i < n → ColumnsBelow 64 (classify (aexpr_of rs.now p.now) (get_or nodes.now i 0)) }
    ensures value { row_found result ≡ row_answer (aexpr_of rs.now p.now) (first_of nodes.now n) columns }
    ensures row_after { row.new ≡ row_out (row_found result) (shown_bytes (aexpr_of rs.now p.now)
        (first_of nodes.now n) columns) row.old }
    ensures low_wholes { LowWholes (row_found result) (aexpr_of rs.now p.now) (first_of nodes.now n) columns }
{
    let mut index = [0u64; INDEX];
    make_index(told, p, &mut index);
    show_lines(rs, p, nodes, n, told, &index, marks, columns, row)
}
