// Whether lines contradict each other, so that the merging would say that nothing passes. The merging carries what a column says
// along the equalities, pass by pass; here columns that equalities make equal are one column from the start, so that no passes
// are made. It says the same of whether a row is left:
// labels: one label for columns that equalities make equal;
// told: what the lines say, told to the columns' cells by their labels.
#![tactic(auto)]

ghost use Rattle.std.specs.Prelude.{◌≡◌, ℕ, ◌<◌, ◌≤◌, length, get_or};
ghost use Rattle.truth.specs.FromBytes.{aexpr_of};
ghost use Rattle.constraints.specs.Lined.{lined};
ghost use Rattle.column_constraints.specs.Abstraction.{conjuncts};
ghost use Rattle.column_sets.specs.Index.{Indexed};
ghost use Rattle.merge.specs.Classify.{classify};
ghost use Rattle.rewrite.specs.Told.{ToldConjunct};
ghost use Rattle.reading.specs.Columns.{ColumnsBelow};
ghost use Rattle.column_table.specs.Rows.{stride};
ghost use Rattle.column_table.specs.State.{collect_to};
ghost use Rattle.contradiction.specs.Labels.{dead};

pub mod labels;
pub mod told;

use crate::labels::{label_lines, number_columns};
use crate::told::tell_lines;
use column_table::words::CELLS;
use limits::COLUMNS;
use resolve_columns::conclude::resolve_all;

/// The first n of `nodes` are the lines; `told` is what they say, `index` is the index of the lists or
/// has none, `marks` has room for the columns' numbers.
pub fn contradict(
    rs: &[u8],
    p: &[u8],
    nodes: &[u32],
    n: usize,
    told: &[u64],
    index: &[u64],
    marks: &mut [u8],
) -> bool
    requires n_bound { (n ≤ stride marks.old) × (stride marks.old ≤ 128) × (n ≤ length nodes.now)
        × Indexed told.now p.now index.now }
    requires by_index { (i : ℕ) → i < n → ToldConjunct (conjuncts told.now p.now) i
        (classify (aexpr_of rs.now p.now) (get_or nodes.now i 0)) }
    requires by_index_2 { (i : ℕ) → i < n → ColumnsBelow 64 (classify (aexpr_of rs.now p.now) (get_or nodes.now i 0)) }
    ensures { result ≡ dead lined (collect_to (aexpr_of rs.now p.now) nodes.now n) }
{
    let mut cells = [0u64; CELLS];
    let mut labels = [0u32; COLUMNS];
    let mut order = [0u32; COLUMNS];
    number_columns(&mut labels);
    number_columns(&mut order);
    label_lines(rs, nodes, n, &mut labels);
    let stopped = tell_lines(rs, p, nodes, n, told, &labels, &mut cells, marks);
    if stopped {
        return true;
    }
    let r = resolve_all(index, told, p, &mut cells, marks, &order, 64);
    r.unsat
}
