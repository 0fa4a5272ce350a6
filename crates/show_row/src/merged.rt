// The merging of the lines, and the row that its resolved columns give.
ghost use Rattle.std.specs.Prelude.{◌≡◌, false, List, ℕ, ◌*◌, ◌<◌, ◌≤◌, length, get_or};
ghost use Rattle.truth.specs.FromBytes.{aexpr_of};
ghost use Rattle.constraints.specs.Lined.{lined};
ghost use Rattle.column_constraints.specs.Abstraction.{conjuncts};
ghost use Rattle.column_sets.specs.Index.{Indexed};
ghost use Rattle.column_table.specs.State.{ColumnTable, Shows, Fits, EdgesBelow, edges_of, Resolved};
ghost use Rattle.column_table.specs.Words.{columns_of};
ghost use Rattle.merge.specs.Classify.{classify};
ghost use Rattle.merge.specs.Collect.{is_in};
ghost use Rattle.merge.specs.Propagate.{propagate};
ghost use Rattle.read_operands.specs.Walk.{first_of};
ghost use Rattle.rewrite.specs.Told.{ToldConjunct};
ghost use Rattle.reading.specs.Columns.{ColumnsBelow};
ghost use Rattle.column_table.specs.Rows.{stride};
ghost use Rattle.show_row.specs.Answer.{row_answer, shown_bytes};
ghost use Rattle.show_row.specs.Calls.{row_out};
ghost use Rattle.show_row.specs.Low.{LowWholes};
ghost use Rattle.show_row.specs.ShowAnswer.{row_found};

use collect_constraints::collect::collect;
use column_table::words::CELLS;
use limits::CONJUNCTS;
use propagate_equalities::propagate::propagate_equalities;
use resolve_columns::conclude::{ResolvedColumns, resolve_all};
use write_places::write_places;

// Stages 2 and 3 of the merging: the equalities are followed, then what was deferred is resolved.
fn propagate_and_resolve(
    index: &[u64],
    told: &[u64],
    p: &[u8],
    cells: &mut [u64],
    marks: &mut [u8],
    order: &[u32],
    lefts: &[u32],
    rights: &[u32],
    edges: usize,
    columns: usize,
) -> ResolvedColumns
    requires fits { Fits cells.old marks.old × (edges ≤ length lefts.now) × (edges ≤ length rights.now)
        × (columns ≤ length order.now) × (columns ≤ 256) × Indexed told.now p.now index.now }
    requires edges_below { EdgesBelow lefts.now rights.now edges }
    requires by_index { (o : ℕ) → o < columns → (get_or order.now o 0 < 64) ×
        (is_in (get_or order.now o 0) (first_of order.now o) ≡ false) }
    ensures resolved { let t = conjuncts told.now p.now in (T : ColumnTable) (equals : List ℕ) →
        Shows t (columns_of cells.old) marks.old T →
        Resolved t (columns_of cells.new) marks.new (first_of order.now columns) false
        result.unsat result.total
        (propagate lined columns (edges_of lefts.now rights.now equals edges) T) }
    ensures cells_len { length cells.new ≡ 448 }
{
    propagate_equalities(index, told, p, cells, marks, lefts, rights, edges, columns);
    resolve_all(index, told, p, cells, marks, order, columns)
}

/// The first n of `nodes` are the lines of a plain screen; `told` is what they say, `index` is the
/// index of the lists or has none, `marks` has room for the columns' numbers, `row` has room for the columns' places.
pub fn show_lines(
    rs: &[u8],
    p: &[u8],
    nodes: &[u32],
    n: usize,
    told: &[u64],
    index: &[u64],
    marks: &mut [u8],
    columns: usize,
    row: &mut [u8],
) -> Option<u64>
    requires n_bound { (n ≤ stride marks.old) × (stride marks.old ≤ 128) × (n ≤ length nodes.now)
        × Indexed told.now p.now index.now × (columns ≤ 64) × (16 * columns ≤ length row.old) }
    requires by_index { (i : ℕ) → i < n → ToldConjunct (conjuncts told.now p.now) i
        (classify (aexpr_of rs.now p.now) (get_or nodes.now i 0)) }
    requires by_index_2 { (i : ℕ) → i < n → ColumnsBelow 64 (classify (aexpr_of rs.now p.now) (get_or nodes.now i 0)) }
    ensures value { row_found result ≡ row_answer (aexpr_of rs.now p.now) (first_of nodes.now n) columns }
    ensures row_after { row.new ≡ row_out (row_found result) (shown_bytes (aexpr_of rs.now p.now)
        (first_of nodes.now n) columns) row.old }
    ensures low_wholes { LowWholes (row_found result) (aexpr_of rs.now p.now) (first_of nodes.now n) columns }
{
    let mut cells = [0u64; CELLS];
    let mut order = [0u32; 2 * CONJUNCTS];
    let mut kept = [0u32; CONJUNCTS];
    let mut lefts = [0u32; CONJUNCTS];
    let mut rights = [0u32; CONJUNCTS];
    let mut equals = [0u32; CONJUNCTS];
    let s = collect(
        rs,
        p,
        nodes,
        n,
        told,
        &mut cells,
        marks,
        &mut order,
        &mut kept,
        &mut lefts,
        &mut rights,
        &mut equals,
    );
    if s.unsat {
        return None;
    }
    let r = propagate_and_resolve(
        index, told, p, &mut cells, marks, &order, &lefts, &rights, s.edges, s.columns,
    );
    if r.unsat {
        return None;
    }
    let nulls = write_places(told, p, &cells, marks, &order, s.columns, columns, row);
    Some(nulls)
}
