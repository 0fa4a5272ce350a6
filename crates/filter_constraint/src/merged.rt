// The stages of the merging up to what it concludes: nothing is written. Each has a function of its own; the table of columns
// is lent to all of them.
ghost use Rattle.std.specs.Prelude.{◌≡◌, true, false, map, ℕ, ◌+◌, ◌*◌, ◌<◌, ◌≤◌, length, get_or, replicate};
ghost use Rattle.truth.specs.FromBytes.{aexpr_of};
ghost use Rattle.constraints.specs.Payload.{payload};
ghost use Rattle.column_constraints.specs.Abstraction.{conjuncts};
ghost use Rattle.column_sets.specs.Index.{Indexed};
ghost use Rattle.column_table.specs.State.{Fits, shown};
ghost use Rattle.column_table.specs.Words.{past_column, columns_of};
ghost use Rattle.merge.specs.Classify.{classify};
ghost use Rattle.merge.specs.Passes.{merge_passes};
ghost use Rattle.read_operands.specs.Walk.{first_of};
ghost use Rattle.rewrite.specs.Told.{ToldConjunct};
ghost use Rattle.reading.specs.Columns.{ColumnsBelow};
ghost use Rattle.column_table.specs.Rows.{stride};
ghost use Rattle.filter_constraint.specs.Concluded.{lined_to, Concluded};
ghost use Rattle.filter_constraint.specs.Room.{Room};

use collect_constraints::collect::collect;
use propagate_equalities::propagate::propagate_equalities;
use resolve_columns::conclude::{keep_equalities, resolve_all};

/// Whether no row can pass; else whether the screen stays as it is; else the chain's kept nodes, columns and comparisons are
/// counted.
#[derive(Clone, Copy)]
pub struct MergedColumns {
    pub unsat: bool,
    pub unchanged: bool,
    pub passes: usize,
    pub columns: usize,
    pub keeps: usize,
    pub total: usize,
}

// What is concluded where a conjunct made its column impossible: no row can pass.
fn stopped(columns: usize, keeps: usize) -> MergedColumns
    ensures { result ≡ record { unsat = true; unchanged = false; passes = 0; columns = columns; keeps = keeps; total = 0 } }
{
    MergedColumns {
        unsat: true,
        unchanged: false,
        passes: 0,
        columns: columns,
        keeps: keeps,
        total: 0,
    }
}

/// The first n of `nodes` are the screen's conjuncts; `told` is what they say. `index` is the index
/// of the lists, or has none. `cells` holds empty columns, and then the resolved ones; `marks` has room for the columns'
/// numbers: 64 rows, n of them in each. `order` has room for two columns a conjunct, `kept`, `lefts`, `rights` and `equals` for
/// the conjuncts.
pub fn merge_columns(
    rs: &[u8],
    p: &[u8],
    nodes: &[u32],
    n: usize,
    told: &[u64],
    index: &[u64],
    cells: &mut [u64],
    marks: &mut [u8],
    order: &mut [u32],
    kept: &mut [u32],
    lefts: &mut [u32],
    rights: &mut [u32],
    equals: &mut [u32],
) -> MergedColumns
    requires n_bound { (n ≤ stride marks.old) × (stride marks.old ≤ 128) × (n ≤ length nodes.now) × (length cells.old ≡ 448)
        × (columns_of cells.old ≡ replicate 64 past_column) × Indexed told.now p.now index.now }
    requires room { Room n order.old kept.old lefts.old rights.old equals.old }
    requires by_index { (i : ℕ) → i < n → ToldConjunct (conjuncts told.now p.now) i
        (classify (aexpr_of rs.now p.now) (get_or nodes.now i 0)) }
    requires by_index_2 { (i : ℕ) → i < n → ColumnsBelow 64 (classify (aexpr_of rs.now p.now) (get_or nodes.now i 0)) }
    ensures concluded { Concluded (lined_to (aexpr_of rs.now p.now) nodes.now n)
        (shown (conjuncts told.now
        p.now) (columns_of cells.new) marks.new) order.new kept.new
        result.unsat result.unchanged result.columns result.keeps result.total }
    ensures passes_value { result.passes ≡ merge_passes payload (map (classify (aexpr_of rs.now p.now))
        (first_of nodes.now n)) }
    ensures fits { Fits cells.new marks.new × (result.columns ≤ n + n) × (result.keeps ≤ n)
        × (result.total ≤ (n + n) * 130) × ((o : ℕ) → o < result.columns → get_or order.new o 0 < 64) }
{
    let s = collect(
        rs, p, nodes, n, told, cells, marks, order, kept, lefts, rights, equals,
    );
    if s.unsat {
        return stopped(s.columns, s.keeps);
    }
    let m = propagate_equalities(
        index, told, p, cells, marks, lefts, rights, s.edges, s.columns,
    );
    let k = keep_equalities(cells, lefts, equals, s.edges, kept, s.keeps);
    let r = resolve_all(index, told, p, cells, marks, order, s.columns);
    MergedColumns {
        unsat: r.unsat,
        unchanged: !((r.total < s.bounds) | (s.normalized | (m.emitted | k.dropped))),
        passes: m.passes,
        columns: s.columns,
        keeps: k.keeps,
        total: r.total,
    }
}
