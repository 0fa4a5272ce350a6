// The stages behind the propagation: the kept equalities, the resolved columns, the comparisons written out.
ghost use Rattle.std.specs.Prelude.{◌≡◌, List, false, ℕ, ◌+◌, ◌*◌, ◌<◌, ◌≤◌, length, get_or};
ghost use Rattle.constraints.specs.Lined.{lined};
ghost use Rattle.column_constraints.specs.Abstraction.{Conjuncts, conjuncts};
ghost use Rattle.column_constraints.specs.Abstraction.{kinds_in, values_in};
ghost use Rattle.column_sets.specs.Index.{Indexed};
ghost use Rattle.merge.specs.Collect.{is_in};
ghost use Rattle.merge.specs.Emit.{comparisons};
ghost use Rattle.read_operands.specs.Walk.{first_of};
ghost use Rattle.column_table.specs.Words.{columns_of};
ghost use Rattle.column_table.specs.State.{ColumnTable, Shows, Fits, Keeps, edges_of, Kept, Resolved, shown, Written};

use column_table::cells::{load, store};
use column_table::fields::{bump, slot};
use column_table::rows::{count_row, resolve_row, write_row};
use records::record::Column;
use rewrite::emit::is_fixed;

#[derive(Clone, Copy)]
pub struct KeptNodes {
    pub keeps: usize,
    pub dropped: bool,
}

#[derive(Clone, Copy)]
pub struct ResolvedColumns {
    pub unsat: bool,
    pub total: usize,
}

/// The equalities whose left column is not fixed are kept.
pub fn keep_equalities(
    cells: &[u64],
    lefts: &[u32],
    equals: &[u32],
    edges: usize,
    kept: &mut [u32],
    keeps: usize,
) -> KeptNodes
    requires cells_len { (length cells.now ≡ 448) × (edges ≤ length lefts.now) × (edges ≤ length equals.now)
        × (keeps + edges ≤ 256) × (keeps + edges ≤ length kept.old) }
    requires by_index { (e : ℕ) → e < edges → get_or lefts.now e 0 < 64 }
    ensures kept { (t : Conjuncts) (marks : List ℕ) (T : ColumnTable) (l rights : List ℕ) →
        Shows t (columns_of cells.now) marks T → Keeps kept.old keeps l →
        Kept T (edges_of lefts.now rights equals.now edges) kept.new result.keeps
        result.dropped l }
    ensures keeps_bound { result.keeps ≤ keeps + edges }
{
    let mut next = keeps;
    let mut dropped = false;
    for e in 0..edges {
        let x = slot(Column(lefts[e]));
        let c = load(cells, x);
        let fixed = is_fixed(c);
        kept[next] = equals[e];
        next = bump(fixed, next);
        dropped = dropped | fixed;
    }
    KeptNodes {
        keeps: next,
        dropped: dropped,
    }
}

/// Every column of `order` resolved; whether one is impossible, and how many comparisons they are written out as.
pub fn resolve_all(
    index: &[u64],
    told: &[u64],
    pool: &[u8],
    cells: &mut [u64],
    marks: &mut [u8],
    order: &[u32],
    columns: usize,
) -> ResolvedColumns
    requires fits { Fits cells.old marks.old × (columns ≤ length order.now) × (columns ≤ 256)
        × Indexed told.now pool.now index.now }
    requires by_index { (o : ℕ) → o < columns → (get_or order.now o 0 < 64) ×
        (is_in (get_or order.now o 0) (first_of order.now o) ≡ false) }
    ensures resolved { let t = conjuncts told.now pool.now in (T : ColumnTable) →
        Shows t (columns_of cells.old) marks.old T →
        Resolved t (columns_of cells.new) marks.new (first_of order.now columns)
        false result.unsat result.total T }
    ensures fits_2 { Fits cells.new marks.new × (result.total ≤ columns * 130) }
{
    let mut unsat = false;
    let mut total: usize = 0;
    for o in 0..columns {
        let x = slot(Column(order[o]));
        let c = load(cells, x);
        let d = resolve_row(index, told, pool, marks, x, c);
        store(cells, x, d);
        unsat = unsat | d.unsat;
        total = total + count_row(told, marks, x, d);
    }
    ResolvedColumns {
        unsat: unsat,
        total: total,
    }
}

/// The comparisons of the columns of `order`, from record `used` on; the first number behind them.
pub fn write_comparisons(
    t: &[u8],
    rs: &mut [u8],
    used: u32,
    told: &[u64],
    cells: &[u64],
    marks: &[u8],
    order: &[u32],
    columns: usize,
) -> u32
    requires fits { Fits cells.now marks.now × (columns ≤ length order.now) × (columns ≤ 256) }
    requires by_index { (o : ℕ) → o < columns → get_or order.now o 0 < 64 }
    requires marks_bound { (s : Conjuncts) → s.kinds ≡ kinds_in told.now → s.values ≡ values_in told.now →
        (used + 3 * length (comparisons lined (first_of order.now columns) (shown s (columns_of cells.now) marks.now))
        ≤ 4096) ×
        (16 * (used + 3 * length (comparisons lined (first_of order.now columns)
        (shown s (columns_of cells.now) marks.now))) ≤ length rs.old) }
    ensures { (s : Conjuncts) → s.kinds ≡ kinds_in told.now → s.values ≡ values_in told.now →
        Written t.now used rs.old (comparisons lined (first_of order.now columns)
        (shown s (columns_of cells.now) marks.now)) result rs.new }
{
    let mut u = used;
    for w in 0..columns {
        let a = Column(order[w]);
        let x = slot(a);
        let c = load(cells, x);
        u = write_row(t, rs, u, a, told, marks, x, c);
    }
    u
}
