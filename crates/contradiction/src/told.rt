// What the lines say, told to the columns' cells, each column by its label.
ghost use Rattle.std.specs.Prelude.{◌≡◌, List, map, ℕ, ◌<◌, ◌≤◌, length, get_or, replicate};
ghost use Rattle.truth.specs.FromBytes.{aexpr_of};
ghost use Rattle.constraints.specs.Lined.{on_line, lined};
ghost use Rattle.constraints.specs.Mapped.{map_constraint};
ghost use Rattle.column_constraints.specs.Abstraction.{Conjuncts, conjuncts};
ghost use Rattle.merge.specs.Classify as c;
ghost use Rattle.merge.specs.Collect as d;
ghost use Rattle.merge.specs.Lines.{map_conjunct};
ghost use Rattle.read_operands.specs.Read.{says_in};
ghost use Rattle.rewrite.specs.Told.{Told, ToldConjunct};
ghost use Rattle.reading.specs.Columns.{ColumnsBelow};
ghost use Rattle.column_table.specs.Rows.{stride};
ghost use Rattle.column_table.specs.Words.{past_column, columns_of};
ghost use Rattle.column_table.specs.State.{ColumnTable, Shows, Fits, Added};
ghost use Rattle.contradiction.specs.Labels.{label_at, tell_one, Tells, ToldLines};

use column_constraints::column::require_nullability;
use column_table::cells::{load, store};
use column_table::fields::slot;
use column_table::rows::add_in_row;
use constraints::column::Nullability;
use read_operands::operands::{Conjunct, Says};
use reading::classify::classify;
use records::record::{Column, Node};

fn label_of(labels: &[u32], a: Column) -> Column
    requires { length labels.now ≡ 64 }
    ensures { result.0 ≡ label_at labels.now a.0 }
{
    let x = slot(a);
    Column(labels[x])
}

/// The column a is not null.
fn tell_non_null(cells: &mut [u64], a: Column)
    requires { (a.0 < 64) × (length cells.old ≡ 448) }
    ensures shows { (t : Conjuncts) (marks : List ℕ) (T : ColumnTable) → Shows t (columns_of cells.old) marks T →
        Shows t (columns_of cells.new) marks (d.require_non_null lined a.0 T) }
    ensures cells_len_unchanged { length cells.new ≡ length cells.old }
{
    let x = slot(a);
    let c = load(cells, x);
    let r = require_nullability(c, Nullability::NonNull);
    store(cells, x, r);
}

/// What line j says of the column a; whether the column is then impossible.
fn tell_column(
    told: &[u64],
    pool: &[u8],
    cells: &mut [u64],
    marks: &mut [u8],
    a: Column,
    j: u8,
    s: Says,
) -> bool
    requires fits { Fits cells.old marks.old × (a.0 < 64) × (j < stride marks.old) }
    requires told { Told (conjuncts told.now pool.now) j (says_in pool.now s) }
    ensures added { let t = conjuncts told.now pool.now in (T : ColumnTable) →
        Shows t (columns_of cells.old) marks.old T →
        Added t (columns_of cells.new) marks.new a.0
        (map (map_constraint (on_line j)) (says_in pool.now s)) result T }
    ensures cells_len_unchanged { length cells.new ≡ length cells.old }
    ensures marks_len_unchanged { length marks.new ≡ length marks.old }
{
    let x = slot(a);
    let c = load(cells, x);
    let r = add_in_row(told, pool, marks, x, c, j, s);
    store(cells, x, r);
    r.unsat
}

/// What line j, the record `node`, says; whether a column is then impossible.
fn tell_line(
    rs: &[u8],
    pool: &[u8],
    node: Node,
    told: &[u64],
    labels: &[u32],
    cells: &mut [u64],
    marks: &mut [u8],
    j: u8,
) -> bool
    requires fits { Fits cells.old marks.old × (j < stride marks.old) × (length labels.now ≡ 64)
        × ((c : ℕ) → c < 64 → get_or labels.now c 0 < 64) }
    requires told_conjunct { ToldConjunct (conjuncts told.now pool.now) j
        (c.classify (aexpr_of rs.now pool.now) node.0) }
    requires columns_below { ColumnsBelow 64 (c.classify (aexpr_of rs.now pool.now) node.0) }
    ensures tells { let t = conjuncts told.now pool.now in (T : ColumnTable) →
        Shows t (columns_of cells.old) marks.old T →
        Tells t (columns_of cells.new) marks.new result (tell_one lined (label_at labels.now)
        (map_conjunct (on_line j) (c.classify (aexpr_of rs.now pool.now) node.0)) T) }
    ensures cells_len_unchanged { length cells.new ≡ length cells.old }
    ensures marks_len_unchanged { length marks.new ≡ length marks.old }
{
    let k = classify(rs, node);
    match k {
        Conjunct::Bounds(a, s) => {
            let x = label_of(labels, a);
            tell_column(told, pool, cells, marks, x, j, s)
        }
        Conjunct::Normalized(a, s) => {
            let x = label_of(labels, a);
            tell_column(told, pool, cells, marks, x, j, s)
        }
        Conjunct::Equality(a, b) => {
            let x = label_of(labels, a);
            let y = label_of(labels, b);
            tell_non_null(cells, x);
            tell_non_null(cells, y);
            false
        }
        Conjunct::Recorded(_, a, s) => {
            let x = label_of(labels, a);
            tell_column(told, pool, cells, marks, x, j, s)
        }
        Conjunct::NonNullPair(a, b) => {
            let x = label_of(labels, a);
            let y = label_of(labels, b);
            tell_non_null(cells, x);
            tell_non_null(cells, y);
            false
        }
        Conjunct::Opaque => false,
    }
}

/// What the first n of `nodes` say, up to one that makes a column impossible; whether one does. `cells` holds empty columns.
pub fn tell_lines(
    rs: &[u8],
    pool: &[u8],
    nodes: &[u32],
    n: usize,
    told: &[u64],
    labels: &[u32],
    cells: &mut [u64],
    marks: &mut [u8],
) -> bool
    requires n_bound { (n ≤ stride marks.old) × (stride marks.old ≤ 128) × (n ≤ length nodes.now)
        × (length cells.old ≡ 448) × (columns_of cells.old ≡ replicate 64 past_column) × (length labels.now ≡ 64)
        × ((c : ℕ) → c < 64 → get_or labels.now c 0 < 64) }
    requires by_index { (i : ℕ) → i < n → ToldConjunct (conjuncts told.now pool.now) i
        (c.classify (aexpr_of rs.now pool.now) (get_or nodes.now i 0)) }
    requires by_index_2 { (i : ℕ) → i < n → ColumnsBelow 64 (c.classify (aexpr_of rs.now pool.now) (get_or nodes.now i 0)) }
    ensures told_lines { ToldLines (conjuncts told.now
        pool.now) (columns_of cells.new) marks.new labels.now
        (aexpr_of rs.now pool.now) nodes.now n result }
    ensures cells_len_unchanged { length cells.new ≡ length cells.old }
    ensures marks_len_unchanged { length marks.new ≡ length marks.old }
{
    for i in 0..n {
        let node = Node(nodes[i]);
        let j = i as u8;
        let stops = tell_line(rs, pool, node, told, labels, cells, marks, j);
        if stops {
            return true;
        }
    }
    false
}
