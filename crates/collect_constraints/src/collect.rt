// Stage 1 of the merging: what the conjuncts say, into the columns' cells.
ghost use Rattle.std.specs.Prelude.{◌≡◌, Bool, false, cond, List, map, ℕ, ◌+◌, ◌<◌, ◌≤◌, length, get_or, replicate};
ghost use Rattle.truth.specs.FromBytes.{aexpr_of};
ghost use Rattle.constraints.specs.Lined.{Lined, on_line, lined};
ghost use Rattle.constraints.specs.Mapped.{map_constraint};
ghost use Rattle.column_constraints.specs.Abstraction.{Conjuncts, conjuncts, numbered, column_of};
ghost use Rattle.merge.specs.Classify as m;
ghost use Rattle.merge.specs.Collect as d;
ghost use Rattle.merge.specs.Lines.{map_conjunct};
ghost use Rattle.read_operands.specs.Read.{says_in};
ghost use Rattle.rewrite.specs.Told.{Told, ToldConjunct};
ghost use Rattle.reading.specs.Columns.{ColumnsBelow};
ghost use Rattle.column_table.specs.Rows.{stride};
ghost use Rattle.column_table.specs.Words.{past_column, columns_of};
ghost use Rattle.collect_constraints.specs.NullLines.{is_required, NullLines, NullKept};
ghost use Rattle.column_table.specs.State.{ColumnTable, Shows, Fits, Entered, Added, Collects, collect_to};

use column_constraints::column::{ColumnConstraints, require_nullability};
use column_table::cells::{load, store};
use column_table::fields::{bump, slot};
use column_table::rows::add_in_row;
use constraints::column::Nullability;
use read_operands::operands::{Conjunct, Says};
use reading::classify::classify;
use records::record::{Column, Node};

/// How many columns entered, nodes are kept, equalities there are, conjuncts were bounds; whether one of these was a
/// negation; whether a conjunct made its column impossible.
#[derive(Clone, Copy)]
pub struct Collection {
    pub columns: usize,
    pub keeps: usize,
    pub edges: usize,
    pub bounds: usize,
    pub normalized: bool,
    pub unsat: bool,
}

/// The column a enters; how many columns there are then.
fn enter(seen: &mut [bool], order: &mut [u32], columns: usize, a: Column) -> usize
    requires { (a.0 < 64) × (columns < length order.old) × (columns < 256) × (length seen.old ≡ 64) }
    ensures by_index { (l : List ℕ) → Entered order.old columns seen.old l →
        Entered order.new result seen.new (d.enter a.0 l) }
    ensures upper_bound { result ≤ columns + 1 }
{
    let x = slot(a);
    order[columns] = a.0;
    let next = bump(seen[x], columns);
    seen[x] = true;
    next
}

fn is_required(n: Nullability) -> bool
    ensures { result ≡ is_required n }
{
    !matches!(n, Nullability::Unconstrained)
}

// What the column c became under conjunct j: a null requirement that it had keeps its number, a new one gets j.
fn with_null_line(mut d: ColumnConstraints, c: ColumnConstraints, j: u8) -> ColumnConstraints
    ensures result_value { (t : Conjuncts) (a : List ℕ) → column_of t (numbered a result) ≡ column_of t (numbered a d) }
    ensures len_value { result.len ≡ d.len }
    ensures since_value { result.since ≡ cond (is_required c.nullability) c.since j }
{
    let nul = c.nullability;
    if is_required(nul) {
        d.since = c.since;
        return d;
    }
    d.since = j as u64;
    d
}

fn require_non_null(cells: &mut [u64], a: Column, j: u8)
    requires { (a.0 < 64) × (length cells.old ≡ 448) }
    ensures shows { (t : Conjuncts) (marks : List ℕ) (T : ColumnTable) → Shows t (columns_of cells.old) marks T →
        Shows t (columns_of cells.new) marks (d.require_non_null lined a.0 T) }
    ensures cells_len_unchanged { length cells.new ≡ length cells.old }
    ensures null_kept { NullKept (columns_of cells.old) (columns_of cells.new) j }
{
    let x = slot(a);
    let c = load(cells, x);
    let d = require_nullability(c, Nullability::NonNull);
    let r = with_null_line(d, c, j);
    store(cells, x, r);
}

/// What conjunct j says of the column a; whether the column is then impossible.
fn add_to_column(
    told: &[u64],
    pool: &[u8],
    cells: &mut [u64],
    marks: &mut [u8],
    a: Column,
    j: u8,
    s: Says,
) -> bool
    requires fits { Fits cells.old marks.old × (a.0 < 64) × (j < stride marks.old) }
    requires told { Told (conjuncts told.now pool.now) j (says_in pool.now s) }
    ensures added { let t = conjuncts told.now pool.now in (T : ColumnTable) →
        Shows t (columns_of cells.old) marks.old T →
        Added t (columns_of cells.new) marks.new a.0
        (map (map_constraint (on_line j)) (says_in pool.now s)) result T }
    ensures cells_len_unchanged { length cells.new ≡ length cells.old }
    ensures marks_len_unchanged { length marks.new ≡ length marks.old }
    ensures null_kept { NullKept (columns_of cells.old) (columns_of cells.new) j }
{
    let x = slot(a);
    let c = load(cells, x);
    let d = add_in_row(told, pool, marks, x, c, j, s);
    let r = with_null_line(d, c, j);
    store(cells, x, r);
    r.unsat
}

/// What conjunct j, the record `node`, adds to what was collected before it.
fn collect_conjunct(
    rs: &[u8],
    pool: &[u8],
    node: u32,
    told: &[u64],
    cells: &mut [u64],
    marks: &mut [u8],
    seen: &mut [bool],
    order: &mut [u32],
    kept: &mut [u32],
    lefts: &mut [u32],
    rights: &mut [u32],
    equals: &mut [u32],
    j: u8,
    mut held: Collection,
) -> Collection
    requires fits { Fits cells.old marks.old × (j < stride marks.old) × (length seen.old ≡ 64)
        × (held.columns + 2 ≤ length order.old) × (held.columns + 2 ≤ 256) × (held.keeps < length kept.old)
        × (held.edges < length lefts.old) × (held.edges < length rights.old) × (held.edges < length equals.old)
        × (held.keeps < 128) × (held.edges < 128) × (held.bounds < 128) }
    requires told_conjunct { ToldConjunct (conjuncts told.now pool.now) j
        (m.classify (aexpr_of rs.now pool.now) node) }
    requires columns_below { ColumnsBelow 64 (m.classify (aexpr_of rs.now pool.now) node) }
    ensures collects { let t = conjuncts told.now pool.now in (s : d.Collected Lined) → Collects t
        (columns_of cells.old)
        marks.old seen.old order.old held.columns kept.old held.keeps
        lefts.old rights.old equals.old held.edges held.bounds held.normalized
        held.unsat s → held.unsat ≡ false → Collects t (columns_of cells.new) marks.new
        seen.new order.new result.columns kept.new result.keeps lefts.new
        rights.new equals.new result.edges result.bounds result.normalized result.unsat
        (d.collect_one lined (map_conjunct (on_line j) (m.classify (aexpr_of rs.now pool.now) node)) s) }
    ensures columns_bound { (result.columns ≤ held.columns + 2) × (result.keeps + result.edges ≤ held.keeps + held.edges + 1)
        × (result.bounds ≤ held.bounds + 1) × (length cells.new ≡ length cells.old)
        × (length marks.new ≡ length marks.old)
        × NullKept (columns_of cells.old) (columns_of cells.new) j }
{
    let keeps = held.keeps;
    let edges = held.edges;
    let k = classify(rs, Node(node));
    match k {
        Conjunct::Bounds(a, s) => {
            held.columns = enter(seen, order, held.columns, a);
            held.unsat = add_to_column(told, pool, cells, marks, a, j, s);
            held.bounds += 1;
            held
        }
        Conjunct::Normalized(a, s) => {
            held.columns = enter(seen, order, held.columns, a);
            held.unsat = add_to_column(told, pool, cells, marks, a, j, s);
            held.bounds += 1;
            held.normalized = true;
            held
        }
        Conjunct::Equality(a, b) => {
            held.columns = enter(seen, order, held.columns, a);
            require_non_null(cells, a, j);
            held.columns = enter(seen, order, held.columns, b);
            require_non_null(cells, b, j);
            lefts[edges] = a.0;
            rights[edges] = b.0;
            equals[edges] = node;
            held.edges = edges + 1;
            held
        }
        Conjunct::Recorded(stops, a, s) => {
            held.columns = enter(seen, order, held.columns, a);
            held.unsat = stops & add_to_column(told, pool, cells, marks, a, j, s);
            kept[keeps] = node;
            held.keeps = keeps + 1;
            held
        }
        Conjunct::NonNullPair(a, b) => {
            held.columns = enter(seen, order, held.columns, a);
            require_non_null(cells, a, j);
            held.columns = enter(seen, order, held.columns, b);
            require_non_null(cells, b, j);
            kept[keeps] = node;
            held.keeps = keeps + 1;
            held
        }
        Conjunct::Opaque => {
            kept[keeps] = node;
            held.keeps = keeps + 1;
            held
        }
    }
}

/// The first n of `nodes` are the screen's conjuncts. `cells` holds empty columns.
pub fn collect(
    rs: &[u8],
    pool: &[u8],
    nodes: &[u32],
    n: usize,
    told: &[u64],
    cells: &mut [u64],
    marks: &mut [u8],
    order: &mut [u32],
    kept: &mut [u32],
    lefts: &mut [u32],
    rights: &mut [u32],
    equals: &mut [u32],
) -> Collection
    requires n_bound { (n ≤ stride marks.old) × (stride marks.old ≤ 128) × (n ≤ length nodes.now)
        × (length cells.old ≡ 448) × (columns_of cells.old ≡ replicate 64 past_column)
        × (n + n ≤ length order.old) × (n ≤ length kept.old) × (n ≤ length lefts.old) × (n ≤ length rights.old)
        × (n ≤ length equals.old) }
    requires by_index { (i : ℕ) → i < n → ToldConjunct (conjuncts told.now pool.now) i
        (m.classify (aexpr_of rs.now pool.now) (get_or nodes.now i 0)) }
    requires by_index_2 { (i : ℕ) → i < n → ColumnsBelow 64 (m.classify (aexpr_of rs.now pool.now) (get_or nodes.now i 0)) }
    ensures collects { (seen : List Bool) × Collects (conjuncts told.now pool.now) (columns_of cells.new) marks.new seen
        order.new result.columns kept.new result.keeps lefts.new rights.new
        equals.new result.edges result.bounds result.normalized result.unsat
        (collect_to (aexpr_of rs.now pool.now) nodes.now n) }
    ensures columns_bound { (result.columns ≤ n + n) × (result.keeps + result.edges ≤ n) × (result.bounds ≤ n)
        × (length cells.new ≡ 448) × (length marks.new ≡ length marks.old)
        × NullLines (aexpr_of rs.now pool.now) nodes.now n (columns_of cells.new) }
{
    let mut seen = [false; 64];
    let mut held = Collection {
        columns: 0,
        keeps: 0,
        edges: 0,
        bounds: 0,
        normalized: false,
        unsat: false,
    };
    for i in 0..n {
        if held.unsat {
            return held;
        }
        held = collect_conjunct(
            rs, pool, nodes[i], told, cells, marks, &mut seen, order, kept, lefts, rights, equals,
            i as u8, held,
        );
    }
    held
}
