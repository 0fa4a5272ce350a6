// Stage 2 of the merging: what the columns of an equality say is put into each other, in passes over all equalities. An
// equality whose columns have not changed since it was last looked at is left out.
ghost use Rattle.std.specs.Prelude.{◌≡◌, List, ℕ, ◌<◌, ◌≤◌, ◌^◌, length, get_or};
ghost use Rattle.std.specs.Int.Bits.{bit_or};
ghost use Rattle.checking.specs.Columns.{bit};
ghost use Rattle.column_constraints.specs.Abstraction.{conjuncts};
ghost use Rattle.column_sets.specs.Index.{Indexed};
ghost use Rattle.column_table.specs.Words.{columns_of, past_column};
ghost use Rattle.column_table.specs.State.{ColumnTable, Shows, Fits, EdgesBelow, edges_of, EdgeMerged, EdgesMerged, Spread};
ghost use Rattle.column_table.specs.State.{shown};
ghost use Rattle.propagate_equalities.specs.Taken.{TakenIn};
ghost use Rattle.propagate_equalities.specs.Quiet.{QuietUnless, QuietEdges, Noted};

use column_table::cells::{load, store};
use column_table::fields::slot;
use column_table::rows::merge_rows;
use records::record::Column;

/// Whether anything that is written out was propagated, and whether anything was.
#[derive(Clone, Copy)]
pub struct Moved {
    pub emitted: bool,
    pub any: bool,
}

/// The same, and a bit for each column that may tell its neighbours something new.
#[derive(Clone, Copy)]
pub struct Swept {
    pub emitted: bool,
    pub any: bool,
    pub word: u64,
}

#[derive(Clone, Copy)]
pub struct Propagated {
    pub emitted: bool,
    pub passes: usize,
}

// The column at x takes in what the one at y says. Both are loaded here: a column that crosses a call is copied with the seven
// bytes between a bound's tag and its value, as two words that overlap, and loading these waits for both to be stored.
fn take_in(
    index: &[u64],
    told: &[u64],
    pool: &[u8],
    cells: &mut [u64],
    marks: &mut [u8],
    x: usize,
    y: usize,
) -> Moved
    requires { Fits cells.old marks.old × (x < 64) × (y < 64)
        × Indexed told.now pool.now index.now }
    ensures taken_in { let t = conjuncts told.now pool.now in (T : ColumnTable) →
        Shows t (columns_of cells.old) marks.old T →
        TakenIn t (columns_of cells.new) marks.new x y result.emitted result.any T }
    ensures fits { Fits cells.new marks.new }
{
    let c = load(cells, x);
    let d = load(cells, y);
    let m = merge_rows(index, told, pool, marks, x, c, y, d);
    let f = m.column;
    store(cells, x, f);
    Moved {
        emitted: m.emitted,
        any: m.any,
    }
}

/// The right column takes in what the left says, then the left what the right now says.
pub fn merge_edge(
    index: &[u64],
    told: &[u64],
    pool: &[u8],
    cells: &mut [u64],
    marks: &mut [u8],
    a: Column,
    b: Column,
) -> Moved
    requires { Fits cells.old marks.old × (a.0 < 64) × (b.0 < 64)
        × Indexed told.now pool.now index.now }
    ensures edge_merged { let t = conjuncts told.now pool.now in (T : ColumnTable) →
        Shows t (columns_of cells.old) marks.old T →
        EdgeMerged t (columns_of cells.new) marks.new a.0 b.0 result.emitted result.any T }
    ensures fits { Fits cells.new marks.new }
{
    let x = slot(a);
    let y = slot(b);
    if x == y {
        return Moved {
            emitted: false,
            any: false,
        };
    }
    let right = take_in(index, told, pool, cells, marks, y, x);
    let left = take_in(index, told, pool, cells, marks, x, y);
    Moved {
        emitted: right.emitted | left.emitted,
        any: right.any | left.any,
    }
}

fn is_set(word: u64, c: u32) -> bool
    requires { c < 64 }
    ensures { result ≡ bit word c }
{
    (word >> c) % 2 == 1
}

fn both_bits(a: u32, b: u32) -> u64
    requires { (a < 64) × (b < 64) }
    ensures { result ≡ bit_or (2 ^ a) (2 ^ b) }
{
    (1 << a) | (1 << b)
}

fn is_impossible(cells: &[u64], a: Column) -> bool
    requires { (a.0 < 64) × (length cells.now ≡ 448) }
    ensures { result ≡ (get_or (columns_of cells.now) a.0 past_column).unsat }
{
    let c = load(cells, a.0 as usize);
    c.unsat
}

/// Merges an edge, unless neither column has its bit in `changed`: then it would change nothing. A column that became
/// impossible is noted as one that changed, whatever the merge says of it.
fn sweep_edge(
    index: &[u64],
    told: &[u64],
    pool: &[u8],
    cells: &mut [u64],
    marks: &mut [u8],
    a: Column,
    b: Column,
    changed: u64,
) -> Swept
    requires fits { Fits cells.old marks.old × (a.0 < 64) × (b.0 < 64)
        × Indexed told.now pool.now index.now }
    requires fact { let t = conjuncts told.now pool.now in
        QuietUnless (shown t (columns_of cells.old) marks.old) changed a.0 b.0 }
    ensures edge_merged { let t = conjuncts told.now pool.now in (T : ColumnTable) →
        Shows t (columns_of cells.old) marks.old T →
        EdgeMerged t (columns_of cells.new) marks.new a.0 b.0 result.emitted result.any T }
    ensures fits_2 { Fits cells.new marks.new }
    ensures fact_2 { let t = conjuncts told.now pool.now in
        Noted (shown t (columns_of cells.old) marks.old)
        (shown t (columns_of cells.new) marks.new) a.0 b.0 result.word }
{
    let left = is_set(changed, a.0);
    let right = is_set(changed, b.0);
    if !(left | right) {
        return Swept {
            emitted: false,
            any: false,
            word: 0,
        };
    }
    let m = merge_edge(index, told, pool, cells, marks, a, b);
    let impossible = is_impossible(cells, a) | is_impossible(cells, b);
    if m.any | impossible {
        return Swept {
            emitted: m.emitted,
            any: m.any,
            word: both_bits(a.0, b.0),
        };
    }
    Swept {
        emitted: m.emitted,
        any: m.any,
        word: 0,
    }
}

/// One pass over the equalities of the columns `lefts` and `rights`, after one that noted the columns `before`.
pub fn propagate_pass(
    index: &[u64],
    told: &[u64],
    pool: &[u8],
    cells: &mut [u64],
    marks: &mut [u8],
    lefts: &[u32],
    rights: &[u32],
    edges: usize,
    before: u64,
) -> Swept
    requires fits { Fits cells.old marks.old × (edges ≤ length lefts.now) × (edges ≤ length rights.now)
        × Indexed told.now pool.now index.now }
    requires edges_below { EdgesBelow lefts.now rights.now edges }
    requires fact { let t = conjuncts told.now pool.now in
        QuietEdges (shown t (columns_of cells.old) marks.old) lefts.now rights.now edges before }
    ensures edges_merged { let t = conjuncts told.now pool.now in (T : ColumnTable) (equals : List ℕ) →
        Shows t (columns_of cells.old) marks.old T →
        EdgesMerged t (columns_of cells.new) marks.new
        (edges_of lefts.now rights.now equals edges) result.emitted result.any T }
    ensures fits_2 { Fits cells.new marks.new }
    ensures fact_2 { let t = conjuncts told.now pool.now in
        QuietEdges (shown t (columns_of cells.new) marks.new) lefts.now rights.now
        edges result.word }
{
    let mut emitted = false;
    let mut any = false;
    let mut word: u64 = 0;
    for e in 0..edges {
        let m = sweep_edge(
            index,
            told,
            pool,
            cells,
            marks,
            Column(lefts[e]),
            Column(rights[e]),
            before | word,
        );
        emitted = emitted | m.emitted;
        any = any | m.any;
        word = word | m.word;
    }
    Swept {
        emitted: emitted,
        any: any,
        word: word,
    }
}

/// Passes up to and with the first that changes nothing, at most as many as columns; none without equalities.
pub fn propagate_equalities(
    index: &[u64],
    told: &[u64],
    pool: &[u8],
    cells: &mut [u64],
    marks: &mut [u8],
    lefts: &[u32],
    rights: &[u32],
    edges: usize,
    columns: usize,
) -> Propagated
    requires fits { Fits cells.old marks.old × (edges ≤ length lefts.now) × (edges ≤ length rights.now)
        × Indexed told.now pool.now index.now }
    requires edges_below { EdgesBelow lefts.now rights.now edges }
    ensures spread { let t = conjuncts told.now pool.now in (T : ColumnTable) (equals : List ℕ) →
        Shows t (columns_of cells.old) marks.old T →
        Spread t (columns_of cells.new) marks.new
        (edges_of lefts.now rights.now equals edges) columns result.emitted result.passes T }
    ensures fits_2 { Fits cells.new marks.new }
{
    let mut emitted = false;
    let mut going = 0 < edges;
    let mut passes: usize = 0;
    let mut before: u64 = 18446744073709551615;
    // It ends with the first pass that changes nothing, and answers how many passes there were.
    while (passes < columns) & going {
        let m = propagate_pass(
            index, told, pool, cells, marks, lefts, rights, edges, before,
        );
        before = m.word;
        emitted = emitted | m.emitted;
        going = m.any;
        passes += 1;
    }
    Propagated {
        emitted: emitted,
        passes: passes,
    }
}
