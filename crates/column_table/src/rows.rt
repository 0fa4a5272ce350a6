// The calls of the merging that read or write a column's numbers. The numbers of all columns stand in one array, 64 rows
// of one length, so that a column is small and a short screen clears a short array; each call gets the row of its column.
ghost use Rattle.std.specs.Prelude.{◌≡◌, map, ℕ, ◌+◌, ◌*◌, ◌≤◌, ◌<◌, length};
ghost use Rattle.constraints.specs.Column as q;
ghost use Rattle.constraints.specs.Comparisons.{collect_column_comparisons};
ghost use Rattle.constraints.specs.Lined.{Lined, on_line, lined};
ghost use Rattle.constraints.specs.Mapped.{map_constraint};
ghost use Rattle.constraints.specs.Resolve.{resolve_deferred};
ghost use Rattle.column_constraints.specs.Abstraction.{Conjuncts, conjuncts, numbered, column_of, Fine};
ghost use Rattle.column_constraints.specs.Abstraction.{kinds_in, values_in};
ghost use Rattle.column_sets.specs.Index.{Indexed};
ghost use Rattle.merge.specs.Emit.{of_column};
ghost use Rattle.merge.specs.Lines.{map_comparisons};
ghost use Rattle.merge.specs.Write.{write_comparisons};
ghost use Rattle.read_operands.specs.Read.{says_in};
ghost use Rattle.rewrite.specs.Told.{Told};
ghost use Rattle.column_table.specs.Rows.{stride, row_of, RowsKept};

use column_constraints::column::{ColumnConstraints, Merged};
use column_sets::marks::copied;
use columns::comparisons::comparison_count;
use columns::merging::merge_from;
use read_operands::operands::Says;
use records::record::Column;
use resolve_deferred::resolve::resolve_deferred;
use rewrite::add::add_says;
use rewrite::emit::write_column;

/// What conjunct j says of the column c in row x.
pub fn add_in_row(
    told: &[u64],
    pool: &[u8],
    marks: &mut [u8],
    x: usize,
    c: ColumnConstraints,
    j: u8,
    s: Says,
) -> ColumnConstraints
    requires x_bound { (x < 64) × Fine (stride marks.old) (row_of marks.old x) c.len × (j < stride marks.old) }
    requires told { Told (conjuncts told.now pool.now) j (says_in pool.now s) }
    ensures result_after { let t = conjuncts told.now pool.now in column_of t (numbered (row_of marks.new x) result) ≡
        q.add_all lined (map (map_constraint (on_line j)) (says_in pool.now s)) (column_of t (numbered (row_of marks.old x) c)) }
    ensures fine { Fine (stride marks.new) (row_of marks.new x) result.len }
    ensures rows_kept { RowsKept marks.old marks.new x }
{
    let size = marks.len() / 64;
    let at = x * size;
    let end = at + size;
    add_says(told, pool, &mut marks[at..end], c, j, s)
}

/// All that the column d in row y says, put into the column c in row x.
pub fn merge_rows(
    index: &[u64],
    told: &[u64],
    pool: &[u8],
    marks: &mut [u8],
    x: usize,
    c: ColumnConstraints,
    y: usize,
    d: ColumnConstraints,
) -> Merged
    requires x_bound { (x < 64) × (y < 64) × (stride marks.old ≤ 128)
        × Indexed told.now pool.now index.now }
    requires fine { Fine (stride marks.old) (row_of marks.old x) c.len }
    requires fine_2 { Fine (stride marks.old) (row_of marks.old y) d.len }
    ensures fact { let t = conjuncts told.now pool.now in let left = column_of t (numbered (row_of
        marks.old x) c) in
        let dd = column_of t (numbered (row_of marks.old y) d) in
        (column_of t (numbered (row_of marks.new x) result.column) ≡ q.merge_from lined left dd) ×
        (result.emitted ≡ q.merge_emitted lined left dd) × (result.any ≡ q.merge_any lined left dd) }
    ensures fine_3 { Fine (stride marks.new) (row_of marks.new x) result.column.len }
    ensures rows_kept { RowsKept marks.old marks.new x }
{
    let size = marks.len() / 64;
    let from = y * size;
    let to = from + size;
    let other = copied(&marks[from..to], d.len);
    let at = x * size;
    let end = at + size;
    merge_from(index, told, pool, &mut marks[at..end], c, &other, d)
}

pub fn resolve_row(
    index: &[u64],
    told: &[u64],
    pool: &[u8],
    marks: &mut [u8],
    x: usize,
    c: ColumnConstraints,
) -> ColumnConstraints
    requires { (x < 64) × (stride marks.old ≤ 128) × Fine (stride marks.old) (row_of marks.old x) c.len
        × Indexed told.now pool.now index.now }
    ensures result_after { let t = conjuncts told.now pool.now in column_of t (numbered (row_of marks.new x) result) ≡
        resolve_deferred lined (column_of t (numbered (row_of marks.old x) c)) }
    ensures fine { Fine (stride marks.new) (row_of marks.new x) result.len }
    ensures rows_kept { RowsKept marks.old marks.new x }
{
    let size = marks.len() / 64;
    let at = x * size;
    let end = at + size;
    resolve_deferred(index, told, pool, &mut marks[at..end], c)
}

/// How many comparisons the column c in row x is written out as.
pub fn count_row(told: &[u64], marks: &[u8], x: usize, c: ColumnConstraints) -> usize
    requires { (x < 64) × (stride marks.now ≤ 128) × Fine (stride marks.now) (row_of marks.now x) c.len }
    ensures { (t : Conjuncts) → t.kinds ≡ kinds_in told.now →
        result ≡ length (collect_column_comparisons lined (column_of t (numbered (row_of marks.now x) c))) }
{
    let size = marks.len() / 64;
    let at = x * size;
    let end = at + size;
    comparison_count(told, &marks[at..end], c)
}

/// The comparisons of the column c in row x, three records each, from record u on; the first number behind them.
pub fn write_row(
    t: &[u8],
    rs: &mut [u8],
    u: u32,
    a: Column,
    told: &[u64],
    marks: &[u8],
    x: usize,
    c: ColumnConstraints,
) -> u32
    requires x_bound { (x < 64) × (stride marks.now ≤ 128) × Fine (stride marks.now) (row_of marks.now x) c.len }
    requires u_bound { (u ≤ 4096) × ((s : Conjuncts) → s.kinds ≡ kinds_in told.now → s.values ≡ values_in told.now →
        16 * (u + 3 * length (collect_column_comparisons lined (column_of s (numbered (row_of marks.now x) c))))
        ≤ length rs.old) }
    ensures value { (s : Conjuncts) → s.kinds ≡ kinds_in told.now → s.values ≡ values_in told.now →
        result ≡ u + 3 * length (collect_column_comparisons lined
        (column_of s (numbered (row_of marks.now x) c))) }
    ensures rs_after { (s : Conjuncts) → s.kinds ≡ kinds_in told.now → s.values ≡ values_in told.now →
        rs.new ≡ write_comparisons t.now u (map_comparisons (λ (v : Lined). v.bits) (of_column a.0
        (collect_column_comparisons lined (column_of s (numbered (row_of marks.now x) c))))) rs.old }
{
    let size = marks.len() / 64;
    let at = x * size;
    let end = at + size;
    write_column(t, rs, u, a, told, &marks[at..end], c)
}
