// The reasons of the comparisons of all columns as text (02, 2.6), column by column as the comparisons are written out. How
// long the text is comes before its first byte. t is the column table, `text` the text pool.
ghost use Rattle.std.specs.Prelude.{◌≡◌, List, ℕ, ◌+◌, ◌<◌, ◌≤◌, length, get_or};
ghost use Rattle.constraints.specs.Comparisons.{collect_column_comparisons};
ghost use Rattle.constraints.specs.Lined.{lined};
ghost use Rattle.column_constraints.specs.Abstraction.{Conjuncts, numbered, column_of, Fine};
ghost use Rattle.column_constraints.specs.Abstraction.{kinds_in, values_in};
ghost use Rattle.column_reasons.specs.ColumnText.{column_text, table_text};
ghost use Rattle.merge.specs.Reasons.{shown_in};
ghost use Rattle.merge.specs.Write.{splice};
ghost use Rattle.read_operands.specs.Walk.{first_of};
ghost use Rattle.column_table.specs.Rows.{stride, row_of};
ghost use Rattle.column_table.specs.Words.{columns_of};
ghost use Rattle.column_table.specs.State.{Fits, shown};

use column_constraints::column::ColumnConstraints;
use column_reasons::{column_length, write_column_reasons};
use column_table::cells::load;
use column_table::fields::slot;
use records::record::Column;

/// How many bytes the reasons of the column c in row x have.
fn row_length(
    t: &[u8],
    a: Column,
    told: &[u64],
    marks: &[u8],
    x: usize,
    c: ColumnConstraints,
) -> usize
    requires { (x < 64) × (stride marks.now ≤ 128) × Fine (stride marks.now) (row_of marks.now x) c.len }
    ensures value { (s : Conjuncts) → s.kinds ≡ kinds_in told.now → s.values ≡ values_in told.now →
        (text : List ℕ) → result ≡ length (column_text (shown_in t.now text) a.0 (collect_column_comparisons lined
        (column_of s (numbered (row_of marks.now x) c)))) }
    ensures upper_bound { result ≤ 1116691503200 }
{
    let size = marks.len() / 64;
    let at = x * size;
    let end = at + size;
    column_length(t, a, told, &marks[at..end], c)
}

/// The reasons of the column c in row x from `next` on; the place behind them.
fn write_row_reasons(
    out: &mut [u8],
    next: usize,
    t: &[u8],
    text: &[u8],
    a: Column,
    told: &[u64],
    marks: &[u8],
    x: usize,
    c: ColumnConstraints,
) -> usize
    requires x_bound { (x < 64) × (stride marks.now ≤ 128) × Fine (stride marks.now) (row_of marks.now x) c.len }
    requires c_in_bounds { (s : Conjuncts) → s.kinds ≡ kinds_in told.now → s.values ≡ values_in told.now →
        next + length (column_text (shown_in t.now text.now) a.0
        (collect_column_comparisons lined (column_of s (numbered (row_of marks.now x) c)))) ≤ length out.old }
    ensures value { (s : Conjuncts) → s.kinds ≡ kinds_in told.now → s.values ≡ values_in told.now →
        result ≡ next + length (column_text (shown_in t.now text.now) a.0 (collect_column_comparisons lined
        (column_of s (numbered (row_of marks.now x) c)))) }
    ensures out_after { (s : Conjuncts) → s.kinds ≡ kinds_in told.now → s.values ≡ values_in told.now →
        out.new ≡ splice out.old next (column_text (shown_in t.now text.now) a.0
        (collect_column_comparisons lined (column_of s (numbered (row_of marks.now x) c)))) }
{
    let size = marks.len() / 64;
    let at = x * size;
    let end = at + size;
    write_column_reasons(out, next, t, text, a, told, &marks[at..end], c)
}

/// How many bytes the reasons of the columns of `order` have, whatever text pool is lent.
pub fn reasons_length(
    t: &[u8],
    told: &[u64],
    cells: &[u64],
    marks: &[u8],
    order: &[u32],
    columns: usize,
) -> usize
    requires fits { Fits cells.now marks.now × (columns ≤ length order.now) × (columns ≤ 256) }
    requires by_index { (o : ℕ) → o < columns → get_or order.now o 0 < 64 }
    ensures { (s : Conjuncts) → s.kinds ≡ kinds_in told.now → s.values ≡ values_in told.now →
        (text : List ℕ) → result ≡ length (table_text (shown_in t.now text) (first_of order.now columns)
        (shown s (columns_of cells.now) marks.now)) }
{
    let mut size: usize = 0;
    for w in 0..columns {
        let a = Column(order[w]);
        let x = slot(a);
        let c = load(cells, x);
        size = size + row_length(t, a, told, marks, x, c);
    }
    size
}

/// The reasons of the columns of `order` in the front of `out`.
pub fn write_reasons(
    out: &mut [u8],
    t: &[u8],
    text: &[u8],
    told: &[u64],
    cells: &[u64],
    marks: &[u8],
    order: &[u32],
    columns: usize,
)
    requires fits { Fits cells.now marks.now × (columns ≤ length order.now) × (columns ≤ 256) }
    requires by_index { (o : ℕ) → o < columns → get_or order.now o 0 < 64 }
    requires marks_in_bounds { (s : Conjuncts) → s.kinds ≡ kinds_in told.now → s.values ≡ values_in told.now →
        length (table_text (shown_in t.now text.now) (first_of order.now columns)
        (shown s (columns_of cells.now) marks.now)) ≤ length out.old }
    ensures { (s : Conjuncts) → s.kinds ≡ kinds_in told.now → s.values ≡ values_in told.now →
        out.new ≡ splice out.old 0
        (table_text (shown_in t.now text.now) (first_of order.now columns)
        (shown s (columns_of cells.now) marks.now)) }
{
    let mut next: usize = 0;
    for w in 0..columns {
        let a = Column(order[w]);
        let x = slot(a);
        let c = load(cells, x);
        next = write_row_reasons(out, next, t, text, a, told, marks, x, c);
    }
}
