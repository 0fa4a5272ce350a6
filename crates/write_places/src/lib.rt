// The places of the resolved columns, written into the lent row.
#![tactic(auto)]

ghost use Rattle.std.specs.Prelude.{◌≡◌, cond, not, ◌||◌, ◌+◌, ◌*◌, ◌^◌, ◌≤◌, ◌<◌, length};
ghost use Rattle.constraints.specs.Column.{is_null_required};
ghost use Rattle.column_constraints.specs.Abstraction.{conjuncts, numbered, column_of};
ghost use Rattle.merge.specs.Collect.{is_in};
ghost use Rattle.merge.specs.Write.{splice};
ghost use Rattle.read_operands.specs.Walk.{first_of};
ghost use Rattle.column_table.specs.Rows.{row_of};
ghost use Rattle.column_table.specs.State.{ColumnTable, Shows};
ghost use Rattle.column_table.specs.Words.{columns_of};
ghost use Rattle.row_shown.specs.Shown.{exactly, value_place, place_bytes};
ghost use Rattle.row_shown.specs.Bits.{bits_column};
ghost use Rattle.write_places.specs.Written.{RowWritten};

use column_constraints::column::{ColumnConstraints, is_null};
use column_table::cells::load;
use masks::with_bit;
use rewrite::write::put_value;
use row_shown::place::{Place, null_place, value_place};

/// The place of column c.
fn put_place(row: &mut [u8], c: usize, place: Place)
    requires { 16 * c + 16 ≤ length row.old }
    ensures row_after { row.new ≡ splice row.old (16 * c) (place_bytes place) }
    ensures whole_bound { place.whole < 2 ^ 64 }
{
    let at = 16 * c;
    put_value(row, at, place.whole);
    put_value(row, at + 8, place.half);
}

/// Is c one of the first n columns that entered.
fn has_entered(order: &[u32], n: usize, c: u32) -> bool
    requires { n ≤ length order.now }
    ensures { result ≡ is_in c (first_of order.now n) }
{
    for i in 0..n {
        if order[i] == c {
            return true;
        }
    }
    false
}

/// Is column c null in the row.
fn is_shown_null(order: &[u32], n: usize, c: u32, k: ColumnConstraints) -> bool
    requires { n ≤ length order.now }
    ensures { result ≡ (not (is_in c (first_of order.now n)) || is_null_required k.nullability) }
{
    if !has_entered(order, n, c) {
        return true;
    }
    let required = k.nullability;
    is_null(required)
}

/// The place of column x, whose numbers are in its row of `marks`.
fn shown_place(
    told: &[u64],
    pool: &[u8],
    marks: &[u8],
    x: usize,
    k: ColumnConstraints,
    null: bool,
) -> Place
    requires { x < 64 }
    ensures { result ≡ cond null (exactly 0) (value_place (bits_column (column_of (conjuncts told.now pool.now)
        (numbered (row_of marks.now x) k)))) }
{
    if null {
        return null_place();
    }
    let size = marks.len() / 64;
    let at = x * size;
    let end = at + size;
    value_place(told, pool, &marks[at..end], k)
}

/// The places of the first `columns` columns into the row; their null marks. The first n of `order` are the columns that
/// entered.
pub fn write_places(
    told: &[u64],
    pool: &[u8],
    cells: &[u64],
    marks: &[u8],
    order: &[u32],
    n: usize,
    columns: usize,
    row: &mut [u8],
) -> u64
    requires { (length cells.now ≡ 448) × (n ≤ length order.now) × (columns ≤ 64)
        × (16 * columns ≤ length row.old) }
    ensures { let t = conjuncts told.now pool.now in (T : ColumnTable) →
        Shows t (columns_of cells.now) marks.now T →
        RowWritten (first_of order.now n) (λ c. bits_column (T c)) columns row.old row.new result }
{
    let mut nulls: u64 = 0;
    for c in 0..columns {
        let k = load(cells, c);
        let null = is_shown_null(order, n, c as u32, k);
        let place = shown_place(told, pool, marks, c, k, null);
        put_place(row, c, place);
        nulls = with_bit(nulls, c as u32, null);
    }
    nulls
}
