//! The checks of a row, numbers 12 and 13, of a screen that may have symbols (02, 2.10): as in crate `row_test`, and a Text
//! value lies in the text pool.
#![tactic(auto)]

ghost use Rattle.std.specs.Prelude.{◌≡◌, ◌*◌, ◌≤◌, length};
ghost use Rattle.refusal.specs.Numbers.{fault};
ghost use Rattle.symbol_rows.specs.RowTestWith.{column_ok_with, columns_ok_with, row_fault_with};

use records::bytes::value_in;
use refusal::Refusal;
use row_test::row::marks_ok;
use truth::read::null_marked;
use value_types::in_type;

fn column_ok(lent: u32, ty: u8, null: bool, v: u64) -> bool
    ensures { result ≡ column_ok_with lent ty null v }
{
    if null {
        return v == 0;
    }
    in_type(lent, ty, v)
}

fn columns_ok(lent: u32, table: &[u8], row: &[u8], nulls: u64) -> bool
    requires table_len_bound { length table.now ≤ 64 }
    requires row_len { length row.now ≡ 8 * length table.now }
    ensures { result ≡ columns_ok_with lent table.now row.now nulls }
{
    (0..table.len()).all(|c| {
        let null = null_marked(nulls, c as u32);
        column_ok(lent, table[c], null, value_in(row, c))
    })
}

/// 12 and 13.
pub fn row_fault_with(table: &[u8], text: &[u8], row: &[u8], nulls: u64) -> Result<(), Refusal>
    requires table_len_bound { length table.now ≤ 64 }
    requires text_len_bound { length text.now ≤ 8192 }
    ensures { fault result ≡ row_fault_with text.now table.now row.now nulls }
{
    if row.len() != 8 * table.len() {
        return Err(Refusal::RowLength);
    }
    if !marks_ok(table.len(), nulls) {
        return Err(Refusal::Row);
    }
    if !columns_ok(text.len() as u32 + 1, table, row, nulls) {
        return Err(Refusal::Row);
    }
    Ok(())
}
