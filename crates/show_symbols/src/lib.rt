// Show me a row (02, 2.7) of a screen beside which a text pool is lent (02, 2.10): what the screen's numbers show.
// The call stands in an object of its own, as the line in the way does.
#![tactic(auto)]

ghost use Rattle.std.specs.Prelude.{◌≡◌, true, ◌*◌, ◌≤◌, length};
ghost use Rattle.show_row.specs.Calls.{show_number, show_listed, row_out, nulls_out, screen_bytes};
ghost use Rattle.show_symbols.specs.Answer.{show_answer_with};
ghost use Rattle.show_symbols.specs.Promise.{ShowPromiseWith};

use limits::{COLUMNS, RECORD, RECORDS};
use plain_symbols::plain_numbers;
use show_row::show_of_screen;
use symbol_free::has_symbols;

// `columns` and `numbers` are room for the screen's numbers.
fn show_of_numbers(
    table: &[u8],
    records: &[u8],
    pool: &[u8],
    text: &[u8],
    used: u64,
    root: u64,
    row: &mut [u8],
    nulls: &mut u64,
    columns: &mut [u8],
    numbers: &mut [u8],
) -> u32
    requires columns { 64 ≤ length columns.old }
    requires room { used ≤ 4096 → 16 * used ≤ length numbers.old }
    ensures answer { result ≡ show_number (show_answer_with text.now table.now records.now
        pool.now used root (length row.old)) }
    ensures listed { show_listed result ≡ true }
    ensures row { row.new ≡ row_out (show_answer_with text.now table.now
        records.now pool.now used root (length row.old)) (screen_bytes
        table.now records.now pool.now used root) row.old }
    ensures nulls { nulls.new ≡ nulls_out (show_answer_with text.now table.now
        records.now pool.now used root (length row.old)) nulls.old }
    ensures promise { ShowPromiseWith text.now table.now records.now
        pool.now used root result row.old row.new nulls.new }
{
    match plain_numbers(table, records, pool, text, used, root, columns, numbers) {
        Err(r) => r.number(),
        Ok(()) => show_of_screen(
            &columns[..table.len()],
            numbers,
            pool,
            used,
            root,
            row,
            nulls,
        ),
    }
}

// It has two callers, so that its copies stand in a frame of their own, which a screen without symbols does not pay for.
fn show_beside_text(
    table: &[u8],
    records: &[u8],
    pool: &[u8],
    text: &[u8],
    used: u64,
    root: u64,
    row: &mut [u8],
    nulls: &mut u64,
) -> u32
    ensures answer { result ≡ show_number (show_answer_with text.now table.now records.now
        pool.now used root (length row.old)) }
    ensures listed { show_listed result ≡ true }
    ensures row { row.new ≡ row_out (show_answer_with text.now table.now
        records.now pool.now used root (length row.old)) (screen_bytes
        table.now records.now pool.now used root) row.old }
    ensures nulls { nulls.new ≡ nulls_out (show_answer_with text.now table.now
        records.now pool.now used root (length row.old)) nulls.old }
    ensures promise { ShowPromiseWith text.now table.now records.now
        pool.now used root result row.old row.new nulls.new }
{
    let mut columns = [0u8; COLUMNS];
    let mut numbers = [0u8; RECORD * RECORDS];
    show_of_numbers(
        table,
        records,
        pool,
        text,
        used,
        root,
        row,
        nulls,
        &mut columns,
        &mut numbers,
    )
}

// Below 256: the refusal's number, and nothing is written. 256: no row passes, and nothing is written. 257: the first 16
// bytes a column of `row`, and `nulls`, are a row that passes. A screen without symbols goes past the copies: it is its own
// numbers.
#[unsafe(no_mangle)]
pub extern "C" fn screen_show_row(
    table: &[u8],
    records: &[u8],
    pool: &[u8],
    text: &[u8],
    used: u64,
    root: u64,
    row: &mut [u8],
    nulls: &mut u64,
) -> u32
    ensures answer { result ≡ show_number (show_answer_with text.now table.now records.now
        pool.now used root (length row.old)) }
    ensures listed { show_listed result ≡ true }
    ensures row { row.new ≡ row_out (show_answer_with text.now table.now
        records.now pool.now used root (length row.old)) (screen_bytes
        table.now records.now pool.now used root) row.old }
    ensures nulls { nulls.new ≡ nulls_out (show_answer_with text.now table.now
        records.now pool.now used root (length row.old)) nulls.old }
    ensures promise { ShowPromiseWith text.now table.now records.now
        pool.now used root result row.old row.new nulls.new }
{
    if 8192 < text.len() {
        return show_beside_text(table, records, pool, text, used, root, row, nulls);
    }
    if has_symbols(table, records, used) {
        return show_beside_text(table, records, pool, text, used, root, row, nulls);
    }
    show_of_screen(table, records, pool, used, root, row, nulls)
}
