// The check of a proposed row (02, 2.7) of a screen beside which a text pool is lent (02, 2.10): what the screen's numbers answer. A
// Text column takes any whole part: a plain screen does not read it.
#![tactic(auto)]

ghost use Rattle.std.specs.Prelude.{◌≡◌, true, ◌*◌, ◌≤◌, length};
ghost use Rattle.check_row.specs.Answer.{row_listed};
ghost use Rattle.check_symbols.specs.Answer.{check_row_answer_with};

use check_row::check_of_screen;
use limits::{COLUMNS, RECORD, RECORDS};
use plain_symbols::plain_numbers;
use symbol_free::has_symbols;

// `columns` and `numbers` are room for the screen's numbers.
fn check_of_numbers(
    table: &[u8],
    records: &[u8],
    pool: &[u8],
    text: &[u8],
    used: u64,
    root: u64,
    row: &[u8],
    nulls: u64,
    columns: &mut [u8],
    numbers: &mut [u8],
) -> u32
    requires columns { 64 ≤ length columns.old }
    requires room { used ≤ 4096 → 16 * used ≤ length numbers.old }
    ensures answer { result ≡ check_row_answer_with text.now table.now records.now
        pool.now used root row.now nulls }
    ensures listed { row_listed result ≡ true }
{
    match plain_numbers(table, records, pool, text, used, root, columns, numbers) {
        Err(r) => r.number(),
        Ok(()) => check_of_screen(
            &columns[..table.len()],
            numbers,
            pool,
            used,
            root,
            row,
            nulls,
        ),
    }
}

// It has two callers, so that its copies stand in a frame of their own, which a screen without symbols does not pay for.
fn check_beside_text(
    table: &[u8],
    records: &[u8],
    pool: &[u8],
    text: &[u8],
    used: u64,
    root: u64,
    row: &[u8],
    nulls: u64,
) -> u32
    ensures answer { result ≡ check_row_answer_with text.now table.now records.now
        pool.now used root row.now nulls }
    ensures listed { row_listed result ≡ true }
{
    let mut columns = [0u8; COLUMNS];
    let mut numbers = [0u8; RECORD * RECORDS];
    check_of_numbers(
        table,
        records,
        pool,
        text,
        used,
        root,
        row,
        nulls,
        &mut columns,
        &mut numbers,
    )
}

// Below 256: the refusal's number. 256: the row does not pass. 257: it passes. Nothing is written. A screen without symbols goes
// past the copies: it is its own numbers.
#[unsafe(no_mangle)]
pub extern "C" fn screen_check_row(
    table: &[u8],
    records: &[u8],
    pool: &[u8],
    text: &[u8],
    used: u64,
    root: u64,
    row: &[u8],
    nulls: u64,
) -> u32
    ensures answer { result ≡ check_row_answer_with text.now table.now records.now
        pool.now used root row.now nulls }
    ensures listed { row_listed result ≡ true }
{
    if 8192 < text.len() {
        return check_beside_text(table, records, pool, text, used, root, row, nulls);
    }
    if has_symbols(table, records, used) {
        return check_beside_text(table, records, pool, text, used, root, row, nulls);
    }
    check_of_screen(table, records, pool, used, root, row, nulls)
}
