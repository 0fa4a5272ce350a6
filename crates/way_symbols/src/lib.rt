// The one line in the way (02, 2.9) of a screen beside which a text pool is lent (02, 2.10): what the screen's numbers answer.
// The call stands here and not in crate `screen`, so that it is an object of its own: in one object with rewriting the functions of
// the merging would have a second caller, and the compiler would no longer inline them there.
#![tactic(auto)]

ghost use Rattle.std.specs.Prelude.{◌≡◌, true, ◌*◌, ◌≤◌, length};
ghost use Rattle.in_the_way.specs.Calls.{way_number, line_out, way_listed};
ghost use Rattle.way_symbols.specs.Answer.{way_answer_with};
ghost use Rattle.way_symbols.specs.Promise.{WayPromiseWith};

use in_the_way::line_of_screen;
use limits::{COLUMNS, RECORD, RECORDS};
use plain_symbols::plain_numbers;
use symbol_free::has_symbols;

// `columns` and `numbers` are room for the screen's numbers.
fn line_of_numbers(
    table: &[u8],
    records: &[u8],
    pool: &[u8],
    text: &[u8],
    used: u64,
    root: u64,
    line: &mut u64,
    columns: &mut [u8],
    numbers: &mut [u8],
) -> u32
    requires columns { 64 ≤ length columns.old }
    requires room { used ≤ 4096 → 16 * used ≤ length numbers.old }
    ensures answer { result ≡ way_number (way_answer_with text.now table.now records.now
        pool.now used root) }
    ensures listed { way_listed result ≡ true }
    ensures line { line.new ≡ line_out (way_answer_with text.now table.now
        records.now pool.now used root) line.old }
    ensures promise { WayPromiseWith text.now table.now records.now
        pool.now used root result line.new }
{
    match plain_numbers(table, records, pool, text, used, root, columns, numbers) {
        Err(r) => r.number(),
        Ok(()) => line_of_screen(&columns[..table.len()], numbers, pool, used, root, line),
    }
}

// It has two callers, so that its copies stand in a frame of their own, which a screen without symbols does not pay for.
fn line_beside_text(
    table: &[u8],
    records: &[u8],
    pool: &[u8],
    text: &[u8],
    used: u64,
    root: u64,
    line: &mut u64,
) -> u32
    ensures answer { result ≡ way_number (way_answer_with text.now table.now records.now
        pool.now used root) }
    ensures listed { way_listed result ≡ true }
    ensures line { line.new ≡ line_out (way_answer_with text.now table.now
        records.now pool.now used root) line.old }
    ensures promise { WayPromiseWith text.now table.now records.now
        pool.now used root result line.new }
{
    let mut columns = [0u8; COLUMNS];
    let mut numbers = [0u8; RECORD * RECORDS];
    line_of_numbers(
        table,
        records,
        pool,
        text,
        used,
        root,
        line,
        &mut columns,
        &mut numbers,
    )
}

// Below 256: the refusal's number, and nothing is written. 256: a row passes already. 257: no row passes, and `line` has the first
// line whose removal makes some row pass. 258: no row passes, whichever single line is removed. A screen without symbols goes
// past the copies: it is its own numbers.
#[unsafe(no_mangle)]
pub extern "C" fn screen_line_in_the_way(
    table: &[u8],
    records: &[u8],
    pool: &[u8],
    text: &[u8],
    used: u64,
    root: u64,
    line: &mut u64,
) -> u32
    ensures answer { result ≡ way_number (way_answer_with text.now table.now records.now
        pool.now used root) }
    ensures listed { way_listed result ≡ true }
    ensures line { line.new ≡ line_out (way_answer_with text.now table.now
        records.now pool.now used root) line.old }
    ensures promise { WayPromiseWith text.now table.now records.now
        pool.now used root result line.new }
{
    if 8192 < text.len() {
        return line_beside_text(table, records, pool, text, used, root, line);
    }
    if has_symbols(table, records, used) {
        return line_beside_text(table, records, pool, text, used, root, line);
    }
    line_of_screen(table, records, pool, used, root, line)
}
