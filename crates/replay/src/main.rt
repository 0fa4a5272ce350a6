// Runs the recorded screens of standard input and writes the answers, one line a screen; `rt ci` holds them to the file
// stdout beside src/. tools/record wrote both and says in which format: six lines of hex a screen, in blocks of 65,536 bytes.
// A read or a write that fails ends the program with its error.
#![tactic(auto)]

ghost use Rattle.std.specs.Prelude.{◌+◌, ◌<◌, ◌≤◌, length, IfOk, IfSome};

use records::bytes::{byte, word_at};
use std::io;
use std::io::{Read, Write};

/// Where the next line starts, and how many bytes this one spelled.
#[derive(Clone, Copy)]
pub struct Line {
    pub next: usize,
    pub len: usize,
}

/// The calls that a screen was recorded for.
#[derive(Clone, Copy)]
pub enum Call {
    CheckAndColumns,
    TestRow,
    Rewrite,
}

/// What the first line of a screen says: the call, and the numbers that it takes.
#[derive(Clone, Copy)]
pub struct Head {
    pub call: Call,
    pub used: u64,
    pub root: u64,
    pub nulls: u64,
}

fn digit(b: u8) -> Option<u8>
    ensures { IfSome result (λ d. d < 16) }
{
    match b {
        b'0'..=b'9' => Some(b - b'0'),
        b'a'..=b'f' => Some(b - b'a' + 10),
        _ => None,
    }
}

// The byte that two hex digits at i spell.
fn hex_byte(src: &[u8], i: usize) -> Option<u8>
    requires { i < length src.now }
    ensures { IfSome result (λ b. i + 1 < length src.now) }
{
    let high = digit(src[i])?;
    let low = digit(*src.get(i + 1)?)?;
    Some(high * 16 + low)
}

// The bytes of the hex from `from` on go into dst, those that it has room for; what is no hex is passed over.
fn read_line(src: &[u8], from: usize, dst: &mut [u8]) -> Line
    requires { from ≤ length src.now }
    ensures { (result.next ≤ length src.now) × (result.len ≤ length dst.new) }
{
    let mut i = from;
    let mut len = 0;
    // A turn passes one byte or two.
    while i < src.len() {
        if src[i] == b'\n' {
            return Line { next: i + 1, len };
        }
        match hex_byte(src, i) {
            None => i += 1,
            Some(b) => {
                if len < dst.len() {
                    dst[len] = b;
                    len += 1;
                }
                i += 2;
            }
        }
    }
    Line { next: i, len }
}

// The number of the eight bytes from `at` on.
fn number_at(s: &[u8], at: usize) -> u64
    requires { at < 64 }
{
    u64::from(word_at(s, at)) + 4294967296 * u64::from(word_at(s, at + 4))
}

fn head_of(s: &[u8]) -> Head {
    let call = match byte(s, 0) {
        1 => Call::CheckAndColumns,
        2 => Call::TestRow,
        _ => Call::Rewrite,
    };
    Head {
        call,
        used: number_at(s, 1),
        root: number_at(s, 9),
        nulls: number_at(s, 17),
    }
}

// Checking and columns read, whose out-parameters stand at 7 and 9 before the call.
fn check_and_columns<W: Write>(
    out: &mut W,
    table: &[u8],
    records: &[u8],
    pool: &[u8],
    text: &[u8],
    head: Head,
) -> io::Result<()> {
    let mut columns: u64 = 7;
    let mut count: u64 = 9;
    let checked = screen_rows::screen_check(table, records, pool, text, head.used, head.root);
    let read = screen_rows::screen_columns_read(
        table,
        records,
        pool,
        text,
        head.used,
        head.root,
        &mut columns,
        &mut count,
    );
    writeln!(out, "{checked} {read} {columns} {count}")
}

fn test_row<W: Write>(
    out: &mut W,
    table: &[u8],
    records: &[u8],
    pool: &[u8],
    text: &[u8],
    row: &[u8],
    head: Head,
) -> io::Result<()> {
    let answer = screen_rows::screen_test_row(
        table, records, pool, text, head.used, head.root, row, head.nulls,
    );
    writeln!(out, "{answer}")
}

// Where a record starts, or the end of all records that a screen can use.
fn place(record: u64) -> usize {
    if record < 4096 {
        return record as usize * 16;
    }
    65536
}

// The bytes from `from` up to `to` in hex; 00 for one past the end.
fn print_bytes<W: Write>(out: &mut W, s: &[u8], from: usize, to: usize) -> io::Result<()> {
    for i in from..to {
        let b = byte(s, i);
        write!(out, "{b:02x}")?;
    }
    Ok(())
}

// Rewriting, whose out-parameters stand at 7, 9, 11 and 13 before the call; then the records that were added. There is room
// for every text of reasons, which is held to a model elsewhere (tools/compare).
fn rewrite<W: Write>(
    out: &mut W,
    table: &[u8],
    records: &mut [u8],
    pool: &[u8],
    text: &[u8],
    head: Head,
) -> io::Result<()> {
    let mut new_root: u64 = 7;
    let mut new_used: u64 = 9;
    let mut passes: u64 = 11;
    let mut reasons_used: u64 = 13;
    let mut reasons = [0u8; 48128];
    let answer = screen::screen_rewrite(
        table,
        records,
        pool,
        text,
        head.used,
        head.root,
        &mut reasons,
        &mut new_root,
        &mut new_used,
        &mut reasons_used,
        &mut passes,
    );
    write!(out, "{answer} {new_root} {new_used} {passes}")?;
    if answer > 256 {
        write!(out, " ")?;
        print_bytes(out, records, place(head.used), place(new_used))?;
    }
    writeln!(out)
}

fn make_call<W: Write>(
    out: &mut W,
    table: &[u8],
    records: &mut [u8],
    pool: &[u8],
    text: &[u8],
    row: &[u8],
    head: Head,
) -> io::Result<()> {
    match head.call {
        Call::CheckAndColumns => check_and_columns(out, table, records, pool, text, head),
        Call::TestRow => test_row(out, table, records, pool, text, row, head),
        Call::Rewrite => rewrite(out, table, records, pool, text, head),
    }
}

// One screen, behind its first line: its answers are written. Answers where the next screen starts.
fn replay<W: Write>(out: &mut W, src: &[u8], from: usize, head: Head) -> io::Result<usize>
    requires { from ≤ length src.now }
    ensures { IfOk result (λ next. next ≤ length src.now) }
{
    let mut table = [0u8; 80];
    let mut records = [0u8; 2048];
    let mut pool = [0u8; 1024];
    let mut text = [0u8; 64];
    let mut row = [0u8; 640];
    let t = read_line(src, from, &mut table);
    let r = read_line(src, t.next, &mut records);
    let p = read_line(src, r.next, &mut pool);
    let x = read_line(src, p.next, &mut text);
    let w = read_line(src, x.next, &mut row);
    make_call(
        out,
        &table[..t.len],
        &mut records[..r.len],
        &pool[..p.len],
        &text[..x.len],
        &row[..w.len],
        head,
    )?;
    Ok(w.next)
}

// The screens of a block; an empty first line ends it.
fn block<W: Write>(out: &mut W, src: &[u8]) -> io::Result<()> {
    let mut at = 0;
    for _ in 0..100000 {
        if src.len() <= at {
            break;
        }
        let mut head = [0u8; 32];
        let line = read_line(src, at, &mut head);
        if line.len == 0 {
            break;
        }
        at = replay(out, src, line.next, head_of(&head))?;
    }
    Ok(())
}

// Reads until buf is full or the input ends; answers how many bytes it put at the start of buf.
fn read_full<R: Read>(input: &mut R, buf: &mut [u8]) -> io::Result<usize>
    ensures { IfOk result (λ n. n ≤ length buf.new) }
{
    let mut done = 0;
    // A read gives as many bytes as it likes.
    while done < buf.len() {
        let n = input.read(&mut buf[done..])?;
        if n == 0 {
            return Ok(done);
        }
        done += n;
    }
    Ok(done)
}

fn main(rt: HostRuntime) -> io::Result<()> {
    let mut input = rt.stdin();
    let mut out = io::writer(&rt);
    let mut buf = [0u8; 65536];
    for _ in 0..1000 {
        let n = read_full(&mut input, &mut buf)?;
        if n == 0 {
            break;
        }
        block(&mut out, &buf[..n])?;
    }
    out.flush()
}
