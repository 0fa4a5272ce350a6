// A column as seven words: one of small numbers (the bounds' kinds, nullability, strict, unsat), the lower bound's value, the
// upper bound's, how many numbers, the lower bound's line and opener, the upper bound's, the null requirement's line. Seven
// zeros are the empty column. The table is cleared for every screen, so a word less is time.
ghost use Rattle.std.specs.Prelude.{◌≡◌, ◌<◌, length};
ghost use Rattle.column_table.specs.Words.{kind_word, value_word, limit_lines, line_word, null_word, flag_word, small_word};
ghost use Rattle.column_table.specs.Words.{bound_from, null_from, column_from, words_of, LineFits};

use column_constraints::bound::{Bound, Limit};
use column_constraints::column::ColumnConstraints;
use constraints::column::Nullability;
use limits::COLUMNS;
use truth::scalar::Scalar;

/// Words of a column.
pub const WORDS: usize = 7;
/// Words of the table.
pub const CELLS: usize = COLUMNS * WORDS;

// What stands at each place of a column's words.
const SMALL: usize = 0;

const LOWER: usize = 1;

const UPPER: usize = 2;

const LEN: usize = 3;

const LOWER_LINES: usize = 4;

const UPPER_LINES: usize = 5;

const SINCE: usize = 6;

fn bound_kind(b: Bound) -> u64
    ensures value { result ≡ kind_word b }
    ensures upper_bound { result < 4 }
{
    match b {
        Bound::Absent => 0,
        Bound::Open(_) => 1,
        Bound::Closed(_) => 2,
    }
}

fn bound_value(b: Bound) -> u64
    ensures { result ≡ value_word b }
{
    match b {
        Bound::Absent => 0,
        Bound::Open(v) => v.value.0,
        Bound::Closed(v) => v.value.0,
    }
}

// The line in the low half of the word, the opener in the high one.
fn limit_lines(v: Limit) -> u64
    ensures value { result ≡ limit_lines v }
    ensures line_bound { v.line < 256 }
{
    v.line as u64 + 4294967296 * (v.opener as u64)
}

fn bound_line(b: Bound) -> u64
    ensures value { result ≡ line_word b }
    ensures line_fits { LineFits b }
{
    match b {
        Bound::Absent => 0,
        Bound::Open(v) => limit_lines(v),
        Bound::Closed(v) => limit_lines(v),
    }
}

fn bound_from(kind: u64, value: u64, lines: u64) -> Bound
    ensures { result ≡ bound_from kind value lines }
{
    let limit = Limit {
        value: Scalar(value),
        line: (lines % 256) as u8,
        opener: (lines / 4294967296) as u32,
    };
    if kind == 0 {
        return Bound::Absent;
    }
    if kind == 1 {
        return Bound::Open(limit);
    }
    Bound::Closed(limit)
}

fn nullability_word(n: Nullability) -> u64
    ensures value { result ≡ null_word n }
    ensures upper_bound { result < 4 }
{
    match n {
        Nullability::Unconstrained => 0,
        Nullability::Null => 1,
        Nullability::NonNull => 2,
    }
}

fn nullability_from(word: u64) -> Nullability
    ensures { result ≡ null_from word }
{
    if word == 0 {
        return Nullability::Unconstrained;
    }
    if word == 1 {
        return Nullability::Null;
    }
    Nullability::NonNull
}

fn flag_word(b: bool) -> u64
    ensures value { result ≡ flag_word b }
    ensures upper_bound { result < 2 }
{
    if b {
        return 1;
    }
    0
}

fn narrow(x: u64) -> usize
    ensures { result ≡ x }
{
    x as usize
}

fn wide(x: usize) -> u64
    ensures { result ≡ x }
{
    x as u64
}

fn small_word(low: Bound, upp: Bound, nul: Nullability, strict: bool, unsat: bool) -> u64
    ensures { result ≡ small_word low upp nul strict unsat }
{
    let l = bound_kind(low);
    let u = bound_kind(upp);
    let n = nullability_word(nul);
    let s = flag_word(strict);
    let d = flag_word(unsat);
    l + 4 * u + 16 * n + 64 * s + 128 * d
}

pub fn read_words(words: &[u64]) -> ColumnConstraints
    requires { length words.now ≡ 7 }
    ensures { result ≡ column_from words.now }
{
    let small = words[SMALL];
    let low = bound_from(small % 4, words[LOWER], words[LOWER_LINES]);
    let upp = bound_from(small / 4 % 4, words[UPPER], words[UPPER_LINES]);
    let nul = nullability_from(small / 16 % 4);
    ColumnConstraints {
        lower: low,
        upper: upp,
        len: narrow(words[LEN]),
        strict: small / 64 % 2 == 1,
        nullability: nul,
        since: words[SINCE],
        unsat: small / 128 == 1,
    }
}

pub fn write_words(words: &mut [u64], c: ColumnConstraints)
    requires { length words.old ≡ 7 }
    ensures words_after { words.new ≡ words_of c }
    ensures line_fits { LineFits c.lower × LineFits c.upper }
{
    let low = c.lower;
    let upp = c.upper;
    let nul = c.nullability;
    words[SMALL] = small_word(low, upp, nul, c.strict, c.unsat);
    words[LOWER] = bound_value(low);
    words[UPPER] = bound_value(upp);
    words[LEN] = wide(c.len);
    words[LOWER_LINES] = bound_line(low);
    words[UPPER_LINES] = bound_line(upp);
    words[SINCE] = c.since;
}
