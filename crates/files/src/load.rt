// A screen loaded: 15, then 14, then the checks of the screen held. The records and the pool lie in pieces in the file, so
// they are copied to local arrays of 64 KB each for the checks, which ask the length of the text alone; the lent buffers are
// written when all is passed.
ghost use Rattle.std.specs.Prelude.{◌≡◌, true, ◌&&◌, ◌||◌, suc, ◌+◌, ◌*◌, ◌/◌, ◌≤◌, ltb, leb, length};
ghost use Rattle.checking.specs.Answer.{answered};
ghost use Rattle.checking.specs.Check.{check_answer_in};
ghost use Rattle.file_structure.specs.Read.{structure_ok, held, total, root_of};
ghost use Rattle.files.specs.Answers.{held_answer, room_ok, load_answer, loaded_bytes};
ghost use Rattle.files.specs.LoadAnswer.{load_answered};

use crate::held::gather;
use check_lent::check_lent;
use file_structure::{end_word, structure_ok, total_of};
use limits::{COLUMNS, FEW_RECORDS, RECORD, RECORDS, VALUE, VALUES};
use refusal::Refusal;

// What loading answers: the root, and the totals of columns, records, values and bytes of text.
#[derive(Clone, Copy)]
pub struct LoadedScreen {
    pub root: u64,
    pub columns: u64,
    pub used: u64,
    pub values: u64,
    pub bytes: u64,
}

fn check_table(t: &[u8]) -> Result<(), Refusal>
    ensures { answered result ≡ check_answer_in 1 t.now t.now t.now 4097 0 }
{
    check_lent(t, t, t, 0, 4097, 0)
}

// The checks of a screen of too many records, values or bytes of text: 1 or 2, by its table alone. `t` is room for it.
fn check_columns(
    f: &[u8],
    columns: usize,
    used: usize,
    values: usize,
    text: usize,
    root: u32,
    t: &mut [u8],
) -> Result<(), Refusal>
    requires f_value { structure_ok f.now ≡ true }
    requires columns_value { columns ≡ total 1 f.now }
    requires used_value { used ≡ total 2 f.now }
    requires values_value { values ≡ total 3 f.now }
    requires text_value { text ≡ total 5 f.now }
    requires root_value { root ≡ root_of f.now }
    requires text_value_2 { (ltb 4096 used || (ltb 8192 values || ltb 8192 text)) ≡ true }
    requires columns_in_bounds { columns ≤ length t.old }
    ensures { answered result ≡ held_answer f.now }
{
    gather(1, f, t);
    check_table(&t[..columns])
}

// The checks of the screen held, over copies: `t`, `rs` and `p` are room for them.
fn check_copies(
    f: &[u8],
    columns: usize,
    used: usize,
    values: usize,
    text: usize,
    root: u32,
    t: &mut [u8],
    rs: &mut [u8],
    p: &mut [u8],
) -> Result<(), Refusal>
    requires f_value { structure_ok f.now ≡ true }
    requires columns_value { columns ≡ total 1 f.now }
    requires used_value { used ≡ total 2 f.now }
    requires values_value { values ≡ total 3 f.now }
    requires text_value { text ≡ total 5 f.now }
    requires root_value { root ≡ root_of f.now }
    requires columns_in_bounds { columns ≤ length t.old }
    requires used_in_bounds { 16 * used ≤ length rs.old }
    requires values_in_bounds { 8 * values ≤ length p.old }
    ensures { answered result ≡ held_answer f.now }
{
    gather(1, f, t);
    gather(2, f, rs);
    gather(3, f, p);
    let records = 16 * used;
    let pool = 8 * values;
    check_lent(
        &t[..columns],
        &rs[..records],
        &p[..pool],
        text,
        used as u64,
        root as u64,
    )
}

// The checks of the screen held. Most screens are small, and small copies cost less to clear.
fn check_held(
    f: &[u8],
    columns: usize,
    used: usize,
    values: usize,
    text: usize,
    root: u32,
) -> Result<(), Refusal>
    requires f_value { structure_ok f.now ≡ true }
    requires columns_value { columns ≡ total 1 f.now }
    requires used_value { used ≡ total 2 f.now }
    requires values_value { values ≡ total 3 f.now }
    requires text_value { text ≡ total 5 f.now }
    requires root_value { root ≡ root_of f.now }
    ensures { answered result ≡ held_answer f.now }
{
    if 64 < columns {
        return Err(Refusal::Table);
    }
    let mut t = [0u8; COLUMNS];
    if (4096 < used) | ((8192 < values) | (8192 < text)) {
        return check_columns(f, columns, used, values, text, root, &mut t);
    }
    if (used <= 64) & (values <= 64) {
        let mut few = [0u8; RECORD * FEW_RECORDS];
        let mut small = [0u8; VALUE * 64];
        return check_copies(
            f, columns, used, values, text, root, &mut t, &mut few, &mut small,
        );
    }
    let mut rs = [0u8; RECORD * RECORDS];
    let mut p = [0u8; VALUE * VALUES];
    check_copies(
        f, columns, used, values, text, root, &mut t, &mut rs, &mut p,
    )
}

fn room_ok(
    columns: usize,
    used: usize,
    values: usize,
    text: usize,
    t: usize,
    rs: usize,
    p: usize,
    x: usize,
) -> bool
    ensures { result ≡ (leb columns t && (leb used (rs / 16) && (leb values (p / 8) && leb text x))) }
{
    (columns <= t) & ((used <= rs / 16) & ((values <= p / 8) & (text <= x)))
}

pub fn load_screen(
    f: &[u8],
    t: &mut [u8],
    rs: &mut [u8],
    p: &mut [u8],
    x: &mut [u8],
) -> Result<LoadedScreen, Refusal>
    ensures answer { load_answered result ≡ load_answer f.now (length t.old) (length rs.old)
        (length p.old) (length x.old) }
    ensures table { t.new ≡ loaded_bytes (load_answered result) t.old (held 1 f.now) }
    ensures records { rs.new ≡ loaded_bytes (load_answered result) rs.old (held 2 f.now) }
    ensures pool { p.new ≡ loaded_bytes (load_answered result) p.old (held 3 f.now) }
    ensures text { x.new ≡ loaded_bytes (load_answered result) x.old (held 5 f.now) }
{
    if !structure_ok(f) {
        return Err(Refusal::File);
    }
    let columns = total_of(1, f);
    let used = total_of(2, f);
    let values = total_of(3, f);
    let text = total_of(5, f);
    if !room_ok(
        columns,
        used,
        values,
        text,
        t.len(),
        rs.len(),
        p.len(),
        x.len(),
    ) {
        return Err(Refusal::Short);
    }
    let root = end_word(f, 20);
    check_held(f, columns, used, values, text, root)?;
    gather(1, f, t);
    gather(2, f, rs);
    gather(3, f, p);
    gather(5, f, x);
    Ok(LoadedScreen {
        root: root as u64,
        columns: columns as u64,
        used: used as u64,
        values: values as u64,
        bytes: text as u64,
    })
}
