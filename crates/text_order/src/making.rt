// The words of the starts. Nothing is promised of them where they are made: they are tested then.
ghost use Rattle.std.specs.Prelude.{◌≡◌, true, ◌+◌, ◌*◌, ◌≤◌, ◌<◌, length};
ghost use Rattle.text_order.specs.Codes.{Codes};
ghost use Rattle.text_order.specs.Starts.{Starts};

use crate::testing::{all_right, full_at};
use symbol_ranks::symbol_ranks;

// The longest symbol of each start.
fn fill_starts(size: usize, values: &mut [u64])
    requires { (size ≤ 8192) × (size ≤ length values.old) }
    ensures { Starts size size values.new }
{
    for s in 0..size {
        values[s] = full_at(size, s);
    }
}

// A start of each rank.
fn note_starts(ranks: &[u64], n: usize, starts: &mut [u64])
    requires { (n ≤ length ranks.now) × (8192 ≤ length starts.old) }
{
    for s in 0..n {
        starts[(ranks[s] % 8192) as usize] = s as u64;
    }
}

// How many bytes stand both from a on and from b on, of 16.
fn common(text: &[u8], a: usize, b: usize) -> usize
    requires { (a ≤ 8192) × (b ≤ 8192) }
    ensures { result ≤ 16 }
{
    for k in 0..16 {
        if text.len() <= a + k {
            return k;
        }
        if text.len() <= b + k {
            return k;
        }
        if text[a + k] != text[b + k] {
            return k;
        }
    }
    16
}

// Of more than d bytes s is the first start.
fn open_lengths(firsts: &mut [u64], d: usize, s: u64)
    requires { (17 ≤ length firsts.old) × (d ≤ 16) }
{
    for l in d + 1..17 {
        firsts[l] = s;
    }
}

// What the starts of each rank have in their words beside the rank.
fn fill_guides(text: &[u8], n: usize, starts: &[u64], guides: &mut [u64])
    requires { (n ≤ length starts.now) × (n ≤ length guides.old) }
{
    let mut firsts = [0u64; 17];
    // There is none before the first: a place with no byte in common.
    let mut before: u64 = 8192;
    for r in 0..n {
        let s = starts[r] % 8192;
        let d = common(text, before as usize, s as usize);
        open_lengths(&mut firsts, d, s);
        guides[r] = d as u64 + 32 * (firsts[d] % 8192) + 262144 * before;
        before = s;
    }
}

fn fill_codes(ranks: &[u64], n: usize, guides: &[u64], codes: &mut [u64])
    requires { (n ≤ length ranks.now) × (8192 ≤ length guides.now) × (n ≤ length codes.old) }
{
    for s in 0..n {
        let r = ranks[s] % 8192;
        codes[s] = r + 8192 * (guides[r as usize] % 2147483648);
    }
}

/// Whether the words of the text's starts stand in the front of `codes`.
pub fn number_text(text: &[u8], codes: &mut [u64]) -> bool
    requires { (length text.now ≤ 8192) × (8192 ≤ length codes.old) }
    ensures { result ≡ true → Codes text.now codes.new }
{
    let mut values = [0u64; 8192];
    let mut starts = [0u64; 8192];
    let mut ranks = [0u64; 8192];
    let n = text.len();
    fill_starts(n, &mut values);
    symbol_ranks(text, &values, n, &mut starts, &mut ranks);
    note_starts(&ranks, n, &mut starts);
    fill_guides(text, n, &starts, &mut values);
    fill_codes(&ranks, n, &values, codes);
    all_right(text, &ranks, codes)
}
