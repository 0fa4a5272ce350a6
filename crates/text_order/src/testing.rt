// Whether the words of the starts are right.
ghost use Rattle.std.specs.Prelude.{◌≡◌, true, ◌⊎◌, ℕ, ◌+◌, ◌≤◌, ◌<◌, length, get_or};
ghost use Rattle.records.specs.Shape.{in_pool};
ghost use Rattle.std.specs.declared.cmp.Ordering.TheVariants.{Less, Equal};
ghost use Rattle.symbols.specs.Symbol.{symbol, cmp_bytes};
ghost use Rattle.text_order.specs.Starts.{most_at, part_at, full_at, Above, Linked, Tested};

use crate::number::{before_in, depth_in, link_in, rank_in};
use symbols::symbol_cmp;

fn most_at(size: usize, s: usize) -> usize
    requires { s ≤ size }
    ensures { result ≡ most_at size s }
{
    if size - s < 16 { size - s } else { 16 }
}

fn part_at(s: usize, l: usize) -> u64
    requires { (s ≤ 8192) × (l ≤ 32) }
    ensures { result ≡ part_at s l }
{
    s as u64 + 4294967296 * l as u64
}

/// The longest symbol of start s.
pub fn full_at(size: usize, s: usize) -> u64
    requires { (s ≤ size) × (size ≤ 8192) }
    ensures { result ≡ full_at size s }
{
    part_at(s, most_at(size, s))
}

fn is_less(text: &[u8], a: u64, b: u64) -> bool
    requires { (in_pool (length text.now) a ≡ true) × (in_pool (length text.now) b ≡ true) }
    ensures { result ≡ true → cmp_bytes (symbol text.now a) (symbol text.now b) ≡ Less }
{
    symbol_cmp(text, a, b).is_lt()
}

fn is_equal(text: &[u8], a: u64, b: u64) -> bool
    requires { (in_pool (length text.now) a ≡ true) × (in_pool (length text.now) b ≡ true) }
    ensures { result ≡ true → cmp_bytes (symbol text.now a) (symbol text.now b) ≡ Equal }
{
    symbol_cmp(text, a, b).is_eq()
}

// The starts of the rank before are below d + 1 bytes from s on.
fn is_above(text: &[u8], ranks: &[u64], s: usize, d: usize, before: usize) -> bool
    requires text_len_bound { (length text.now ≤ 8192) × (length text.now ≤ length ranks.now) }
    requires s_in_bounds { (s < length text.now) × (d < most_at (length text.now) s) }
    ensures { result ≡ true → (get_or ranks.now s 0 ≡ 0) ⊎ Above text.now ranks.now s d }
{
    if ranks[s] == 0 {
        return true;
    }
    if text.len() <= before {
        return false;
    }
    if ranks[before] != ranks[s] - 1 {
        return false;
    }
    is_less(text, full_at(text.len(), before), part_at(s, d + 1))
}

// The link has d bytes of s.
fn is_linked(text: &[u8], codes: &[u64], s: usize, d: usize, link: usize) -> bool
    requires text_len_bound { (length text.now ≤ 8192) × (length text.now ≤ length codes.now) }
    requires s_in_bounds { (s < length text.now) × (d < most_at (length text.now) s) }
    ensures { result ≡ true → (d ≡ 0) ⊎ Linked text.now codes.now s d link }
{
    if d == 0 {
        return true;
    }
    if text.len() <= link {
        return false;
    }
    if most_at(text.len(), link) < d {
        return false;
    }
    if d as u64 <= depth_in(codes[link]) {
        return false;
    }
    is_equal(text, part_at(s, d), part_at(link, d))
}

fn is_right(text: &[u8], ranks: &[u64], codes: &[u64], s: usize) -> bool
    requires text_len_bound { (length text.now ≤ 8192) × (length text.now ≤ length ranks.now) × (length text.now ≤ length codes.now) }
    requires s_in_bounds { s < length text.now }
    ensures { result ≡ true → Tested text.now ranks.now codes.now s }
{
    let w = codes[s];
    let d = depth_in(w) as usize;
    if rank_in(w) != ranks[s] {
        return false;
    }
    if most_at(text.len(), s) <= d {
        return false;
    }
    if !is_above(text, ranks, s, d, before_in(w) as usize) {
        return false;
    }
    is_linked(text, codes, s, d, link_in(w) as usize)
}

/// Of all starts.
pub fn all_right(text: &[u8], ranks: &[u64], codes: &[u64]) -> bool
    requires { (length text.now ≤ 8192) × (length text.now ≤ length ranks.now) × (length text.now ≤ length codes.now) }
    ensures { result ≡ true → (s : ℕ) → s < length text.now
        → Tested text.now ranks.now codes.now s }
{
    (0..text.len()).all(|s| is_right(text, ranks, codes, s))
}
