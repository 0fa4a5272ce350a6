// Symbols of the lent text pool (02, 2.10): a value packs start and length, and two values are compared by their bytes.
#![tactic(auto)]

ghost use Rattle.std.specs.Prelude.{◌≡◌, true, length};
ghost use Prim.Native.Nat.{◌+◌, ◌≤◌, min};
ghost use Rattle.records.specs.Shape.{in_pool};
ghost use Rattle.symbols.specs.Symbol.{bytes_from, cmp_bytes, symbol, Rest};

use records::bytes::word_in;
use std::cmp::Ordering;

fn shorter(m: usize, n: usize) -> usize
    ensures { result ≡ min m n }
{
    if m < n { m } else { n }
}

// How many bytes at the front of both are passed, four at a time, because they are equal: the rest decides.
fn equal_front(text: &[u8], i: usize, m: usize, j: usize, n: usize) -> usize
    requires { (i + m ≤ length text.now) × (j + n ≤ length text.now) }
    ensures { Rest text.now i m j n result }
{
    let e = shorter(m, n);
    let mut k: usize = 0;
    // Four bytes a turn, as long as there are four; the place where it ends is answered.
    while 4 <= e - k {
        if word_in(text, i + k) != word_in(text, j + k) {
            return k;
        }
        k += 4;
    }
    k
}

// m bytes from place i on, against n bytes from place j on, byte by byte. The first `front` of both can be left out.
fn compare_rest(text: &[u8], i: usize, m: usize, j: usize, n: usize, front: usize) -> Ordering
    requires { (i + m ≤ length text.now) × (j + n ≤ length text.now) × Rest text.now i m j n front }
    ensures { result ≡ cmp_bytes (bytes_from text.now i m) (bytes_from text.now j n) }
{
    let e = shorter(m, n);
    for k in front..e {
        let x = text[i + k];
        let y = text[j + k];
        if x < y {
            return Ordering::Less;
        }
        if y < x {
            return Ordering::Greater;
        }
    }
    m.cmp(&n)
}

// The same from the front. Equal words are passed first, which is faster where the strings are long and alike.
fn compare_bytes(text: &[u8], i: usize, m: usize, j: usize, n: usize) -> Ordering
    requires { (i + m ≤ length text.now) × (j + n ≤ length text.now) }
    ensures { result ≡ cmp_bytes (bytes_from text.now i m) (bytes_from text.now j n) }
{
    let k = equal_front(text, i, m, j, n);
    compare_rest(text, i, m, j, n, k)
}

/// The order of two symbols.
pub fn symbol_cmp(text: &[u8], a: u64, b: u64) -> Ordering
    requires { (in_pool (length text.now) a ≡ true) × (in_pool (length text.now) b ≡ true) }
    ensures { result ≡ cmp_bytes (symbol text.now a) (symbol text.now b) }
{
    compare_bytes(
        text,
        (a % 4294967296) as usize,
        (a / 4294967296) as usize,
        (b % 4294967296) as usize,
        (b / 4294967296) as usize,
    )
}
