// A symbol as text: the letter t and two lower-case hexadecimal digits a byte (02, 2.10). Bytes past the pool count as 0, as in
// the definition, so nothing is asked of a value.
#![tactic(auto)]

ghost use Rattle.std.specs.Prelude.{◌≡◌, List, [], ◌∷◌, ◌++◌, ℕ, ◌+◌, ◌*◌, ◌<◌, ◌≤◌, ◌/◌, ◌%◌, length, get_or};
ghost use Rattle.merge.specs.Write.{splice};
ghost use Rattle.symbols.specs.Symbol.{bytes_from, symbol};
ghost use Rattle.symbol_text.specs.Hex.{hex_digit, hex_bytes, symbol_text};

use decimals::put_byte;
use truth::scalar::Scalar;

fn hex_digit(n: u8) -> u8
    requires { n < 16 }
    ensures { result ≡ hex_digit n }
{
    if n < 10 {
        return 48 + n;
    }
    87 + n
}

fn byte_at(text: &[u8], i: usize) -> u8
    ensures { result ≡ get_or text.now i 0 }
{
    if i < text.len() {
        return text[i];
    }
    0
}

// The two digits of one byte.
fn put_hex(s: &mut [u8], at: usize, b: u8)
    requires { at + 2 ≤ length s.old }
    ensures { s.new ≡ splice s.old at (hex_bytes (b ∷ [])) }
{
    put_byte(s, at, hex_digit(b / 16));
    put_byte(s, at + 1, hex_digit(b % 16));
}

// The digits of `count` bytes of the pool, from place `start` on; the place behind them.
fn write_hex(s: &mut [u8], at: usize, text: &[u8], start: u32, count: u32) -> usize
    requires { at + 2 * count ≤ length s.old }
    ensures value { result ≡ at + 2 * count }
    ensures s_after { s.new ≡ splice s.old at (hex_bytes (bytes_from text.now start count)) }
{
    let mut next = at;
    for i in 0..count {
        let b = byte_at(text, start as usize + i as usize);
        put_hex(s, next, b);
        next += 2;
    }
    next
}

/// How many bytes a symbol has in the text.
pub fn symbol_length(v: Scalar) -> usize
    ensures by_index { (text : List ℕ) → result ≡ length (symbol_text (symbol text v.0)) }
    ensures upper_bound { result ≤ 8589934591 }
{
    1 + 2 * (v.0 / 4294967296) as usize
}

/// A symbol from `at` on, and the byte that closes it; the place behind.
pub fn write_symbol(s: &mut [u8], at: usize, text: &[u8], v: Scalar, close: u8) -> usize
    requires { at + length (symbol_text (symbol text.now v.0)) + 1 ≤ length s.old }
    ensures value { result ≡ at + length (symbol_text (symbol text.now v.0)) + 1 }
    ensures s_after { s.new ≡ splice s.old at (symbol_text (symbol text.now v.0) ++ (close ∷ [])) }
{
    put_byte(s, at, b't');
    let end = write_hex(
        s,
        at + 1,
        text,
        (v.0 % 4294967296) as u32,
        (v.0 / 4294967296) as u32,
    );
    put_byte(s, end, close);
    end + 1
}
