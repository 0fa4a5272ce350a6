// Numbers in little-endian bytes. A read past the end is 0, so no reader asks anything of the slice; the usual case, all bytes
// there, is tested once for all of them.
ghost use Rattle.std.specs.Prelude.{◌≡◌, ◌+◌, ◌*◌, ◌<◌, ◌^◌, length, get_or};
ghost use Rattle.records.specs.Bytes.{word, value_at};

pub fn byte(s: &[u8], at: usize) -> u8
    ensures { result ≡ get_or s.now at 0 }
{
    if at < s.len() { s[at] } else { 0 }
}

fn join4(b0: u8, b1: u8, b2: u8, b3: u8) -> u32
    ensures { result ≡ b0 + 256 * b1 + 65536 * b2 + 16777216 * b3 }
{
    b0 as u32 + 256 * b1 as u32 + 65536 * b2 as u32 + 16777216 * b3 as u32
}

// Four bytes that are there.
pub fn word_in(s: &[u8], at: usize) -> u32
    requires { at + 3 < length s.now }
    ensures { result ≡ word s.now at }
{
    join4(s[at], s[at + 1], s[at + 2], s[at + 3])
}

pub fn word_at(s: &[u8], at: usize) -> u32
    requires { at < 2 ^ 40 }
    ensures { result ≡ word s.now at }
{
    if at + 3 < s.len() {
        return word_in(s, at);
    }
    join4(
        byte(s, at),
        byte(s, at + 1),
        byte(s, at + 2),
        byte(s, at + 3),
    )
}

fn join8(low: u32, high: u32) -> u64
    ensures { result ≡ low + 4294967296 * high }
{
    low as u64 + 4294967296 * high as u64
}

// The value number `k` of a pool that holds it.
pub fn value_in(p: &[u8], k: usize) -> u64
    requires { 8 * k + 7 < length p.now }
    ensures { result ≡ value_at p.now k }
{
    let at = 8 * k;
    join8(word_in(p, at), word_in(p, at + 4))
}

// The value number `k` of a pool.
pub fn value_at(p: &[u8], k: usize) -> u64
    requires { k < 2 ^ 34 }
    ensures { result ≡ value_at p.now k }
{
    let at = 8 * k;
    if at + 7 < p.len() {
        return value_in(p, k);
    }
    join8(word_at(p, at), word_at(p, at + 4))
}
