// The checksum for bench/checksum_bench.c alone, which calls these two entries: the library's form, by words of eight bytes, and
// the form before 02's 2.4, a pair of bytes at a time with its carry. Both are the checksum of the block.
#![tactic(auto)]

ghost use Rattle.std.specs.Prelude.{◌≡◌, ◌+◌, ◌*◌, ◌≤◌, length};
ghost use Rattle.checksum.specs.Checksum.{ones_add, checksum, cleared};

use checksum::block_checksum;

fn ones_add(a: u32, b: u32) -> u32
    requires a_bound { a ≤ 65535 }
    requires b_bound { b ≤ 65535 }
    ensures value { result ≡ ones_add a b }
    ensures upper_bound { result ≤ 65535 }
{
    let sum = a + b;
    if 65535 < sum {
        return sum - 65535;
    }
    sum
}

fn big_word(high: u8, low: u8) -> u32
    ensures value { result ≡ 256 * high + low }
    ensures upper_bound { result ≤ 65535 }
{
    256 * high as u32 + low as u32
}

fn by_pairs(block: &[u8]) -> u16
    requires { length block.now ≡ 512 }
    ensures { result ≡ checksum (cleared block.now) }
{
    let mut sum: u32 = 0;
    for k in 1..256 {
        let word = big_word(block[2 * k], block[2 * k + 1]);
        sum = ones_add(sum, word);
    }
    (65535 - sum) as u16
}

// 0 of what is no block.
#[unsafe(no_mangle)]
pub extern "C" fn checksum_by_words(block: &[u8]) -> u16
    ensures { length block.now ≡ 512 → result ≡ checksum (cleared block.now) }
{
    if block.len() == 512 {
        return block_checksum(block);
    }
    0
}

// 0 of what is no block.
#[unsafe(no_mangle)]
pub extern "C" fn checksum_by_pairs(block: &[u8]) -> u16
    ensures { length block.now ≡ 512 → result ≡ checksum (cleared block.now) }
{
    if block.len() == 512 {
        return by_pairs(block);
    }
    0
}
