// The Internet checksum of a block, RFC 1071, by words of eight bytes: document 02, 2.4.
// One's complement addition may take the words in the order of the machine's bytes, and several at a time: the sums differ
// by a multiple of 65,535 and by a factor of 256, which is a swap of the bytes at the end.
#![tactic(auto)]

ghost use Rattle.std.specs.Prelude.{◌≡◌, ◌+◌, ◌*◌, ◌≤◌, length};
ghost use Rattle.checksum.specs.Checksum.{checksum, cleared};
ghost use Rattle.checksum.specs.Words.{halves, word_sum, fold, swap_bytes};

use records::bytes::value_in;

// Adds the two halves of the word: the sum of 64 words has 40 bits, so no carry is lost.
fn add_word(sum: u64, word: u64) -> u64
    requires { sum ≤ 549755813760 }
    ensures value { result ≡ sum + halves word }
    ensures upper_bound { result ≤ sum + 8589934590 }
{
    sum + (word % 4294967296 + word / 4294967296)
}

// The sum over the words of a block.
fn word_sum(block: &[u8]) -> u64
    requires { length block.now ≡ 512 }
    ensures value { result ≡ word_sum block.now 64 }
    ensures upper_bound { result ≤ 549755813760 }
{
    let mut sum: u64 = 0;
    for k in 0..64 {
        let word = value_in(block, k);
        sum = add_word(sum, word);
    }
    sum
}

fn fold_once(n: u64) -> u64
    ensures { result ≡ fold n }
{
    n % 65536 + n / 65536
}

// The sum of a block's words has at most 40 bits: 25 when folded once, 17 twice, 16 three times.
fn fold_all(n: u64) -> u64
    requires { n ≤ 549755813760 }
    ensures value { result ≡ fold (fold (fold n)) }
    ensures upper_bound { result ≤ 65535 }
{
    let once = fold_once(n);
    let twice = fold_once(once);
    fold_once(twice)
}

fn swap_bytes(n: u64) -> u64
    requires { n ≤ 65535 }
    ensures value { result ≡ swap_bytes n }
    ensures upper_bound { result ≤ 65535 }
{
    256 * (n % 256) + n / 256
}

fn pair(low: u8, high: u8) -> u64
    ensures { result ≡ low + 256 * high }
{
    low as u64 + 256 * high as u64
}

// Over the block as if bytes 0 and 1 were zero.
pub fn block_checksum(block: &[u8]) -> u16
    requires { length block.now ≡ 512 }
    ensures { result ≡ checksum (cleared block.now) }
{
    let all = word_sum(block);
    let first = pair(block[0], block[1]);
    let folded = fold_all(all - first);
    let swapped = swap_bytes(folded);
    (65535 - swapped) as u16
}
