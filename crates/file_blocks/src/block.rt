// One block of a file, and the blocks of one kind.
ghost use Rattle.std.specs.Prelude.{◌≡◌, ℕ, ◌+◌, ◌*◌, ◌/◌, ◌≤◌, ◌<◌, length};
ghost use Rattle.file_blocks.specs.Format.{item_size, block, blocks_to, blocks_for, overwrite};

use crate::copy::put;
use checksum::block_checksum;

// What a block of kind `kind` counts that has `bytes` bytes of content.
fn item_count(kind: u8, bytes: usize) -> u16
    requires { bytes ≤ 496 }
    ensures { result ≡ bytes / item_size kind }
{
    if kind == 1 {
        return bytes as u16;
    }
    if kind == 2 {
        return (bytes / 16) as u16;
    }
    if kind == 5 {
        return bytes as u16;
    }
    (bytes / 8) as u16
}

fn block_bytes(number: u16, kind: u8, content: &[u8]) -> [u8; 512]
    requires { length content.now ≤ 496 }
    ensures { result ≡ block number kind content.now }
{
    let mut b = [0u8; 512];
    put(&mut b, 16, content);
    b[2] = (number % 256) as u8;
    b[3] = (number / 256) as u8;
    b[4] = kind;
    let count = item_count(kind, content.len());
    b[5] = (count % 256) as u8;
    b[6] = (count / 256) as u8;
    let sum = block_checksum(&b);
    b[0] = (sum / 256) as u8;
    b[1] = (sum % 256) as u8;
    b
}

// Block number `number` of the file.
pub fn write_block(file: &mut [u8], number: usize, kind: u8, content: &[u8])
    requires number_bound { number < 65536 }
    requires number_in_bounds { 512 * number + 512 ≤ length file.old }
    requires content_len_bound { length content.now ≤ 496 }
    ensures { file.new ≡ overwrite file.old (512 * number) (block number kind content.now) }
{
    let b = block_bytes(number as u16, kind, content);
    put(file, 512 * number, &b)
}

fn piece_end(start: usize, length: usize) -> usize
    requires { start < length }
    ensures { (start ≤ result) × (result ≤ length) × (result ≤ start + 496) × (result < length → result ≡ start + 496) }
{
    if 496 < length - start {
        return start + 496;
    }
    length
}

// All blocks of a kind that may have several, numbered from `first` on.
pub fn write_blocks(file: &mut [u8], first: usize, kind: u8, content: &[u8])
    requires content_bound { first + blocks_for content.now < 65536 }
    requires content_in_bounds { 512 * (first + blocks_for content.now) ≤ length file.old }
    ensures { file.new ≡ overwrite file.old (512 * first)
        (blocks_to first kind content.now (blocks_for content.now)) }
{
    let blocks = (content.len() + 495) / 496;
    for j in 0..blocks {
        let start = 496 * j;
        let end = piece_end(start, content.len());
        write_block(file, first + j, kind, &content[start..end]);
    }
}
