// What a file holds, copied out of its blocks. The blocks have passed `structure_ok`.
ghost use Rattle.std.specs.Prelude.{◌≡◌, true, ◌+◌, ◌*◌, ◌≤◌, length};
ghost use Rattle.file_blocks.specs.Format.{overwrite};
ghost use Rattle.file_structure.specs.Read.{content_size, taken, held, blocks_ok};

use file_blocks::copy::put;
use file_structure::content_size;

// The content of a block of this kind to byte `at` of `dst`; the byte behind it.
fn take_block(kind: u8, b: &[u8], dst: &mut [u8], at: usize) -> usize
    requires b_len { length b.now ≡ 512 }
    requires b_bound { content_size b.now ≤ 496 }
    requires b_in_bounds { at + length (taken kind b.now) ≤ length dst.old }
    ensures value { result ≡ at + length (taken kind b.now) }
    ensures dst_after { dst.new ≡ overwrite dst.old at (taken kind b.now) }
{
    if b[4] != kind {
        return at;
    }
    let size = content_size(b);
    put(dst, at, &b[16..16 + size]);
    at + size
}

// All that the file holds of a kind, to the front of `dst`.
pub fn gather(kind: u8, f: &[u8], dst: &mut [u8])
    requires f_value { blocks_ok f.now ≡ true }
    requires f_in_bounds { length (held kind f.now) ≤ length dst.old }
    ensures { dst.new ≡ overwrite dst.old 0 (held kind f.now) }
{
    let n = f.len() / 512;
    let mut at: usize = 0;
    for i in 0..n {
        let start = 512 * i;
        let end = start + 512;
        at = take_block(kind, &f[start..end], dst, at);
    }
}
