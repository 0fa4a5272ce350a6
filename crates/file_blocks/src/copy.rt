// Bytes copied into a lent buffer.
ghost use Rattle.std.specs.Prelude.{◌≡◌, ◌++◌, ◌+◌, ◌≤◌, length, drop};
ghost use Rattle.file_blocks.specs.Format.{overwrite};

// std's `copy_from_slice` would need `memmove` of the host.
fn copy_front(dst: &mut [u8], src: &[u8])
    requires { length src.now ≤ length dst.old }
    ensures { dst.new ≡ src.now ++ drop (length src.now) dst.old }
{
    for (i, b) in src.iter().enumerate() {
        dst[i] = *b;
    }
}

// `src` from byte `at` on.
pub fn put(dst: &mut [u8], at: usize, src: &[u8])
    requires { at + length src.now ≤ length dst.old }
    ensures { dst.new ≡ overwrite dst.old at src.now }
{
    copy_front(&mut dst[at..], src)
}
