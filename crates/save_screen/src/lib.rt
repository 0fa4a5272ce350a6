// A screen saved: the checks of a screen, then 14, then the blocks in their order.
#![tactic(auto)]

ghost use Rattle.std.specs.Prelude.{◌≡◌, ◌+◌, ◌*◌, ◌/◌, ◌%◌, ◌≤◌, ◌<◌, ◌++◌, length};
ghost use Rattle.file_blocks.specs.Format.{file_of, file_length, word_bytes, overwrite};
ghost use Rattle.files.specs.Answers.{save_answer, save_bytes};
ghost use Rattle.files.specs.SaveAnswer.{save_answered};

use check_lent::check_lent;
use file_blocks::block::{write_block, write_blocks};
use refusal::Refusal;

fn end_bytes(used: u32, root: u32) -> [u8; 8]
    ensures { result ≡ word_bytes used ++ word_bytes root }
{
    [
        (used % 256) as u8,
        (used / 256 % 256) as u8,
        (used / 65536 % 256) as u8,
        (used / 16777216 % 256) as u8,
        (root % 256) as u8,
        (root / 256 % 256) as u8,
        (root / 65536 % 256) as u8,
        (root / 16777216 % 256) as u8,
    ]
}

fn write_screen(t: &[u8], rs: &[u8], p: &[u8], x: &[u8], used: u32, root: u32, file: &mut [u8])
    requires t_len_bound { length t.now ≤ 64 }
    requires used_bound { used ≤ 4096 }
    requires used_in_bounds { 16 * used ≤ length rs.now }
    requires p_len_bound { length p.now ≤ 65536 }
    requires x_len_bound { length x.now ≤ 8192 }
    requires used_in_bounds_2 { file_length p.now x.now used ≤ length file.old }
    ensures { file.new ≡ overwrite file.old 0
        (file_of t.now rs.now p.now x.now used root) }
{
    let bytes = 16 * used as usize;
    let records = (bytes + 495) / 496;
    let values = (p.len() + 495) / 496;
    let text = (x.len() + 495) / 496;
    write_block(file, 0, 1, t);
    write_blocks(file, 1, 2, &rs[..bytes]);
    write_blocks(file, 1 + records, 3, p);
    write_blocks(file, 1 + records + values, 5, x);
    let end = end_bytes(used, root);
    write_block(file, 1 + records + values + text, 4, &end)
}

// The bytes of pool and text, and the used records.
fn file_length(values: usize, text: usize, used: u32) -> usize
    requires used_bound { used ≤ 4096 }
    requires values_bound { values ≤ 65536 }
    requires text_bound { text ≤ 8192 }
    ensures { result ≡ 512 * (2 + (16 * used + 495) / 496 + (values + 495) / 496 + (text + 495) / 496) }
{
    512 * (2 + (16 * used as usize + 495) / 496 + (values + 495) / 496 + (text + 495) / 496)
}

pub fn save_screen(
    t: &[u8],
    rs: &[u8],
    p: &[u8],
    x: &[u8],
    used: u64,
    root: u64,
    file: &mut [u8],
) -> Result<u64, Refusal>
    ensures answer { save_answered result ≡ save_answer t.now rs.now p.now x.now used root
        (length file.old) }
    ensures bytes { file.new ≡ save_bytes t.now rs.now p.now x.now used
        root file.old }
{
    check_lent(t, rs, p, x.len(), used, root)?;
    let length = file_length(p.len(), x.len(), used as u32);
    if file.len() < length {
        return Err(Refusal::Short);
    }
    write_screen(t, rs, p, x, used as u32, root as u32, file);
    Ok(length as u64)
}
