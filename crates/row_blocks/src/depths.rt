// How much scratch each division takes: beside the 64 words for its own value so many times 64 more. A division works its
// deeper input first and keeps that value while it works the other, so only two inputs that are as deep make it deeper
// (Ershov's numbers). A tree of 4,096 records is at most 11 deep.
ghost use Rattle.std.specs.Prelude.{◌+◌, ◌*◌, ◌<◌, ◌≤◌, length};

use masks::reach::is_kept;
use records::record::{Fields, Node, fields_in};

fn depth_of(a: u64, b: u64) -> u64 {
    if a < b {
        return b;
    }
    if b < a {
        return a;
    }
    if a < 64 { a + 1 } else { a }
}

fn is_division(f: Fields) -> bool {
    if f.kind != 4 {
        return false;
    }
    !is_kept(f)
}

// A record that has no entry is not deep.
fn depth_at(depths: &[u64], n: u32) -> u64 {
    let at = n as usize;
    if at < depths.len() {
        return depths[at];
    }
    0
}

pub fn is_deeper(depths: &[u64], a: u32, b: u32) -> bool {
    depth_at(depths, b) < depth_at(depths, a)
}

fn note_depth(records: &[u8], n: u32, depths: &mut [u64])
    requires n_in_bounds { 16 * n + 15 < length records.now }
    requires n_in_bounds_2 { n < length depths.old }
{
    let f = fields_in(records, Node(n));
    if is_division(f) {
        depths[n as usize] = depth_of(depth_at(depths, f.a), depth_at(depths, f.b));
    }
}

/// The depth of each division up to the root; other entries stay.
pub fn note_depths(records: &[u8], root: Node, depths: &mut [u64])
    requires root_in_bounds { 16 * root.0 + 15 < length records.now }
    requires root_bound { root.0 < 4096 }
    requires in_bounds { 4096 ≤ length depths.old }
{
    for n in 0..root.0 + 1 {
        note_depth(records, n, depths);
    }
}
