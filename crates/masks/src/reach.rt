// Which records the root needs in words: those that it reaches by records whose truths are kept.
ghost use Rattle.std.specs.Prelude.{◌≡◌, cond, ◌+◌, ◌*◌, ◌≤◌, ◌<◌, ltb, length, get_or, set};
ghost use Rattle.masks.specs.Block.{is_kept, Closed};

use records::record::{Fields, Node, fields_in};

pub fn is_kept(f: Fields) -> bool
    ensures { result ≡ is_kept f }
{
    if f.kind == 4 {
        return (f.code < 8) | (15 <= f.code);
    }
    if f.kind == 9 {
        return false;
    }
    (3 < f.kind) & (f.kind < 11)
}

// An input is below its record.
fn mark(marks: &mut [u8], m: u32, n: u32)
    requires { n ≤ length marks.old }
    ensures { marks.new ≡ cond (ltb m n) (set marks.old m 1) marks.old }
{
    if m < n {
        marks[m as usize] = 1;
    }
}

/// The root's mark, and those of the inputs of every marked record that is kept.
pub fn mark_reached(records: &[u8], root: Node, marks: &mut [u8])
    requires root_in_bounds { 16 * root.0 + 15 < length records.now }
    requires root_bound { root.0 < 4096 }
    requires in_bounds { 4096 ≤ length marks.old }
    ensures root_after { get_or marks.new root.0 0 ≡ 1 }
    ensures closed { Closed records.now marks.new 0 root.0 }
{
    marks[root.0 as usize] = 1;
    for n in (0..root.0 + 1).rev() {
        let f = fields_in(records, Node(n));
        if (marks[n as usize] == 1) & is_kept(f) {
            mark(marks, f.a, n);
            mark(marks, f.b, n);
            mark(marks, f.c, n);
        }
    }
}
