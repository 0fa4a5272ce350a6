// The one line in the way (02, 2.9) of a screen without symbols, as the C call of crate `way_symbols` gives it.
#![tactic(auto)]

ghost use Rattle.std.specs.Prelude.{◌≡◌, true};
ghost use Rattle.way_answer.specs.Answer.{way_answer};
ghost use Rattle.in_the_way.specs.Calls.{way_number, line_out, way_listed, WayPromise};

use judge_lines::answer::Way;
use way_answer::line_in_the_way;

// Below 256: the refusal's number, and nothing is written. 256: a row passes already. 257: no row passes, and `line` has the first
// line whose removal makes some row pass. 258: no row passes, whichever single line is removed.
pub fn line_of_screen(
    table: &[u8],
    records: &[u8],
    pool: &[u8],
    used: u64,
    root: u64,
    line: &mut u64,
) -> u32
    ensures answer { result ≡ way_number (way_answer table.now records.now pool.now
        used root) }
    ensures listed { way_listed result ≡ true }
    ensures line { line.new ≡ line_out (way_answer table.now records.now
        pool.now used root) line.old }
    ensures promise { WayPromise table.now records.now pool.now used root result
        line.new }
{
    match line_in_the_way(table, records, pool, used, root) {
        Err(r) => r.number(),
        Ok(way) => match way {
            Way::Passes => 256,
            Way::Line(number) => {
                *line = number;
                257
            }
            Way::NoLine => 258,
        },
    }
}
