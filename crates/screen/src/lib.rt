// Two calls of the C interface (include/screen.h) and nothing else: rewriting a screen, and the slowest one to rewrite. Each
// turns the answer of a layer below into its number and into the values of its out-parameters. No call asks anything of its
// arguments. The merging has no other caller here, so that it is inlined in rewriting; the other calls are crates of their own.
#![tactic(auto)]

ghost use Rattle.std.specs.Prelude.{◌≡◌, true, length};
ghost use Rattle.rewrite_number.specs.Answers.{rewrite_number, new_root_out, new_used_out, passes_out, reasons_used_out};
ghost use Rattle.reasons.specs.Explained.{text_if};
ghost use Rattle.symbol_screens.specs.Rewriting.{rewrite_passes_with};
ghost use Rattle.symbol_reasons.specs.Explained.{explained_answer_with, explained_bytes_with, explained_text_with};
ghost use Rattle.rewrite_promise.specs.Listed.{rewrite_listed};
ghost use Rattle.rewrite_promise.specs.Promises.{returned, BytesKept, RewritePromiseWith};
ghost use Rattle.screen.specs.Listed.{slowest_listed};
ghost use Rattle.slowest.specs.Answers.{slowest_answer, table_written, records_written};
ghost use Rattle.slowest.specs.Calls.{slowest_number, built_root, built_used, SlowestPromise};

use rewrite_number::put_answer;
use rule::rewrite_screen;
use slowest::build::build_slowest;

// Below 256: the refusal's number, and nothing is written. 256: unchanged, the screen returned is the one sent. 257:
// nothing passes, 258: rewritten; the records added stand behind the used ones, and `new_root` and `new_used` have the
// root and the used count of the screen returned. With 258 the front of `reasons` is the text of the reasons. With all
// three `reasons_used` has the length of the text and `passes` the number of passes over the equalities.
#[unsafe(no_mangle)]
pub extern "C" fn screen_rewrite(
    table: &[u8],
    records: &mut [u8],
    pool: &[u8],
    text: &[u8],
    used: u64,
    root: u64,
    reasons: &mut [u8],
    new_root: &mut u64,
    new_used: &mut u64,
    reasons_used: &mut u64,
    passes: &mut u64,
) -> u32
    ensures answer { result ≡ rewrite_number (explained_answer_with text.now table.now
        records.old pool.now used root (length reasons.old)) }
    ensures listed { rewrite_listed result ≡ true }
    ensures root { new_root.new ≡ new_root_out (explained_answer_with text.now table.now
        records.old pool.now used root (length reasons.old)) new_root.old }
    ensures used { new_used.new ≡ new_used_out (explained_answer_with text.now table.now
        records.old pool.now used root (length reasons.old)) new_used.old }
    ensures bytes { records.new ≡ explained_bytes_with text.now table.now
        records.old pool.now used root (length reasons.old) }
    ensures kept { BytesKept records.old records.new used
        (returned result used new_used.new) }
    ensures text { reasons.new ≡ text_if (explained_answer_with text.now table.now
        records.old pool.now used root (length reasons.old)) reasons.old
        (explained_text_with text.now records.old pool.now used root) }
    ensures length { reasons_used.new ≡ reasons_used_out (explained_answer_with text.now
        table.now records.old pool.now used root (length reasons.old))
        (explained_text_with text.now records.old pool.now used root)
        reasons_used.old }
    ensures passes { passes.new ≡ passes_out (explained_answer_with text.now table.now
        records.old pool.now used root (length reasons.old)) (rewrite_passes_with
        text.now records.old pool.now used root) passes.old }
    ensures promise { RewritePromiseWith text.now table.now records.old
        pool.now used root result records.new new_root.new new_used.new
        passes.new }
{
    let rewriting = rewrite_screen(table, records, pool, text, used, root, reasons);
    let answer = rewriting.answer;
    put_answer(
        answer,
        rewriting.length,
        rewriting.passes,
        new_root,
        new_used,
        reasons_used,
        passes,
    )
}

// Below 256: the refusal's number, and nothing is written. 256: the front of `table` and `records` is a screen of so many
// columns that takes as many passes to rewrite, with its root and used count. Which bytes they are is this builder's choice;
// what every choice has in common is `TakesAllPasses` in the promise.
#[unsafe(no_mangle)]
pub extern "C" fn screen_slowest(
    columns: u64,
    table: &mut [u8],
    records: &mut [u8],
    root: &mut u64,
    used: &mut u64,
) -> u32
    ensures answer { result ≡ slowest_number (slowest_answer columns (length table.old)
        (length records.old)) }
    ensures listed { slowest_listed result ≡ true }
    ensures root { root.new ≡ built_root (slowest_answer columns (length table.old)
        (length records.old)) root.old }
    ensures used { used.new ≡ built_used (slowest_answer columns (length table.old)
        (length records.old)) used.old }
    ensures table { table.new ≡ table_written (slowest_answer columns (length table.old)
        (length records.old)) columns table.old }
    ensures records { records.new ≡ records_written (slowest_answer columns (length table.old)
        (length records.old)) columns records.old }
    ensures promise { SlowestPromise columns result table.old table.new records.old
        records.new root.new used.new }
{
    match build_slowest(columns, table, records) {
        Err(r) => r.number(),
        Ok(built) => {
            *root = built.root;
            *used = built.used;
            256
        }
    }
}
