//! What rewriting answered, as the number and the out-parameters of its call (crate `screen`).
#![tactic(auto)]

ghost use Rattle.std.specs.Prelude.{◌≡◌};
ghost use Rattle.rewrite_number.specs.Answers.{rewrite_number, new_root_out, new_used_out, passes_out};

use merge::answer::RewriteAnswer;

// Answers the number. `length` is that of the text of the reasons, `made` how many passes there were.
pub fn put_answer(
    answer: RewriteAnswer,
    length: u64,
    made: u64,
    new_root: &mut u64,
    new_used: &mut u64,
    reasons_used: &mut u64,
    passes: &mut u64,
) -> u32
    ensures number { result ≡ rewrite_number answer }
    ensures root { new_root.new ≡ new_root_out answer new_root.old }
    ensures used { new_used.new ≡ new_used_out answer new_used.old }
    ensures length { reasons_used.new ≡ passes_out answer length reasons_used.old }
    ensures passes { passes.new ≡ passes_out answer made passes.old }
{
    match answer {
        RewriteAnswer::Refused(k) => k,
        RewriteAnswer::Unchanged => {
            *reasons_used = length;
            *passes = made;
            256
        }
        RewriteAnswer::NothingPasses(literal, behind) => {
            *new_root = literal;
            *new_used = behind;
            *reasons_used = length;
            *passes = made;
            257
        }
        RewriteAnswer::Rewritten(node, count) => {
            *new_root = node;
            *new_used = count;
            *reasons_used = length;
            *passes = made;
            258
        }
    }
}
