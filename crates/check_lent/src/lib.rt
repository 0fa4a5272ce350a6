// Checking a screen with a text pool lent beside it, of which checking asks the length alone.
#![tactic(auto)]

ghost use Rattle.std.specs.Prelude.{◌≡◌, cond, suc, ◌≤◌, ltb, length};
ghost use Rattle.checking.specs.Check.{check_answer_in};
ghost use Rattle.checking.specs.Fault.{answer_of};
ghost use Rattle.checking.specs.Tree.{Counted};
ghost use Rattle.checking.specs.Answer.{Accepted, answered};
ghost use Rattle.symbol_screens.proofs.NumbersChecked.{NoText};

use checking::check::{answer_of, check_few, check_with_text};
use limits::RECORDS;
use refusal::Refusal;

// Past the limit every length is refused as the first past it.
fn lent_as(text: usize) -> u32
    ensures { result ≡ cond (ltb 8192 text) 8194 (suc text) }
{
    if 8192 < text {
        return 8194;
    }
    text as u32 + 1
}

// What checking is told of the text pool: nothing, where the screen is taken as one without symbols.
fn lent_if(symbols: bool, text: usize) -> u32
    ensures { result ≡ cond symbols (cond (ltb 8192 text) 8194 (suc text)) 0 }
{
    if symbols {
        return lent_as(text);
    }
    0
}

/// Checking, and the tree counts of an accepted screen's records, each 4,097 if above 4,096. `text` is the number of bytes
/// lent; `types` is room to work in.
pub fn check_lent_counted(
    t: &[u8],
    rs: &[u8],
    p: &[u8],
    text: usize,
    used: u64,
    root: u64,
    types: &mut [u8],
    trees: &mut [u16],
) -> Result<(), Refusal>
    requires used_in_bounds { used ≤ 4096 → used ≤ length types.old }
    requires used_in_bounds_2 { used ≤ 4096 → used ≤ length trees.old }
    ensures value { answered result ≡ check_answer_in (suc text) t.now rs.now p.now used root }
    ensures counted { answered result ≡ Accepted → Counted rs.now trees.new used }
{
    answer_of(check_with_text(t, rs, p, lent_as(text), used, root, types, trees))
}

/// The same, as a fault, of a screen that is taken as one without symbols first, as most are: 8 more if it does not stand so.
// A loop, since with two calls checking would have two callers.
pub fn check_beside(
    t: &[u8],
    rs: &[u8],
    p: &[u8],
    text: usize,
    used: u64,
    root: u64,
    types: &mut [u8],
    trees: &mut [u16],
) -> u32
    requires used_in_bounds { used ≤ 4096 → used ≤ length types.old }
    requires used_in_bounds_2 { used ≤ 4096 → used ≤ length trees.old }
    ensures result_value { answer_of result ≡ check_answer_in (suc text) t.now rs.now p.now used root }
    ensures counted { answer_of result ≡ Accepted → Counted rs.now trees.new used }
    ensures text_bound { result ≡ 0 → (text ≤ 8192) × NoText t.now rs.now used }
{
    let mut symbols = 8192 < text;
    loop {
        let f = check_with_text(t, rs, p, lent_if(symbols, text), used, root, types, trees);
        if symbols {
            return f % 8 + 8;
        }
        if f < 8 {
            return f;
        }
        symbols = true;
    }
}

// Of a long screen.
fn check_long(
    t: &[u8],
    rs: &[u8],
    p: &[u8],
    text: usize,
    used: u64,
    root: u64,
) -> Result<(), Refusal>
    ensures { answered result ≡ check_answer_in (suc text) t.now rs.now p.now used root }
{
    let mut types = [0u8; RECORDS];
    let mut trees = [0u16; RECORDS];
    answer_of(check_beside(t, rs, p, text, used, root, &mut types, &mut trees))
}

/// The answer alone. Most screens have few records.
pub fn check_lent(
    t: &[u8],
    rs: &[u8],
    p: &[u8],
    text: usize,
    used: u64,
    root: u64,
) -> Result<(), Refusal>
    ensures { answered result ≡ check_answer_in (suc text) t.now rs.now p.now used root }
{
    if used <= 64 {
        return check_few(t, rs, p, lent_as(text), used, root);
    }
    check_long(t, rs, p, text, used, root)
}
