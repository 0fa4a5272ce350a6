// The hedge list (02, 2.10 and 2.14) as calls of the C interface (include/screen.h): the list itself, and the tally as a trader
// and as risk see it. What is listed is `symbol_hedge`'s, whatever text pool is lent.
#![tactic(auto)]

ghost use Rattle.std.specs.Prelude.{◌≡◌, length};
ghost use Rattle.tally.specs.Views.{TraderView, RiskView};
ghost use Rattle.symbol_hedge.specs.HedgeWith.{hedge_answer_with, hedge_bytes_with};
ghost use Rattle.screen_hedge.specs.Calls.{Numbered, HedgePromise};

use symbol_hedge::hedge_list_with;
use tally::{Tally, add, risk_view, trader_view};

/// The answer's number, and the rows in each class that the tally grows by.
#[derive(Clone, Copy)]
pub struct Hedged {
    pub number: u32,
    pub passed: u64,
    pub is_false: u64,
    pub unknown: u64,
}

// The call with the tally taken by value.
fn hedge_by_value(
    tally: Tally,
    table: &[u8],
    records: &[u8],
    pool: &[u8],
    text: &[u8],
    used: u64,
    root: u64,
    values: &[u8],
    nulls: &[u64],
    list: &mut [u8],
    count: &mut u64,
) -> Hedged
    ensures { Numbered (hedge_answer_with text.now table.now records.now
        pool.now used root values.now nulls.now (length list.old) tally)
        (hedge_bytes_with text.now table.now records.now pool.now used root
        values.now nulls.now list.old tally)
        result list.new count.old count.new }
{
    match hedge_list_with(
        table, records, pool, text, used, root, values, nulls, list, tally,
    ) {
        Err(r) => Hedged {
            number: r.number(),
            passed: 0,
            is_false: 0,
            unknown: 0,
        },
        Ok(rows) => {
            *count = rows.passed;
            Hedged {
                number: 256,
                passed: rows.passed,
                is_false: rows.is_false,
                unknown: rows.unknown,
            }
        }
    }
}

/// Below 256: the refusal's number, and nothing is written. 256: the first 2 x `count` bytes of `list` are the numbers of the
/// rows that pass, and `tally` has grown by the rows of the chain in each class.
#[unsafe(no_mangle)]
pub extern "C" fn screen_hedge_list(
    table: &[u8],
    records: &[u8],
    pool: &[u8],
    text: &[u8],
    used: u64,
    root: u64,
    values: &[u8],
    nulls: &[u64],
    list: &mut [u8],
    tally: &mut Tally,
    count: &mut u64,
) -> u32
    ensures { HedgePromise text.now table.now records.now pool.now used root
        values.now nulls.now result list.old list.new
        tally.old tally.new count.old count.new }
{
    let h = hedge_by_value(
        *tally, table, records, pool, text, used, root, values, nulls, list, count,
    );
    add(tally, h.passed, h.is_false, h.unknown);
    h.number
}

/// 256: `passed` and `not_passed` are written. 21, and nothing is written: false and unknown together pass 64 bits.
#[unsafe(no_mangle)]
pub extern "C" fn screen_trader_view(tally: &Tally, passed: &mut u64, not_passed: &mut u64) -> u32
    ensures { TraderView tally.now result passed.old passed.new not_passed.old
        not_passed.new }
{
    trader_view(*tally, passed, not_passed)
}

/// 256: the three numbers are written. No tally is refused.
#[unsafe(no_mangle)]
pub extern "C" fn screen_risk_view(
    tally: &Tally,
    passed: &mut u64,
    is_false: &mut u64,
    unknown: &mut u64,
) -> u32
    ensures { RiskView tally.now result passed.new is_false.new unknown.new }
{
    risk_view(*tally, passed, is_false, unknown)
}
