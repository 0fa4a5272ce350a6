// Checking a screen: limits and table, then records from 0 up, then the root's type. The first fault is the answer.
ghost use Rattle.std.specs.Prelude.{◌≡◌, ℕ, ◌*◌, ◌/◌, ◌%◌, ◌≤◌, ◌<◌, min, eqb, length, true, false};
ghost use Rattle.records.specs.Record.{node};
ghost use Rattle.checking.specs.Check.{types_known_in, table_ok_in, sizes_ok_in, first_fault_in, records_answer_in, check_answer_in, check_answer};
ghost use Rattle.record_check.specs.Step.{Entered};
ghost use Rattle.record_check.specs.Outside.{CountsOf, Counts};
ghost use Rattle.checking.specs.Tree.{Counted};
ghost use Rattle.checking.specs.Fault.{answer_of, FaultStands, RecordsStand, Stands};
ghost use Rattle.checking.specs.Answer.{Accepted, answered};

use limits::{FEW_RECORDS, VALUES};
use record_check::outside::fill_outside;
use record_check::step::record_step;
use records::record::{Node, fields_in};
use refusal::Refusal;
use value_types::known_type;

// What checking answers is a refusal of 1 to 7, or that the screen is accepted. Inside it is a fault: the number, 0 for none,
// and 8 more where what is refused says the type Text. Where no text pool was lent, one might know it.
// The answer that a fault stands for.
pub fn answer_of(fault: u32) -> Result<(), Refusal>
    ensures { answered result ≡ answer_of fault }
{
    match fault % 8 {
        0 => Ok(()),
        1 => Err(Refusal::Table),
        2 => Err(Refusal::Size),
        3 => Err(Refusal::Root),
        4 => Err(Refusal::Record),
        5 => Err(Refusal::Reference),
        6 => Err(Refusal::Operator),
        _ => Err(Refusal::Types),
    }
}

// The fault of what says the type: 8 more at a Text.
fn fault_at(number: u32, ty: u8) -> u32
    requires { number < 8 }
    ensures result_value { result % 8 ≡ number }
    ensures ty_value { result < 8 → eqb ty 4 ≡ false }
{
    if ty == 4 { number + 8 } else { number }
}

fn types_fault(text: u32, t: &[u8]) -> u32
    ensures t_value { result ≡ 0 → types_known_in text t.now ≡ true }
    ensures result_value { (result ≡ 0 → ⊥) → (result % 8 ≡ 1) × (types_known_in text t.now ≡ false) }
    ensures t_value_2 { (result ≡ 0 → ⊥) → result < 8 → (s : ℕ) → types_known_in s t.now ≡ false }
{
    for ty in t {
        if !known_type(text, *ty) {
            return fault_at(1, *ty);
        }
    }
    0
}

fn table_fault(text: u32, t: &[u8]) -> u32
    ensures t_value { result ≡ 0 → table_ok_in text t.now ≡ true }
    ensures result_value { (result ≡ 0 → ⊥) → (result % 8 ≡ 1) × (table_ok_in text t.now ≡ false) }
    ensures t_value_2 { (result ≡ 0 → ⊥) → result < 8 → (s : ℕ) → table_ok_in s t.now ≡ false }
{
    if 64 < t.len() {
        return 1;
    }
    types_fault(text, t)
}

fn sizes_ok(text: u32, rs: &[u8], p: &[u8], used: u64) -> bool
    ensures { result ≡ sizes_ok_in text rs.now p.now used }
{
    if 4096 < used {
        return false;
    }
    if ((rs.len() / 16) as u64) < used {
        return false;
    }
    if p.len() % 8 != 0 {
        return false;
    }
    if 8193 < text {
        return false;
    }
    p.len() / 8 <= 8192
}

// The first checks: the fault of 1, 2, 3, or 0 if the limits are kept.
fn limits_fault(t: &[u8], rs: &[u8], p: &[u8], text: u32, used: u64, root: u64) -> u32
    ensures t_value { result ≡ 0 → (table_ok_in text t.now ≡ true)
        × (sizes_ok_in text rs.now p.now used ≡ true) × (root < used) }
    ensures fact { (result ≡ 0 → ⊥) → (answer_of result ≡ Accepted → ⊥)
        × (answer_of result ≡ check_answer_in text t.now rs.now p.now used root) }
    ensures stands { (result ≡ 0 → ⊥) → text ≡ 0 → result < 8 → Stands t.now rs.now p.now used root }
{
    let k = table_fault(text, t);
    if k != 0 {
        return k;
    }
    if !sizes_ok(text, rs, p, used) {
        return 2;
    }
    if used <= root {
        return 3;
    }
    0
}

// 4,097 for every count above 4,096.
fn cut(count: u32) -> u16
    ensures { result ≡ min count 4097 }
{
    if count < 4097 { count as u16 } else { 4097 }
}

// The first fault among the records below `used`, or 0. Each record is read once; its entry and its tree count stay in
// tables for the records that name it.
fn fault_below(
    t: &[u8],
    rs: &[u8],
    p: &[u8],
    text: u32,
    days: &[u16],
    truths: &[u16],
    symbols: &[u16],
    used: u32,
    types: &mut [u8],
    trees: &mut [u16],
) -> u32
    requires counts { Counts text p.now days.now truths.now symbols.now }
    requires used_in_bounds { used ≤ length types.old }
    requires used_in_bounds_2 { used ≤ length trees.old }
    requires used_in_bounds_3 { 16 * used ≤ length rs.now }
    requires t_value { types_known_in text t.now ≡ true }
    ensures result_value { result % 8 ≡ first_fault_in text t.now rs.now p.now used }
    ensures value { result % 8 ≡ 0 → result ≡ 0 }
    ensures entered { result ≡ 0 → Entered t.now rs.now types.new used }
    ensures counted { result ≡ 0 → Counted rs.now trees.new used }
    ensures fault_stands { text ≡ 0 → result < 8 → FaultStands t.now rs.now p.now used }
{
    for i in 0..used {
        let f = fields_in(rs, Node(i));
        let s = record_step(t, p, text, days, truths, symbols, types, trees, f, Node(i));
        if s.fault != 0 {
            return fault_at(s.fault, f.ty);
        }
        types[i as usize] = s.entry;
        trees[i as usize] = cut(s.tree);
    }
    0
}

fn records_fault(
    t: &[u8],
    rs: &[u8],
    p: &[u8],
    text: u32,
    days: &[u16],
    truths: &[u16],
    symbols: &[u16],
    used: u32,
    root: u32,
    types: &mut [u8],
    trees: &mut [u16],
) -> u32
    requires counts { Counts text p.now days.now truths.now symbols.now }
    requires used_in_bounds { used ≤ length types.old }
    requires used_in_bounds_2 { used ≤ length trees.old }
    requires used_in_bounds_3 { 16 * used ≤ length rs.now }
    requires t_value { types_known_in text t.now ≡ true }
    requires root_lt_used { root < used }
    ensures result_value { answer_of result ≡ records_answer_in text t.now rs.now p.now used (node root) }
    ensures counted { answer_of result ≡ Accepted → Counted rs.now trees.new used }
    ensures records_stand { text ≡ 0 → result < 8 → RecordsStand t.now rs.now p.now used root }
{
    let f = fault_below(t, rs, p, text, days, truths, symbols, used, types, trees);
    if f != 0 {
        return f;
    }
    if types[root as usize] % 8 != 3 {
        return 7;
    }
    0
}

// The same, with the counts of the values that are no symbol of the text pool.
fn records_pooled(
    t: &[u8],
    rs: &[u8],
    p: &[u8],
    text: u32,
    days: &[u16],
    truths: &[u16],
    used: u32,
    root: u32,
    types: &mut [u8],
    trees: &mut [u16],
) -> u32
    requires p_len_bound { length p.now / 8 ≤ 8192 }
    requires counts_of { CountsOf text p.now 2 days.now × CountsOf text p.now 3 truths.now }
    requires used_in_bounds { used ≤ length types.old }
    requires used_in_bounds_2 { used ≤ length trees.old }
    requires used_in_bounds_3 { 16 * used ≤ length rs.now }
    requires t_value { types_known_in text t.now ≡ true }
    requires root_lt_used { root < used }
    ensures result_value { answer_of result ≡ records_answer_in text t.now rs.now p.now used (node root) }
    ensures counted { answer_of result ≡ Accepted → Counted rs.now trees.new used }
    ensures records_stand { text ≡ 0 → result < 8 → RecordsStand t.now rs.now p.now used root }
{
    let mut symbols = [0u16; VALUES + 1];
    fill_outside(text, p, 4, &mut symbols);
    records_fault(
        t, rs, p, text, days, truths, &symbols, used, root, types, trees,
    )
}

// The same, where lists may share a long pool: a list then asks for two counts instead of looking at its values. A
// function of its own with two callers, so that a short screen has no room for its tables on the stack.
fn records_counted(
    t: &[u8],
    rs: &[u8],
    p: &[u8],
    text: u32,
    used: u32,
    root: u32,
    types: &mut [u8],
    trees: &mut [u16],
) -> u32
    requires p_len_bound { length p.now / 8 ≤ 8192 }
    requires used_in_bounds { used ≤ length types.old }
    requires used_in_bounds_2 { used ≤ length trees.old }
    requires used_in_bounds_3 { 16 * used ≤ length rs.now }
    requires t_value { types_known_in text t.now ≡ true }
    requires root_lt_used { root < used }
    ensures result_value { answer_of result ≡ records_answer_in text t.now rs.now p.now used (node root) }
    ensures counted { answer_of result ≡ Accepted → Counted rs.now trees.new used }
    ensures records_stand { text ≡ 0 → result < 8 → RecordsStand t.now rs.now p.now used root }
{
    let mut days = [0u16; VALUES + 1];
    let mut truths = [0u16; VALUES + 1];
    fill_outside(text, p, 2, &mut days);
    fill_outside(text, p, 3, &mut truths);
    if text == 0 {
        let none = [0u16; 0];
        return records_fault(
            t, rs, p, text, &days, &truths, &none, used, root, types, trees,
        );
    }
    records_pooled(t, rs, p, text, &days, &truths, used, root, types, trees)
}

// The fault of checking, and the tree counts of an accepted screen's records, each 4,097 if above 4,096. `text` is one more
// than the bytes of the text pool that is lent, 0 where none is; `types` is room to work in.
pub fn check_with_text(
    t: &[u8],
    rs: &[u8],
    p: &[u8],
    text: u32,
    used: u64,
    root: u64,
    types: &mut [u8],
    trees: &mut [u16],
) -> u32
    requires used_in_bounds { used ≤ 4096 → used ≤ length types.old }
    requires used_in_bounds_2 { used ≤ 4096 → used ≤ length trees.old }
    ensures result_value { answer_of result ≡ check_answer_in text t.now rs.now p.now used root }
    ensures counted { answer_of result ≡ Accepted → Counted rs.now trees.new used }
    ensures stands { text ≡ 0 → result < 8 → Stands t.now rs.now p.now used root }
{
    let k = limits_fault(t, rs, p, text, used, root);
    if k != 0 {
        return k;
    }
    let u = used as u32;
    let r = root as u32;
    let none = [0u16; 0];
    if used <= 64 {
        return records_fault(t, rs, p, text, &none, &none, &none, u, r, types, trees);
    }
    if 512 < used {
        return records_counted(t, rs, p, text, u, r, types, trees);
    }
    if p.len() <= 1024 {
        return records_fault(t, rs, p, text, &none, &none, &none, u, r, types, trees);
    }
    records_counted(t, rs, p, text, u, r, types, trees)
}

// The same of a screen without a text pool.
pub fn check_counted(
    t: &[u8],
    rs: &[u8],
    p: &[u8],
    used: u64,
    root: u64,
    types: &mut [u8],
    trees: &mut [u16],
) -> Result<(), Refusal>
    requires used_in_bounds { used ≤ 4096 → used ≤ length types.old }
    requires used_in_bounds_2 { used ≤ 4096 → used ≤ length trees.old }
    ensures value { answered result ≡ check_answer t.now rs.now p.now used root }
    ensures counted { answered result ≡ Accepted → Counted rs.now trees.new used }
{
    answer_of(check_with_text(t, rs, p, 0, used, root, types, trees))
}

// The answer alone, of a screen of few records: small tables cost less to clear. The slices are passed on once and not
// twice, which is a tenth of the time of a screen of 3 lines.
pub fn check_few(
    t: &[u8],
    rs: &[u8],
    p: &[u8],
    text: u32,
    used: u64,
    root: u64,
) -> Result<(), Refusal>
    requires { used ≤ 64 }
    ensures { answered result ≡ check_answer_in text t.now rs.now p.now used root }
{
    let k = limits_fault(t, rs, p, text, used, root);
    if k != 0 {
        return answer_of(k);
    }
    let u = used as u32;
    let r = root as u32;
    let none = [0u16; 0];
    let mut types = [0u8; FEW_RECORDS];
    let mut trees = [0u16; FEW_RECORDS];
    answer_of(records_fault(
        t, rs, p, text, &none, &none, &none, u, r, &mut types, &mut trees,
    ))
}

// The same without a text pool, as a fault, with the tree counts, in tables that are lent.
pub fn check_few_counted(
    t: &[u8],
    rs: &[u8],
    p: &[u8],
    used: u64,
    root: u64,
    types: &mut [u8],
    trees: &mut [u16],
) -> u32
    requires used_bound { used ≤ 64 }
    requires used_in_bounds { used ≤ length types.old }
    requires used_in_bounds_2 { used ≤ length trees.old }
    ensures result_value { answer_of result ≡ check_answer t.now rs.now p.now used root }
    ensures counted { answer_of result ≡ Accepted → Counted rs.now trees.new used }
    ensures stands { result < 8 → Stands t.now rs.now p.now used root }
{
    let k = limits_fault(t, rs, p, 0, used, root);
    if k != 0 {
        return k;
    }
    let u = used as u32;
    let r = root as u32;
    let none = [0u16; 0];
    records_fault(t, rs, p, 0, &none, &none, &none, u, r, types, trees)
}
