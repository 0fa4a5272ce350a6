// Numbers 4 to 7 of one record, kind by kind: all tests of a kind stand in one function. What later records ask of a
// record is one byte in a table of entries, so that no input is read again, and its tree count.
ghost use Rattle.std.specs.Prelude.{◌≡◌, ◌≤◌, ◌<◌, length};
ghost use Rattle.record_check.specs.Step.{bad, good, pair_fits, binary_entry, column_step, literal_step, null_step, binary_step, not_step};
ghost use Rattle.record_check.specs.Outside.{Counts};
ghost use Rattle.record_check.specs.Step.{null_test_step, between_step, list_step, member_step, record_step};

use crate::fit::list_ok;
use records::record::{Fields, Node};
use value_types::{in_type, known_type};

// A record's fault, 0 for none; its entry in the table; its tree count, one more than those of its inputs.
#[derive(Clone, Copy)]
pub struct Step {
    pub fault: u32,
    pub entry: u8,
    pub tree: u32,
}

fn refused(k: u32) -> Step
    ensures { result ≡ bad k }
{
    Step {
        fault: k,
        entry: 0,
        tree: 0,
    }
}

fn passed(entry: u8, tree: u32) -> Step
    ensures { result ≡ good entry tree }
{
    Step {
        fault: 0,
        entry: entry,
        tree: tree,
    }
}

fn wide(x: u16) -> u32
    ensures same { result ≡ x }
    ensures bounded { result < 65536 }
{
    x as u32
}

fn column_step(t: &[u8], f: Fields) -> Step
    ensures { result ≡ column_step t.now f }
{
    if !(((f.code == 0) & (f.ty == 0)) & ((f.b == 0) & (f.c == 0))) {
        return refused(4);
    }
    let at = f.a as usize;
    if t.len() <= at {
        return refused(5);
    }
    passed(t[at], 1)
}

fn literal_step(text: u32, f: Fields) -> Step
    ensures { result ≡ literal_step text f }
{
    let v = (f.b as u64) + 4294967296 * (f.c as u64);
    if !((f.code == 0) & known_type(text, f.ty)) {
        return refused(4);
    }
    if f.a != 0 {
        return refused(4);
    }
    if !in_type(text, f.ty, v) {
        return refused(4);
    }
    passed(f.ty, 1)
}

fn null_step(text: u32, f: Fields) -> Step
    ensures { result ≡ null_step text f }
{
    if !(((f.code == 0) & known_type(text, f.ty)) & ((f.a == 0) & ((f.b == 0) & (f.c == 0)))) {
        return refused(4);
    }
    passed(f.ty, 1)
}

// Comparisons, to code 7, take two sides of one type, the divisions Int, logic Truth.
fn pair_fits(code: u8, x: u8, y: u8) -> bool
    ensures { result ≡ pair_fits code x y }
{
    if code <= 7 {
        return (0 < x) & (x == y);
    }
    if (13 <= code) & (code <= 14) {
        return (x == 1) & (y == 1);
    }
    (x == 3) & (y == 3)
}

// FloorDivide and Modulus give an Int, every other operator a Truth.
fn binary_entry(code: u8) -> u8
    ensures { result ≡ binary_entry code }
{
    if (13 <= code) & (code <= 14) {
        return 1;
    }
    3
}

fn binary_step(types: &[u8], trees: &[u16], f: Fields, n: Node) -> Step
    requires n_in_bounds { n.0 < length types.now }
    requires n_in_bounds_2 { n.0 < length trees.now }
    ensures { result ≡ binary_step types.now trees.now f n.0 }
{
    if !(((f.code <= 19) & (f.ty == 0)) & (f.c == 0)) {
        return refused(4);
    }
    if n.0 <= f.a {
        return refused(5);
    }
    if n.0 <= f.b {
        return refused(5);
    }
    if (8 <= f.code) & (f.code <= 12) {
        return refused(6);
    }
    let a = f.a as usize;
    let b = f.b as usize;
    if !pair_fits(f.code, types[a] % 8, types[b] % 8) {
        return refused(7);
    }
    passed(binary_entry(f.code), 1 + (wide(trees[a]) + wide(trees[b])))
}

fn not_step(types: &[u8], trees: &[u16], f: Fields, n: Node) -> Step
    requires n_in_bounds { n.0 < length types.now }
    requires n_in_bounds_2 { n.0 < length trees.now }
    ensures { result ≡ not_step types.now trees.now f n.0 }
{
    if !(((f.code == 0) & (f.ty == 0)) & ((f.b == 0) & (f.c == 0))) {
        return refused(4);
    }
    if n.0 <= f.a {
        return refused(5);
    }
    let a = f.a as usize;
    if types[a] % 8 != 3 {
        return refused(7);
    }
    passed(3, 1 + wide(trees[a]))
}

fn null_test_step(types: &[u8], trees: &[u16], f: Fields, n: Node) -> Step
    requires n_in_bounds { n.0 < length types.now }
    requires n_in_bounds_2 { n.0 < length trees.now }
    ensures { result ≡ null_test_step types.now trees.now f n.0 }
{
    if !(((f.code == 0) & (f.ty == 0)) & ((f.b == 0) & (f.c == 0))) {
        return refused(4);
    }
    if n.0 <= f.a {
        return refused(5);
    }
    let a = f.a as usize;
    if types[a] % 8 == 0 {
        return refused(7);
    }
    passed(3, 1 + wide(trees[a]))
}

fn between_step(types: &[u8], trees: &[u16], f: Fields, n: Node) -> Step
    requires n_in_bounds { n.0 < length types.now }
    requires n_in_bounds_2 { n.0 < length trees.now }
    ensures { result ≡ between_step types.now trees.now f n.0 }
{
    if !((f.code <= 3) & (f.ty == 0)) {
        return refused(4);
    }
    if n.0 <= f.a {
        return refused(5);
    }
    if n.0 <= f.b {
        return refused(5);
    }
    if n.0 <= f.c {
        return refused(5);
    }
    let a = f.a as usize;
    let b = f.b as usize;
    let c = f.c as usize;
    let x = types[a] % 8;
    if !(((0 < x) & (x == types[b] % 8)) & ((0 < x) & (x == types[c] % 8))) {
        return refused(7);
    }
    passed(3, 1 + (wide(trees[a]) + (wide(trees[b]) + wide(trees[c]))))
}

fn list_step(text: u32, p: &[u8], days: &[u16], truths: &[u16], symbols: &[u16], f: Fields) -> Step
    requires { Counts text p.now days.now truths.now symbols.now }
    ensures { result ≡ list_step text p.now f }
{
    if !(((f.code <= 1) & known_type(text, f.ty)) & (f.c == 0)) {
        return refused(4);
    }
    if !list_ok(text, p, days, truths, symbols, f.ty, f.a, f.b) {
        return refused(5);
    }
    passed(8 * (f.ty % 8), 1)
}

fn member_step(types: &[u8], trees: &[u16], f: Fields, n: Node) -> Step
    requires n_in_bounds { n.0 < length types.now }
    requires n_in_bounds_2 { n.0 < length trees.now }
    ensures { result ≡ member_step types.now trees.now f n.0 }
{
    if !(((f.code <= 1) & (f.ty == 0)) & (f.c == 0)) {
        return refused(4);
    }
    if n.0 <= f.a {
        return refused(5);
    }
    if n.0 <= f.b {
        return refused(5);
    }
    let a = f.a as usize;
    let b = f.b as usize;
    let x = types[a] % 8;
    if !((0 < x) & (types[b] == 8 * x)) {
        return refused(7);
    }
    passed(3, 1 + (wide(trees[a]) + wide(trees[b])))
}

// The record n with the fields f, from the entries and tree counts of the records below it.
pub fn record_step(
    t: &[u8],
    p: &[u8],
    text: u32,
    days: &[u16],
    truths: &[u16],
    symbols: &[u16],
    types: &[u8],
    trees: &[u16],
    f: Fields,
    n: Node,
) -> Step
    requires counts { Counts text p.now days.now truths.now symbols.now }
    requires n_in_bounds { n.0 < length types.now }
    requires n_in_bounds_2 { n.0 < length trees.now }
    ensures { result ≡ record_step text t.now p.now types.now trees.now f n.0 }
{
    if f.zero != 0 {
        return refused(4);
    }
    let kind = f.kind;
    match kind {
        1 => column_step(t, f),
        2 => literal_step(text, f),
        3 => null_step(text, f),
        4 => binary_step(types, trees, f, n),
        5 => not_step(types, trees, f, n),
        6 => null_test_step(types, trees, f, n),
        7 => null_test_step(types, trees, f, n),
        8 => between_step(types, trees, f, n),
        9 => list_step(text, p, days, truths, symbols, f),
        10 => member_step(types, trees, f, n),
        _ => refused(4),
    }
}
