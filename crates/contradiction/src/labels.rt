// Columns that equalities make equal get one label, so that what lines say of them can be told to one column at once.
ghost use Rattle.std.specs.Prelude.{◌≡◌, List, ℕ, ◌<◌, ◌≤◌, length, get_or};
ghost use Rattle.truth.specs.FromBytes.{aexpr_of};
ghost use Rattle.merge.specs.Classify as c;
ghost use Rattle.reading.specs.Columns.{ColumnsBelow};
ghost use Rattle.contradiction.specs.Labels.{lines_to, renamed, label_at, Joins, Labels};

use column_table::fields::slot;
use read_operands::operands::Conjunct;
use reading::classify::classify;
use records::record::{Column, Node};

/// Each column under its own number.
pub fn number_columns(labels: &mut [u32])
    requires { length labels.old ≡ 64 }
    ensures by_index { (c : ℕ) → c < 64 → get_or labels.new c 0 ≡ c }
    ensures labels_len_unchanged { length labels.new ≡ length labels.old }
{
    for c in 0..64 {
        labels[c] = c as u32;
    }
}

fn rename(from: u32, to: u32, x: u32) -> u32
    ensures { result ≡ renamed from to x }
{
    if x == from {
        return to;
    }
    x
}

fn rename_all(labels: &mut [u32], from: u32, to: u32)
    requires { length labels.old ≡ 64 }
    ensures by_index { (c : ℕ) → c < 64 → get_or labels.new c 0 ≡ renamed from to (get_or labels.old c 0) }
    ensures labels_len_unchanged { length labels.new ≡ length labels.old }
{
    for c in 0..64 {
        labels[c] = rename(from, to, labels[c]);
    }
}

fn join_columns(labels: &mut [u32], a: Column, b: Column)
    requires { length labels.old ≡ 64 }
    ensures by_index { (c : ℕ) → c < 64 → get_or labels.new c 0 ≡ renamed (label_at labels.old a.0)
        (label_at labels.old b.0) (get_or labels.old c 0) }
    ensures labels_len_unchanged { length labels.new ≡ length labels.old }
{
    let x = slot(a);
    let y = slot(b);
    let from = labels[x];
    let to = labels[y];
    rename_all(labels, from, to);
}

fn join_line(rs: &[u8], node: Node, labels: &mut [u32])
    requires { length labels.old ≡ 64 }
    ensures by_index { (p : List ℕ) → Joins (c.classify (aexpr_of rs.now p) node.0) labels.old
        labels.new }
    ensures labels_len_unchanged { length labels.new ≡ length labels.old }
{
    let k = classify(rs, node);
    match k {
        Conjunct::Bounds(_, _) => {}
        Conjunct::Normalized(_, _) => {}
        Conjunct::Equality(a, b) => join_columns(labels, a, b),
        Conjunct::Recorded(_, _, _) => {}
        Conjunct::NonNullPair(_, _) => {}
        Conjunct::Opaque => {}
    }
}

/// The labels by the equalities among the first n of `nodes`; each column comes under its own number.
pub fn label_lines(rs: &[u8], nodes: &[u32], n: usize, labels: &mut [u32])
    requires { (n ≤ length nodes.now) × (length labels.old ≡ 64) × ((c : ℕ) → c < 64 → get_or labels.old c 0 ≡ c) }
    ensures by_index { (p : List ℕ) → ((i : ℕ) → i < n → ColumnsBelow 64 (c.classify (aexpr_of rs.now p)
        (get_or nodes.now i 0))) → Labels (lines_to (aexpr_of rs.now p) nodes.now n)
        labels.new }
    ensures labels_len_unchanged { length labels.new ≡ length labels.old }
{
    for i in 0..n {
        join_line(rs, Node(nodes[i]), labels);
    }
}
