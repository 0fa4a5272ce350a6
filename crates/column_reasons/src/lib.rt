// The reasons of one column's comparisons as text: document 02, 2.6. Its places are gone through as where the comparisons
// are written out (crate rewrite, emit); how long the text is comes before its first byte. t is the column table, `text` the
// text pool.
#![tactic(auto)]

ghost use Rattle.std.specs.Prelude.{◌≡◌, List, ℕ, ◌+◌, ◌≤◌, length};
ghost use Rattle.constraints.specs.Comparisons.{collect_column_comparisons};
ghost use Rattle.constraints.specs.Lined.{lined};
ghost use Rattle.column_constraints.specs.Abstraction.{Conjuncts, numbered, column_of, compared_of, Fine};
ghost use Rattle.column_constraints.specs.Abstraction.{kinds_in, values_in};
ghost use Rattle.merge.specs.Reasons.{shown_in};
ghost use Rattle.merge.specs.Write.{splice};
ghost use Rattle.reasons.specs.Reason.{reason_in};
ghost use Rattle.reasons.specs.Text.{reason_text};
ghost use Rattle.column_reasons.specs.ColumnText.{column_text};

use column_constraints::bound::Limit;
use column_constraints::column::{ColumnConstraints, Compared};
use columns::comparisons::comparison_at;
use read_operands::operands::Comparison;
use reasons::reason::{reason_length, write_reason};
use records::record::Column;

fn limit_length(t: &[u8], a: Column, k: Comparison, v: Limit) -> usize
    ensures by_index { (text : List ℕ) →
        result ≡ length (reason_text (reason_in (shown_in t.now text) a.0 k v.value.0 v.line)) }
    ensures upper_bound { result ≤ 8589934640 }
{
    reason_length(t, a, k, v.value, v.line as u64)
}

fn write_limit(
    s: &mut [u8],
    at: usize,
    t: &[u8],
    text: &[u8],
    a: Column,
    k: Comparison,
    v: Limit,
) -> usize
    requires { at + length (reason_text (reason_in (shown_in t.now text.now) a.0 k v.value.0 v.line))
        ≤ length s.old }
    ensures value { result ≡ at + length (reason_text (reason_in (shown_in t.now text.now) a.0 k v.value.0
        v.line)) }
    ensures s_after { s.new ≡ splice s.old at
        (reason_text (reason_in (shown_in t.now text.now) a.0 k v.value.0 v.line)) }
{
    write_reason(s, at, t, text, a, k, v.value, v.line as u64)
}

// One place of the column, which may be vacant.
fn place_length(t: &[u8], a: Column, k: Compared) -> usize
    ensures by_index { (text : List ℕ) →
        result ≡ length (column_text (shown_in t.now text) a.0 (compared_of k)) }
    ensures upper_bound { result ≤ 8589934640 }
{
    match k {
        Compared::Vacant => 0,
        Compared::Eq(v) => limit_length(t, a, Comparison::Eq, v),
        Compared::Gt(v) => limit_length(t, a, Comparison::Gt, v),
        Compared::GtEq(v) => limit_length(t, a, Comparison::GtEq, v),
        Compared::Lt(v) => limit_length(t, a, Comparison::Lt, v),
        Compared::LtEq(v) => limit_length(t, a, Comparison::LtEq, v),
        Compared::NotEq(v) => limit_length(t, a, Comparison::NotEq, v),
    }
}

fn write_place(s: &mut [u8], at: usize, t: &[u8], text: &[u8], a: Column, k: Compared) -> usize
    requires { at + length (column_text (shown_in t.now text.now) a.0 (compared_of k)) ≤ length s.old }
    ensures value { result ≡ at + length (column_text (shown_in t.now text.now) a.0 (compared_of k)) }
    ensures s_after { s.new ≡ splice s.old at
        (column_text (shown_in t.now text.now) a.0 (compared_of k)) }
{
    match k {
        Compared::Vacant => at,
        Compared::Eq(v) => write_limit(s, at, t, text, a, Comparison::Eq, v),
        Compared::Gt(v) => write_limit(s, at, t, text, a, Comparison::Gt, v),
        Compared::GtEq(v) => write_limit(s, at, t, text, a, Comparison::GtEq, v),
        Compared::Lt(v) => write_limit(s, at, t, text, a, Comparison::Lt, v),
        Compared::LtEq(v) => write_limit(s, at, t, text, a, Comparison::LtEq, v),
        Compared::NotEq(v) => write_limit(s, at, t, text, a, Comparison::NotEq, v),
    }
}

/// How many bytes the reasons of the column's comparisons have, whatever text pool is lent.
pub fn column_length(t: &[u8], a: Column, told: &[u64], marks: &[u8], c: ColumnConstraints) -> usize
    requires { Fine 128 marks.now c.len }
    ensures value { (s : Conjuncts) → s.kinds ≡ kinds_in told.now → s.values ≡ values_in told.now →
        (text : List ℕ) → result ≡ length (column_text (shown_in t.now text) a.0
        (collect_column_comparisons lined (column_of s (numbered marks.now c)))) }
    ensures upper_bound { result ≤ 1116691503200 }
{
    let places = c.len + 2;
    let mut size: usize = 0;
    for p in 0..places {
        let k = comparison_at(told, marks, c, p);
        size = size + place_length(t, a, k);
    }
    size
}

/// The reasons of the column's comparisons from `at` on; the place behind them.
pub fn write_column_reasons(
    out: &mut [u8],
    at: usize,
    t: &[u8],
    text: &[u8],
    a: Column,
    told: &[u64],
    marks: &[u8],
    c: ColumnConstraints,
) -> usize
    requires { Fine 128 marks.now c.len × ((s : Conjuncts) → s.kinds ≡ kinds_in told.now → s.values ≡ values_in told.now →
        at + length (column_text (shown_in t.now text.now) a.0
        (collect_column_comparisons lined (column_of s (numbered marks.now c)))) ≤ length out.old) }
    ensures value { (s : Conjuncts) → s.kinds ≡ kinds_in told.now → s.values ≡ values_in told.now →
        result ≡ at + length (column_text (shown_in t.now text.now) a.0
        (collect_column_comparisons lined (column_of s (numbered marks.now c)))) }
    ensures out_after { (s : Conjuncts) → s.kinds ≡ kinds_in told.now → s.values ≡ values_in told.now →
        out.new ≡ splice out.old at
        (column_text (shown_in t.now text.now) a.0
        (collect_column_comparisons lined (column_of s (numbered marks.now c)))) }
{
    let places = c.len + 2;
    let mut next = at;
    for p in 0..places {
        let k = comparison_at(told, marks, c, p);
        next = write_place(out, next, t, text, a, k);
    }
    next
}
