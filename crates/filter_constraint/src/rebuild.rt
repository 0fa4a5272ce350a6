// The chain of kept nodes and comparisons: 11, then 16, then its records and the text of its reasons.
ghost use Rattle.std.specs.Prelude.{◌≡◌, ℕ, ◌<◌, ◌≤◌, length, get_or};
ghost use Rattle.constraints.specs.Lined.{lined};
ghost use Rattle.column_constraints.specs.Abstraction.{Conjuncts};
ghost use Rattle.column_constraints.specs.Abstraction.{kinds_in, values_in};
ghost use Rattle.column_reasons.specs.ColumnText.{table_text};
ghost use Rattle.merge.specs.Emit.{Rebuilt, comparisons};
ghost use Rattle.merge.specs.Reasons.{shown_in};
ghost use Rattle.merge.specs.Rewrite.{written_if};
ghost use Rattle.merge.specs.Write.{outcome_bytes};
ghost use Rattle.read_operands.specs.Walk.{first_of};
ghost use Rattle.reasons.specs.Explained.{refuse_long, text_if, length_if};
ghost use Rattle.reckoning.specs.Reckon.{reckoned};
ghost use Rattle.column_table.specs.Words.{columns_of};
ghost use Rattle.column_table.specs.State.{Fits, shown, bits_of};

use explain_columns::explain::{reasons_length, write_reasons};
use merge::answer::RewriteAnswer;
use reckoning::reckon::{is_rewritten, rebuilt_answer};
use resolve_columns::conclude::write_comparisons;
use rewrite::write::write_ands;

/// The answer for a rebuilt chain, and how many bytes the text of its reasons has.
#[derive(Clone, Copy)]
pub struct Rebuilding {
    pub answer: RewriteAnswer,
    pub length: usize,
}

/// The first `keeps` of `kept` are the kept nodes; the columns of `order` are written out as `total` comparisons. `text` is the
/// text pool, of which the reasons of Text columns show bytes.
pub fn rebuild(
    t: &[u8],
    rs: &mut [u8],
    used: u32,
    trees: &[u16],
    told: &[u64],
    cells: &[u64],
    marks: &[u8],
    order: &[u32],
    columns: usize,
    kept: &[u32],
    keeps: usize,
    total: usize,
    text: &[u8],
    reasons: &mut [u8],
) -> Rebuilding
    requires fits { Fits cells.now marks.now × (columns ≤ length order.now) × (columns ≤ 256) × (keeps ≤ length kept.now)
        × (keeps ≤ 256) × (used ≤ 4096) × (total ≤ 100000) × (0 < total) }
    requires by_index { (o : ℕ) → o < columns → get_or order.now o 0 < 64 }
    requires total_value { (s : Conjuncts) → s.kinds ≡ kinds_in told.now → s.values ≡ values_in told.now →
        total ≡ length (comparisons lined (first_of order.now columns) (shown s (columns_of cells.now) marks.now)) }
    ensures answer_value { (s : Conjuncts) → s.kinds ≡ kinds_in told.now → s.values ≡ values_in told.now →
        result.answer ≡ refuse_long (length (table_text (shown_in t.now text.now) (first_of order.now columns)
        (shown s (columns_of cells.now) marks.now))) (length reasons.old)
        (reckoned (length rs.old) trees.now used (first_of kept.now keeps) total) }
    ensures rs_after { (s : Conjuncts) → s.kinds ≡ kinds_in told.now → s.values ≡ values_in told.now →
        rs.new ≡ written_if result.answer rs.old (outcome_bytes t.now rs.old used
        (Rebuilt (first_of kept.now keeps) (bits_of (comparisons lined (first_of order.now columns)
        (shown s (columns_of cells.now) marks.now))))) }
    ensures reasons_after { (s : Conjuncts) → s.kinds ≡ kinds_in told.now → s.values ≡ values_in told.now →
        reasons.new ≡ text_if result.answer reasons.old
        (table_text (shown_in t.now text.now) (first_of order.now columns)
        (shown s (columns_of cells.now) marks.now)) }
    ensures length_value { (s : Conjuncts) → s.kinds ≡ kinds_in told.now → s.values ≡ values_in told.now →
        result.length ≡ length_if result.answer (table_text (shown_in t.now text.now)
        (first_of order.now columns)
        (shown s (columns_of cells.now) marks.now)) }
{
    let answer = rebuilt_answer(rs.len(), trees, kept, keeps, used, total);
    if !is_rewritten(answer) {
        return Rebuilding {
            answer: answer,
            length: 0,
        };
    }
    let length = reasons_length(t, told, cells, marks, order, columns);
    if reasons.len() < length {
        return Rebuilding {
            answer: RewriteAnswer::Refused(16),
            length: 0,
        };
    }
    let u = write_comparisons(t, rs, used, told, cells, marks, order, columns);
    write_ands(rs, kept, keeps, used, keeps + total, u);
    write_reasons(reasons, t, text, told, cells, marks, order, columns);
    Rebuilding {
        answer: answer,
        length: length,
    }
}
