// The lines of a plain screen, judged by the merging: whether they let nothing pass (merged), and each left out in turn (lines).
// Both the line in the way (02, 2.9) and the row shown (02, 2.7) lean on what stands here of lines and rows.
#![tactic(auto)]

pub mod answer;
pub mod lines;
pub mod merged;
