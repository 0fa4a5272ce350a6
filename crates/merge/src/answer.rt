/// What rewriting answers: a refusal with its number, that nothing changes, or the new root and used count.
#[derive(Clone, Copy)]
pub enum RewriteAnswer {
    Refused(u32),
    Unchanged,
    /// Root (a false literal) and used.
    NothingPasses(u64, u64),
    /// Root and used.
    Rewritten(u64, u64),
}

/// What rewriting gives: the answer, how many passes over the equalities it made, and how many bytes the text of the
/// reasons has. A refusal says nothing of the passes.
#[derive(Clone, Copy)]
pub struct Rewriting {
    pub answer: RewriteAnswer,
    pub passes: u64,
    pub length: u64,
}
