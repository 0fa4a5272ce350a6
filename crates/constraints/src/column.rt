/// What `is_null` and `is_not_null` require of the rows that pass.
#[derive(Clone, Copy)]
pub enum Nullability {
    Unconstrained,
    Null,
    NonNull,
}

/// What became of a bound that was to be tightened.
#[derive(Clone, Copy)]
pub enum BoundChange {
    /// Another value, or the first.
    NewValue,
    /// The same value, closed before and open now.
    NewlyOpen,
    NoChange,
}

/// How a `!= value` resolves once the bounds are known.
#[derive(Clone, Copy)]
pub enum ExcludedResolution {
    /// Outside the range: it says nothing new.
    Drop,
    /// Strictly inside the range: it stays a `!= value`.
    Keep,
    /// On a closed end, which it opens.
    TightenLower,
    TightenUpper,
}
