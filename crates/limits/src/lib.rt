// The limits of document 01, by which tables are as long as they are. Contracts say the numbers themselves.
#![tactic(auto)]

/// The columns of a table, at most.
pub const COLUMNS: usize = 64;

/// The records that a screen uses, at most.
pub const RECORDS: usize = 4096;

/// The bytes of a record.
pub const RECORD: usize = 16;

/// The values of a pool, at most.
pub const VALUES: usize = 8192;

/// The bytes of a value.
pub const VALUE: usize = 8;

/// The conjuncts of a screen that is merged, at most: with more it is refused as 9.
pub const CONJUNCTS: usize = 128;

/// The rows of a chain, at most.
pub const ROWS: usize = 1024;

/// The records of a screen that counts as short: its tables cost less to clear.
pub const FEW_RECORDS: usize = 64;

/// The conjuncts of a screen that counts as short.
pub const FEW_CONJUNCTS: usize = 16;
