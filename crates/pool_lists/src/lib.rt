// The lists of the pool, asked for 64 values at once. Where a screen's lists are long, the pool is put in order once for the
// chain (crate `pool_order`), and a value is looked for by halving. A pool of more than 8,192 values has two parts, each with an
// order of its own.
#![tactic(auto)]

pub mod member;
