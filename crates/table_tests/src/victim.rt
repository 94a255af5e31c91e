//! Tests of `victim_index`, beside a plain list.

mod random;
mod worked;
