//! Tests of `stripe_placer`, beside the plain steps of `plain_placer`.

mod harness;
mod worked;
mod worlds;
