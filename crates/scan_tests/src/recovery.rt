//! Tests of `pblk_reference`, the plain recovery, on images made by hand.

mod harness;
mod images;
mod lengths;
mod parts;
