//! The geometry of a drive as its 4096 bytes, and the addresses of its blocks as numbers
//! (Open-Channel SSD Specification 2.0, Geometry, Logical block address).
//!
//! Contracts see a geometry as the model's, by `numbers_of`.
#![tactic(auto)]

mod address;
mod bytes;
mod checks;
mod geometry;

pub use geometry::Geometry;
pub use pblk_model::{Address, GeometryErr, Shape};
