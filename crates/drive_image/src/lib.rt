//! The file in which a drive is kept: a header with the settings of its target, the geometry, a
//! descriptor for each chunk, and the written blocks with their marks (Open-Channel SSD
//! Specification 2.0, Geometry, Chunk descriptor; the file's parts are this project's).
//!
//! Contracts see a drive as the model's, by `stored`.
#![tactic(auto)]

mod counting;
mod descriptors;
mod fields;
mod kept;
mod loading;
mod making;
mod numbers;
mod parts;
mod storing;

pub use loading::{from_image, load};
pub use making::blank;
pub use numbers::Settings;
pub use ocssd_drive::{Drive, Geometry, GeometryErr};
pub use pblk_model::ImageErr;
pub use storing::{into_image, store};
