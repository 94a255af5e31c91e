//! Tests of `drive_image`: the file in which a drive is kept.

mod alone;
mod fixture;
mod images;
mod kept;
