//! The shapes of the drives that the tests are run on.

use pblk_model::Shape;

/// The small drive: a line has 4 blocks of start record, 40 of data and 4 of end record.
pub(crate) const SMALL: Shape = Shape::SMALL;

/// Two groups of four units. Of the 192 blocks of a line 4 are start record and 8 end record.
pub(crate) const EIGHT_UNITS: Shape = Shape {
    groups: 2,
    pus: 4,
    capacity: 405,
    ring: 256,
    ..SMALL
};

/// One unit. Of the 48 blocks of a line 4 are start record and 4 end record.
pub(crate) const ONE_UNIT: Shape = Shape {
    pus: 1,
    clba: 48,
    capacity: 90,
    ..SMALL
};

/// The small drive with a target of one sector.
pub(crate) const ONE_SECTOR: Shape = Shape {
    capacity: 1,
    ..SMALL
};

/// The small drive with chunks that are written by fours and no less.
pub(crate) const EQUAL_WRITES: Shape = Shape { ws_min: 4, ..SMALL };

/// Chunks that are written by ones, and at best by 64. Of the 2816 blocks of a line 64 are start
/// record and 128 end record.
pub(crate) const WIDE_STRIPES: Shape = Shape {
    clba: 1408,
    ws_min: 1,
    ws_opt: 64,
    mw_cunits: 64,
    ring: 1024,
    ..SMALL
};

/// The small drive with a cache in which a chunk fits but for a stripe, and a write buffer for it.
pub(crate) const LATE_READS: Shape = Shape {
    mw_cunits: 20,
    ring: 128,
    ..SMALL
};

/// As many units as there may be, with chunks of a stripe. Of the 256 blocks of a line 4 are start
/// record and 8 end record.
pub(crate) const MOST_UNITS: Shape = Shape {
    groups: 8,
    pus: 8,
    clba: 4,
    mw_cunits: 0,
    capacity: 549,
    ring: 2048,
    ..SMALL
};

/// The small drive with sectors of 4096 bytes, and all that was written can be read at once.
pub(crate) const LARGE_SECTORS: Shape = Shape {
    mw_cunits: 0,
    sector: 4096,
    capacity: 90,
    ..SMALL
};
