//! Where the blocks of a line lie.

use crate::drives::{small, two_groups};
use pblk_layout::Layout;

// The lengths of the start record, of the end record and of the data at a width.
fn lengths(layout: &Layout, width: u32) -> Option<(u32, u32, u32)> {
    if width > layout.shape().units() {
        return None;
    }
    Some((
        layout.start_len(),
        layout.end_len(width),
        layout.data_len(width),
    ))
}

fn place(layout: &Layout, online: u64, at: u32) -> Option<(u32, u32)> {
    let units = layout.shape().units();
    if units >= 64 || online >= 1 << units {
        return None;
    }
    let blocks = u64::from(layout.width(online)) * u64::from(layout.shape().clba);
    if u64::from(at) >= blocks {
        return None;
    }
    Some(layout.place(online, at))
}

fn addr_of(layout: &Layout, online: u64, unit: u32, block: u32) -> Option<u32> {
    let units = layout.shape().units();
    if units >= 64 || online >= 1 << units {
        return None;
    }
    layout.addr_of(online, unit, block)
}

#[test]
fn lengths_of_lines(rt: HostRuntime) {
    let layout = small();
    for (width, told) in [
        (0, Some((4, 4, 0))),
        (1, Some((4, 4, 16))),
        (2, Some((4, 4, 40))),
        (3, None),
    ] {
        assert_eq!(rt; lengths(&layout, width), told, "at width {width}");
    }
    let layout = two_groups();
    for (width, told) in [
        (0, Some((24, 24, 0))),
        (1, Some((24, 24, 48))),
        (7, Some((24, 24, 624))),
        (8, Some((24, 24, 720))),
        (9, None),
    ] {
        assert_eq!(rt; lengths(&layout, width), told, "at width {width}");
    }
}

#[test]
fn places_and_addresses_on_two_units(rt: HostRuntime) {
    let layout = small();
    for ((online, at), told) in [
        ((3, 0), Some((0, 0))),
        ((3, 3), Some((0, 3))),
        ((3, 4), Some((1, 0))),
        ((3, 8), Some((0, 4))),
        ((3, 13), Some((1, 5))),
        ((3, 47), Some((1, 23))),
        ((3, 48), None),
        ((1, 4), Some((0, 4))),
        ((1, 23), Some((0, 23))),
        ((1, 24), None),
        ((2, 13), Some((1, 13))),
        ((0, 0), None),
    ] {
        assert_eq!(rt; place(&layout, online, at), told, "of {online} at {at}");
        if let Some((unit, block)) = told {
            assert_eq!(rt; addr_of(&layout, online, unit, block), Some(at));
        }
    }
    for ((online, unit, block), told) in [
        ((3, 1, 0), Some(4)),
        ((3, 0, 24), None),
        ((3, 2, 0), None),
        ((3, 64, 0), None),
        ((1, 1, 0), None),
        ((2, 0, 0), None),
        ((2, 1, 23), Some(23)),
    ] {
        assert_eq!(rt;
            addr_of(&layout, online, unit, block),
            told,
            "of {online}: {unit} {block}"
        );
    }
}

// All eight units; all but unit 2; all but units 0 and 5.
#[test]
fn places_and_addresses_on_two_groups(rt: HostRuntime) {
    let layout = two_groups();
    for ((online, at), told) in [
        ((255, 24), Some((1, 0))),
        ((255, 191), Some((7, 23))),
        ((255, 192), Some((0, 24))),
        ((255, 767), Some((7, 95))),
        ((255, 768), None),
        ((251, 48), Some((3, 0))),
        ((251, 167), Some((7, 23))),
        ((251, 168), Some((0, 24))),
        ((251, 671), Some((7, 95))),
        ((251, 672), None),
        ((222, 0), Some((1, 0))),
        ((222, 96), Some((6, 0))),
        ((222, 143), Some((7, 23))),
        ((222, 144), Some((1, 24))),
        ((222, 575), Some((7, 95))),
        ((222, 576), None),
        ((256, 0), None),
    ] {
        assert_eq!(rt; place(&layout, online, at), told, "of {online} at {at}");
        if let Some((unit, block)) = told {
            assert_eq!(rt; addr_of(&layout, online, unit, block), Some(at));
        }
    }
}
