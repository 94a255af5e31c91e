//! Geometries as bytes, and addresses as numbers.

use ocssd_geometry::{Address, Geometry, GeometryErr};
use std::process::Abort;

// The page of the small drive's geometry.
fn small_page() -> [u8; 4096] {
    let mut page = [9u8; 4096];
    Geometry::small().write(&mut page);
    page
}

// The page with some of its bytes changed.
fn changed(mut page: [u8; 4096], changes: &[(usize, u8)]) -> [u8; 4096] {
    for (at, byte) in changes {
        if *at < 4096 {
            page[*at] = *byte;
        }
    }
    page
}

#[test]
fn an_address_is_a_number(rt: HostRuntime) {
    let drive = Geometry::small();
    let address = Address {
        group: 0,
        pu: 1,
        chunk: 3,
        block: 7,
    };
    assert!(rt; drive.pack(address) == 359);
    // Block 24 of chunk 0, and group 1.
    let rows = [(359, Some(address)), (24, None), (512, None)];
    for (number, found) in rows {
        assert!(rt; drive.unpack(number) == found);
    }
}

// The bytes of the small drive's page that aren't 0.
static SMALL: [(usize, u8); 11] = [
    (0, 2),
    (9, 1),
    (10, 3),
    (11, 5),
    (64, 1),
    (66, 2),
    (68, 8),
    (72, 24),
    (128, 2),
    (132, 4),
    (136, 8),
];

#[test]
fn what_is_written_reads_back(rt: HostRuntime) {
    let page = small_page();
    assert!(rt; page == changed([0; 4096], &SMALL));
    assert!(rt; Geometry::read(&page) == Ok(Geometry::small()));
    assert!(rt; Geometry::read(&[0; 4095]) == Err(GeometryErr::Length));
}

// Three places, and the bytes that are put there.
type Changes = ((usize, u8), (usize, u8), (usize, u8));

// The refusals of pages with some bytes changed, row by row.
fn walk(rt: &impl Abort, page: &[u8; 4096], rows: &[(Changes, Option<GeometryErr>)]) {
    for (row, ((first, second, third), refusal)) in rows.iter().enumerate() {
        let bytes = changed(*page, &[*first, *second, *third]);
        assert!(rt; Geometry::read(&bytes).err() == *refusal, "row {row}");
    }
}

// A byte that belongs to no field.
const NONE: (usize, u8) = (4095, 0);

// Changes of the small drive's page, and the refusal of each: by a field or by a rule.
static FIELDS: [(Changes, Option<GeometryErr>); 29] = [
    // Fields before rules, each in its order; what stands between the fields is ignored.
    (((1, 7), (12, 7), (4095, 7)), None),
    (((0, 1), (8, 33), (132, 0)), Some(GeometryErr::Field(0))),
    (((8, 33), (132, 0), (144, 1)), Some(GeometryErr::Field(8))),
    (
        ((72, 22), (144, 1), (4095, 7)),
        Some(GeometryErr::Profile(4)),
    ),
    (
        ((136, 6), (140, 3), (144, 1)),
        Some(GeometryErr::Profile(5)),
    ),
    // Each field by itself.
    (((0, 1), NONE, NONE), Some(GeometryErr::Field(0))),
    (((0, 3), NONE, NONE), Some(GeometryErr::Field(0))),
    (((8, 33), NONE, NONE), Some(GeometryErr::Field(8))),
    (((8, 32), NONE, NONE), None),
    (((64, 2), NONE, NONE), Some(GeometryErr::Field(8))),
    (((9, 33), NONE, NONE), Some(GeometryErr::Field(9))),
    (((9, 32), NONE, NONE), None),
    (((66, 3), NONE, NONE), Some(GeometryErr::Field(9))),
    (((10, 33), NONE, NONE), Some(GeometryErr::Field(10))),
    (((10, 32), NONE, NONE), None),
    (((68, 9), NONE, NONE), Some(GeometryErr::Field(10))),
    (((11, 33), NONE, NONE), Some(GeometryErr::Field(11))),
    (((11, 32), NONE, NONE), None),
    (((72, 33), NONE, NONE), Some(GeometryErr::Field(11))),
    (((72, 32), NONE, NONE), None),
    (((64, 0), NONE, NONE), Some(GeometryErr::Field(64))),
    (((66, 0), NONE, NONE), Some(GeometryErr::Field(66))),
    (((66, 1), NONE, NONE), None),
    (((68, 0), NONE, NONE), Some(GeometryErr::Field(68))),
    (((72, 0), NONE, NONE), Some(GeometryErr::Field(72))),
    (((128, 0), NONE, NONE), Some(GeometryErr::Field(128))),
    (((128, 1), NONE, NONE), None),
    (((132, 0), NONE, NONE), Some(GeometryErr::Field(132))),
    (((132, 2), NONE, NONE), None),
];

#[test]
fn each_field_is_refused_at_its_edge(rt: HostRuntime) {
    walk(&rt, &small_page(), &FIELDS);
}

// Changes of a page with wider addresses, and the refusal of each.
static RULES: [(Changes, Option<GeometryErr>); 22] = [
    (((64, 5), (66, 13), NONE), Some(GeometryErr::Profile(1))),
    (((64, 4), (66, 16), NONE), None),
    (((68, 7), NONE, NONE), Some(GeometryErr::Profile(2))),
    (((68, 8), NONE, NONE), None),
    (((68, 1), (69, 4), NONE), Some(GeometryErr::Profile(2))),
    (((68, 0), (69, 4), NONE), None),
    (((128, 3), NONE, NONE), Some(GeometryErr::Profile(3))),
    (((128, 4), NONE, NONE), None),
    (
        ((72, 66), (132, 66), (136, 0)),
        Some(GeometryErr::Profile(3)),
    ),
    (((72, 128), (132, 64), (136, 0)), None),
    (((72, 22), NONE, NONE), Some(GeometryErr::Profile(4))),
    (((72, 28), NONE, NONE), None),
    (((136, 6), NONE, NONE), Some(GeometryErr::Profile(5))),
    (((136, 0), NONE, NONE), None),
    (((136, 24), NONE, NONE), Some(GeometryErr::Profile(5))),
    (((136, 20), NONE, NONE), None),
    (((140, 3), NONE, NONE), Some(GeometryErr::Profile(6))),
    (((140, 4), NONE, NONE), None),
    (((144, 1), NONE, NONE), Some(GeometryErr::Profile(7))),
    (((144, 2), NONE, NONE), None),
    (((8, 32), (9, 17), (11, 5)), Some(GeometryErr::Profile(8))),
    (((8, 32), (9, 16), (11, 5)), None),
];

#[test]
fn each_rule_is_refused_at_its_edge(rt: HostRuntime) {
    // Addresses of 7, 7, 11 and 7 bits.
    let page = changed(small_page(), &[(8, 7), (9, 7), (10, 11), (11, 7)]);
    walk(&rt, &page, &RULES);
}
