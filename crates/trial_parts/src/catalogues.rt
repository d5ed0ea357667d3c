use crate::THREE_POINTS;
use boss_model::{DriverId, PointId};
use boss_points::CatalogueRefusal::{
    BadDefault, BadDriver, BadKind, BadName, BadTimes, Missing, NotToml, SameName, TooLong,
    TooMany, UnknownDriver,
};
use boss_points::{Catalogue, CatalogueRefusal, Key, Point};
use std::alloc::Global;
use std::process::Abort;

/// What `sha256sum` says of the canonical text of the three points.
const DIGEST: [u8; 32] = [
    0xaa, 0xf2, 0x4f, 0x74, 0xf7, 0x54, 0x6e, 0xc5, 0xb6, 0x51, 0x86, 0x44, 0xb7, 0x91, 0xc1, 0x6f,
    0x26, 0x69, 0xc8, 0x73, 0x80, 0x76, 0x64, 0x35, 0xde, 0x2d, 0x82, 0xa7, 0xa6, 0x10, 0xd0, 0x59,
];

/// The names of the three points, and the driver, kind and default of each.
const POINTS: &[(&str, &str)] = &[
    (
        "ahu1.damper",
        "DriverId(0) Analog { min: 0, max: 100000 } 20000",
    ),
    ("lamp", "DriverId(0) Binary 0"),
    ("fan", "DriverId(0) Multi { states: 3 } 1"),
];

/// Compares a catalogue with the three points.
fn compare(rt: &impl Abort, alloc: Global, catalogue: &Catalogue) {
    assert!(rt; has_digest(catalogue, &DIGEST));
    assert_eq!(rt; catalogue.count(), 3);
    for place in 0..catalogue.count() {
        let (name, told) = POINTS.get(place as usize).expect(rt, "a point");
        expect_point(rt, alloc, catalogue.point(PointId(place)), name, told);
        assert!(rt; is_at(catalogue, name, place));
    }
}

fn has_digest(catalogue: &Catalogue, digest: &[u8; 32]) -> bool {
    catalogue.digest() == *digest
}

fn expect_point(rt: &impl Abort, alloc: Global, point: &Point, name: &str, told: &str) {
    let read = described(rt, alloc, point);
    assert!(rt; read.as_str() == told, "{name}");
    assert!(rt; point.name.bytes() == name.as_bytes(), "{name}");
}

/// The driver, the kind and the default of a point.
fn described(rt: &impl Abort, alloc: Global, point: &Point) -> String {
    format!(in alloc; "{:?} {:?} {}", point.driver, point.kind, point.default).expect(rt, "memory")
}

/// Whether a name is found at this place.
fn is_at(catalogue: &Catalogue, name: &str, place: u32) -> bool {
    match catalogue.find(name.as_bytes()) {
        Some(PointId(found)) => found == place,
        None => false,
    }
}

#[test]
fn reads_three_points(rt: HostRuntime) {
    match Catalogue::read(rt.alloc(), THREE_POINTS.as_bytes()) {
        Ok(catalogue) => compare(&rt, rt.alloc(), &catalogue),
        Err(_refusal) => rt.panic("three points"),
    }
}

/// Whether a catalogue has one driver, `field`, and finds no other points.
fn has_one_driver(catalogue: &Catalogue) -> bool {
    catalogue.drivers() == 1
        && catalogue.driver_name(DriverId(0)).bytes() == b"field".as_slice()
        && catalogue.find(b"fans").is_none()
        && catalogue.find(b"no name").is_none()
}

#[test]
fn knows_its_driver_and_no_other_point(rt: HostRuntime) {
    let known = match Catalogue::read(rt.alloc(), THREE_POINTS.as_bytes()) {
        Ok(catalogue) => has_one_driver(&catalogue),
        Err(_refusal) => false,
    };
    assert!(rt; known);
}

/// Files that are refused: for each test some that fail it, and some that fail a later test too, or fail it again at a
/// later place.
const REFUSED: &[(&str, CatalogueRefusal)] = &[
    // No TOML: cut short, a key twice, and whole numbers of more than 64 bits.
    ("drivers=['f'", NotToml),
    ("drivers=[]\ndrivers=[]\npoint=[]", NotToml),
    (
        "drivers=['f']\npoint=[{name='a',driver='f',kind='analog',min=0,max=9223372036854775808,default=0}]",
        NotToml,
    ),
    (
        "drivers=['f']\npoint=[{name='a',driver='f',kind='binary',default=-9223372036854775809}]",
        NotToml,
    ),
    // A key that is missing, or is no array; the drivers first.
    ("", Missing { key: Key::Drivers }),
    ("point=[]", Missing { key: Key::Drivers }),
    ("drivers='f'\npoint=[]", Missing { key: Key::Drivers }),
    ("drivers=1\npoint=2", Missing { key: Key::Drivers }),
    ("drivers=[]", Missing { key: Key::Point }),
    ("drivers=[]\npoint='a'", Missing { key: Key::Point }),
    ("drivers=[]\n[point]\nname='a'", Missing { key: Key::Point }),
    // A driver that is no text, no name, or stands earlier; the least place.
    ("drivers=['f',7]\npoint=[]", BadDriver { place: 1 }),
    ("drivers=['']\npoint=[]", BadDriver { place: 0 }),
    ("drivers=['f','Field']\npoint=[]", BadDriver { place: 1 }),
    ("drivers=['a b']\npoint=[]", BadDriver { place: 0 }),
    (
        "drivers=['xxxxxxxxxxxxxxxxxxxxxxxxxxxxxxxxxxxxxxxxxxxxxxxxxxxxxxxxxxxxxxxxx']\npoint=[]",
        BadDriver { place: 0 },
    ),
    ("drivers=['f','g','f']\npoint=[]", BadDriver { place: 2 }),
    ("drivers=['f','f',7]\npoint=[]", BadDriver { place: 1 }),
    ("drivers=['f',7,'f']\npoint=[]", BadDriver { place: 1 }),
    ("drivers=['f','f']\npoint=[7]", BadDriver { place: 1 }),
    // A point that is no table, or whose name is missing, no text or no name; the least place.
    ("drivers=['f']\npoint=[7]", BadName { place: 0 }),
    (
        "drivers=['f']\npoint=[{name='a',driver='f',kind='binary',default=0},{driver='f',kind='binary',default=0}]",
        BadName { place: 1 },
    ),
    (
        "drivers=['f']\npoint=[{name='a',driver='f',kind='binary',default=0},{name=7,driver='f',kind='binary',default=0}]",
        BadName { place: 1 },
    ),
    (
        "drivers=['f']\npoint=[{name='A',driver='f',kind='binary',default=0}]",
        BadName { place: 0 },
    ),
    (
        "drivers=['f']\npoint=[{name='xxxxxxxxxxxxxxxxxxxxxxxxxxxxxxxxxxxxxxxxxxxxxxxxxxxxxxxxxxxxxxxxx',driver='f',kind='binary',default=0}]",
        BadName { place: 0 },
    ),
    (
        "drivers=['f']\npoint=[{name='a',driver='f',kind='binary',default=0},{name='',driver='f',kind='binary',default=0},{name='B',driver='f',kind='binary',default=0}]",
        BadName { place: 1 },
    ),
    (
        "drivers=['f']\npoint=[{name='a',driver='f',kind='binary',default=0},{name='a',driver='f',kind='binary',default=0},{driver='f',kind='binary',default=0}]",
        BadName { place: 2 },
    ),
    (
        "drivers=['f']\npoint=[{name='a',driver='f',kind='valve',default=0},{driver='f',kind='binary'}]",
        BadName { place: 1 },
    ),
    (
        "drivers=['f']\npoint=[{name='a',driver='g',kind='binary',default=0},{name='b',driver='f',kind='binary',default=2},7]",
        BadName { place: 2 },
    ),
    // A name that an earlier point has; the least place.
    (
        "drivers=['f']\npoint=[{name='a',driver='f',kind='binary',default=0},{name='b',driver='f',kind='binary',default=0},{name='a',driver='f',kind='binary',default=0}]",
        SameName { place: 2 },
    ),
    (
        "drivers=['f']\npoint=[{name='a',driver='f',kind='binary',default=0},{name='b',driver='f',kind='binary',default=0},{name='b',driver='f',kind='binary',default=0},{name='a',driver='f',kind='binary',default=0}]",
        SameName { place: 2 },
    ),
    (
        "drivers=['f']\npoint=[{name='a',driver='f',kind='valve',default=0},{name='b',driver='f',kind='binary',default=0},{name='b',driver='f',kind='binary',default=0}]",
        SameName { place: 2 },
    ),
    (
        "drivers=['f']\npoint=[{name='a',driver='f',kind='binary',default=2},{name='a',driver='f',kind='binary',default=0}]",
        SameName { place: 1 },
    ),
    (
        "drivers=['f']\npoint=[{name='a',driver='g',kind='binary',default=0},{name='a',driver='f',kind='binary',default=0}]",
        SameName { place: 1 },
    ),
    // No such kind.
    (
        "drivers=['f']\npoint=[{name='a',driver='f',default=0}]",
        BadKind { place: 0 },
    ),
    (
        "drivers=['f']\npoint=[{name='a',driver='f',kind=7,default=0}]",
        BadKind { place: 0 },
    ),
    (
        "drivers=['f']\npoint=[{name='a',driver='f',kind='binary',default=0},{name='b',driver='f',kind='Binary',default=0}]",
        BadKind { place: 1 },
    ),
    // An analog point without whole limits, in order and within 10^15.
    (
        "drivers=['f']\npoint=[{name='a',driver='f',kind='analog',max=9,default=0}]",
        BadKind { place: 0 },
    ),
    (
        "drivers=['f']\npoint=[{name='a',driver='f',kind='analog',min=0,default=0}]",
        BadKind { place: 0 },
    ),
    (
        "drivers=['f']\npoint=[{name='a',driver='f',kind='analog',min=0.0,max=9,default=0}]",
        BadKind { place: 0 },
    ),
    (
        "drivers=['f']\npoint=[{name='a',driver='f',kind='analog',min=0,max='9',default=0}]",
        BadKind { place: 0 },
    ),
    (
        "drivers=['f']\npoint=[{name='a',driver='f',kind='analog',min=1,max=0,default=1}]",
        BadKind { place: 0 },
    ),
    (
        "drivers=['f']\npoint=[{name='a',driver='f',kind='analog',min=-1000000000000001,max=0,default=0}]",
        BadKind { place: 0 },
    ),
    (
        "drivers=['f']\npoint=[{name='a',driver='f',kind='analog',min=0,max=1000000000000001,default=0}]",
        BadKind { place: 0 },
    ),
    // A point of several states without a whole number of 2 to 255 of them.
    (
        "drivers=['f']\npoint=[{name='a',driver='f',kind='multi',default=1}]",
        BadKind { place: 0 },
    ),
    (
        "drivers=['f']\npoint=[{name='a',driver='f',kind='multi',states=1,default=1}]",
        BadKind { place: 0 },
    ),
    (
        "drivers=['f']\npoint=[{name='a',driver='f',kind='multi',states=256,default=1}]",
        BadKind { place: 0 },
    ),
    (
        "drivers=['f']\npoint=[{name='a',driver='f',kind='multi',states=3.0,default=1}]",
        BadKind { place: 0 },
    ),
    // The least place of a kind, and a kind before a default and a driver at a lesser place.
    (
        "drivers=['f']\npoint=[{name='a',driver='f',kind='binary',default=0},{name='b',driver='f',kind='valve',default=0},{name='c',driver='f',default=0}]",
        BadKind { place: 1 },
    ),
    (
        "drivers=['f']\npoint=[{name='a',driver='f',kind='binary',default=2},{name='b',driver='f',kind='valve',default=0}]",
        BadKind { place: 1 },
    ),
    (
        "drivers=['f']\npoint=[{name='a',driver='g',kind='binary',default=0},{name='b',driver='f',kind='valve',default=0}]",
        BadKind { place: 1 },
    ),
    // A default that is missing, no whole number, or does not fit.
    (
        "drivers=['f']\npoint=[{name='a',driver='f',kind='binary'}]",
        BadDefault { place: 0 },
    ),
    (
        "drivers=['f']\npoint=[{name='a',driver='f',kind='binary',default=0.0}]",
        BadDefault { place: 0 },
    ),
    (
        "drivers=['f']\npoint=[{name='a',driver='f',kind='binary',default='0'}]",
        BadDefault { place: 0 },
    ),
    (
        "drivers=['f']\npoint=[{name='a',driver='f',kind='binary',default=true}]",
        BadDefault { place: 0 },
    ),
    (
        "drivers=['f']\npoint=[{name='a',driver='f',kind='binary',default=2}]",
        BadDefault { place: 0 },
    ),
    (
        "drivers=['f']\npoint=[{name='a',driver='f',kind='binary',default=-1}]",
        BadDefault { place: 0 },
    ),
    (
        "drivers=['f']\npoint=[{name='a',driver='f',kind='analog',min=0,max=9,default=-1}]",
        BadDefault { place: 0 },
    ),
    (
        "drivers=['f']\npoint=[{name='a',driver='f',kind='analog',min=0,max=9,default=10}]",
        BadDefault { place: 0 },
    ),
    (
        "drivers=['f']\npoint=[{name='a',driver='f',kind='multi',states=3,default=0}]",
        BadDefault { place: 0 },
    ),
    (
        "drivers=['f']\npoint=[{name='a',driver='f',kind='multi',states=3,default=4}]",
        BadDefault { place: 0 },
    ),
    // The least place of a default, and a default before a driver at a lesser place.
    (
        "drivers=['f']\npoint=[{name='a',driver='f',kind='binary',default=0},{name='b',driver='f',kind='binary',default=2},{name='c',driver='f',kind='binary',default=3}]",
        BadDefault { place: 1 },
    ),
    (
        "drivers=['f']\npoint=[{name='a',driver='g',kind='binary',default=0},{name='b',driver='f',kind='binary',default=2}]",
        BadDefault { place: 1 },
    ),
    // A driver that is missing, no text, or none of the drivers; the least place.
    (
        "drivers=['f']\npoint=[{name='a',kind='binary',default=0}]",
        UnknownDriver { place: 0 },
    ),
    (
        "drivers=['f']\npoint=[{name='a',driver=0,kind='binary',default=0}]",
        UnknownDriver { place: 0 },
    ),
    (
        "drivers=['f']\npoint=[{name='a',driver='f',kind='binary',default=0},{name='b',driver='F',kind='binary',default=0}]",
        UnknownDriver { place: 1 },
    ),
    (
        "drivers=['f']\npoint=[{name='a',driver='f',kind='binary',default=0},{name='b',driver='g',kind='binary',default=0},{name='c',driver='h',kind='binary',default=0}]",
        UnknownDriver { place: 1 },
    ),
    (
        "drivers=[]\npoint=[{name='a',driver='f',kind='binary',default=0}]",
        UnknownDriver { place: 0 },
    ),
    // A minimum time that is no whole number of 0 to a day.
    (
        "drivers=['f']\npoint=[{name='a',driver='f',kind='binary',default=0,min_on=86400001}]",
        BadTimes { place: 0 },
    ),
    (
        "drivers=['f']\npoint=[{name='a',driver='f',kind='binary',default=0,min_off=86400001}]",
        BadTimes { place: 0 },
    ),
    (
        "drivers=['f']\npoint=[{name='a',driver='f',kind='binary',default=0,min_on=-1}]",
        BadTimes { place: 0 },
    ),
    (
        "drivers=['f']\npoint=[{name='a',driver='f',kind='binary',default=0,min_off=-1}]",
        BadTimes { place: 0 },
    ),
    (
        "drivers=['f']\npoint=[{name='a',driver='f',kind='binary',default=0,min_on=1.0}]",
        BadTimes { place: 0 },
    ),
    (
        "drivers=['f']\npoint=[{name='a',driver='f',kind='binary',default=0,min_off='1'}]",
        BadTimes { place: 0 },
    ),
    (
        "drivers=['f']\npoint=[{name='a',driver='f',kind='binary',default=0,min_on=1,min_off=-1}]",
        BadTimes { place: 0 },
    ),
    // One of the keys at a point that is not binary, be it 0.
    (
        "drivers=['f']\npoint=[{name='a',driver='f',kind='analog',min=0,max=9,default=0,min_on=0}]",
        BadTimes { place: 0 },
    ),
    (
        "drivers=['f']\npoint=[{name='a',driver='f',kind='analog',min=0,max=9,default=0,min_off=1}]",
        BadTimes { place: 0 },
    ),
    (
        "drivers=['f']\npoint=[{name='a',driver='f',kind='multi',states=3,default=1,min_on=1}]",
        BadTimes { place: 0 },
    ),
    (
        "drivers=['f']\npoint=[{name='a',driver='f',kind='multi',states=3,default=1,min_off=0}]",
        BadTimes { place: 0 },
    ),
    // The least place of a time, and a driver before a time at a lesser place.
    (
        "drivers=['f']\npoint=[{name='a',driver='f',kind='binary',default=0,min_on=1},{name='b',driver='f',kind='binary',default=0,min_on=-1},{name='c',driver='f',kind='binary',default=0,min_off=-1}]",
        BadTimes { place: 1 },
    ),
    (
        "drivers=['f']\npoint=[{name='a',driver='f',kind='binary',default=0,min_on=-1},{name='b',driver='g',kind='binary',default=0}]",
        UnknownDriver { place: 1 },
    ),
];

/// Whether a file is refused so.
fn is_refused(alloc: Global, file: &[u8], refusal: CatalogueRefusal) -> bool {
    match Catalogue::read(alloc, file) {
        Ok(_catalogue) => false,
        Err(found) => found == refusal,
    }
}

#[test]
fn refuses_each_fault(rt: HostRuntime) {
    expect_refused(&rt, rt.alloc(), REFUSED);
}

/// Each of these files is refused so.
fn expect_refused(rt: &impl Abort, alloc: Global, rows: &[(&str, CatalogueRefusal)]) {
    for row in rows {
        let refused = is_refused(alloc, row.0.as_bytes(), row.1);
        assert!(rt; refused, "{}", row.0);
    }
}

#[test]
fn refuses_bytes_that_are_no_text(rt: HostRuntime) {
    let file = b"drivers=['\xff']\npoint=[]";
    assert!(rt; is_refused(rt.alloc(), file, NotToml));
}

/// Files that are accepted, and how many points they have: the bounds of each rule, keys that mean nothing here, and
/// no point at all.
const ACCEPTED: &[(&str, u32)] = &[
    ("drivers=[]\npoint=[]", 0),
    (
        "title='plan'\ndrivers=['f']\npoint=[]\n[owner]\nname='a'",
        0,
    ),
    (
        "drivers=['f']\n[[point]]\nname='a'\ndriver='f'\nkind='binary'\ndefault=1\nfloor=3.5",
        1,
    ),
    (
        "drivers=['f']\npoint=[{name='a',driver='f',kind='analog',min=-1000000000000000,max=1000000000000000,default=1000000000000000}]",
        1,
    ),
    (
        "drivers=['f']\npoint=[{name='a',driver='f',kind='analog',min=5,max=5,default=5}]",
        1,
    ),
    (
        "drivers=['f']\npoint=[{name='a',driver='f',kind='multi',states=2,default=2},{name='b',driver='f',kind='multi',states=255,default=255}]",
        2,
    ),
    (
        "drivers=['f','a-._0']\npoint=[{name='a-._0',driver='a-._0',kind='binary',default=0}]",
        1,
    ),
];

/// Whether a file is accepted with so many points.
fn has_points(alloc: Global, file: &[u8], count: u32) -> bool {
    match Catalogue::read(alloc, file) {
        Ok(catalogue) => catalogue.count() == count,
        Err(_refusal) => false,
    }
}

#[test]
fn accepts_the_bounds(rt: HostRuntime) {
    for (text, count) in ACCEPTED {
        let accepted = has_points(rt.alloc(), text.as_bytes(), *count);
        assert!(rt; accepted, "{text}");
    }
}

/// The digests of `pump`, by its keys: what `sha256sum` says of `d heat` and `p pump heat binary 0 1 0`, a line each,
/// and of the same with minimum times at the second line's end.
const PLAIN: [u8; 32] = [
    0x7d, 0x6d, 0x2d, 0xca, 0xd1, 0xab, 0x11, 0x1d, 0xc6, 0x5e, 0x2a, 0x54, 0x8e, 0xa3, 0x52, 0x9b,
    0xa2, 0x30, 0xd3, 0x6e, 0x1d, 0xa2, 0xd9, 0x9a, 0x25, 0xf2, 0x3c, 0x3e, 0x45, 0x3d, 0x12, 0x90,
];

const WITH_BOTH_TIMES: [u8; 32] = [
    0x08, 0xc4, 0x42, 0xe3, 0x85, 0xc5, 0xd0, 0xa3, 0x66, 0xa1, 0x48, 0x7b, 0xe7, 0xaf, 0xa1, 0x96,
    0xf8, 0x23, 0x30, 0xba, 0x5b, 0x64, 0xe7, 0xc2, 0x47, 0x10, 0xe9, 0x72, 0x3f, 0x76, 0x9d, 0x4f,
];

const WITH_ONE_TIME: [u8; 32] = [
    0xd2, 0xf5, 0x25, 0x77, 0xf4, 0x31, 0x0c, 0xa8, 0x36, 0xa2, 0xd0, 0x15, 0xda, 0x90, 0xd6, 0x5f,
    0x46, 0x32, 0x55, 0x4d, 0x92, 0xcb, 0x1f, 0x4f, 0x66, 0x01, 0xe3, 0x67, 0x54, 0xb3, 0x2c, 0xc6,
];

/// Keys of `pump`, the minimum times that they spell, on and off, and the digest.
const TIMES: &[(&str, i64, i64, [u8; 32])] = &[
    ("", 0, 0, PLAIN),
    ("min_on=0", 0, 0, PLAIN),
    ("min_on=0\nmin_off=0", 0, 0, PLAIN),
    (
        "min_on=300000\nmin_off=86400000",
        300_000,
        86_400_000,
        WITH_BOTH_TIMES,
    ),
    ("min_off=1", 0, 1, WITH_ONE_TIME),
];

/// A file of one binary point, with these keys too.
fn pump(rt: &impl Abort, alloc: Global, keys: &str) -> String {
    format!(in alloc;
        "drivers=['heat']\n[[point]]\nname='pump'\ndriver='heat'\nkind='binary'\ndefault=0\n{keys}"
    ).expect(rt, "memory")
}

/// Whether a file is accepted with this digest, and with a point of these minimum times.
fn has_times(alloc: Global, file: &[u8], on: i64, off: i64, digest: &[u8; 32]) -> bool {
    let Ok(catalogue) = Catalogue::read(alloc, file) else {
        return false;
    };
    if catalogue.count() != 1 {
        return false;
    }
    let point = catalogue.point(PointId(0));
    point.min_on == on && point.min_off == off && has_digest(&catalogue, digest)
}

fn is_read_with_times(
    rt: &impl Abort,
    alloc: Global,
    keys: &str,
    on: i64,
    off: i64,
    digest: &[u8; 32],
) -> bool {
    let file = pump(rt, alloc, keys);
    has_times(alloc, file.as_bytes(), on, off, digest)
}

#[test]
fn reads_minimum_times(rt: HostRuntime) {
    for (keys, on, off, digest) in TIMES {
        let read = is_read_with_times(&rt, rt.alloc(), keys, *on, *off, digest);
        assert!(rt; read, "{keys}");
    }
}

/// Whether a file is accepted with 4,096 points, of which `p4095` is the last.
fn has_4096_points(alloc: Global, file: &[u8]) -> bool {
    match Catalogue::read(alloc, file) {
        Ok(catalogue) => catalogue.count() == 4096 && is_at(&catalogue, "p4095", 4095),
        Err(_refusal) => false,
    }
}

/// A file of so many binary points, `p0`, `p1` and so on.
fn points(rt: &impl Abort, alloc: Global, count: u32) -> String {
    let mut file = String::from_str(alloc, "drivers=['f']\n").expect(rt, "memory");
    for number in 0..count {
        add_point(rt, alloc, &mut file, number);
    }
    file
}

/// One binary point more at the end of a file.
fn add_point(rt: &impl Abort, alloc: Global, file: &mut String, number: u32) {
    let point = format!(in alloc;
        "[[point]]\nname='p{number}'\ndriver='f'\nkind='binary'\ndefault=0\n"
    ).expect(rt, "memory");
    file.push_str(point.as_str()).expect(rt, "memory");
}

#[test]
fn reads_4096_points_and_no_more(rt: HostRuntime) {
    let alloc = rt.alloc();
    let most = points(&rt, alloc, 4096);
    assert!(&rt; has_4096_points(alloc, most.as_bytes()));
    let more = points(&rt, alloc, 4097);
    assert!(&rt; is_refused(alloc, more.as_bytes(), TooMany { count: 4097 }));
}

/// Whether a file is accepted with the digest of the three points.
fn has_three_points(alloc: Global, file: &[u8]) -> bool {
    match Catalogue::read(alloc, file) {
        Ok(catalogue) => has_digest(&catalogue, &DIGEST),
        Err(_refusal) => false,
    }
}

/// The file of the three points, made as long as this by a comment of blanks.
fn file_of(rt: &impl Abort, alloc: Global, length: usize) -> Vec<u8> {
    let mut file = THREE_POINTS.as_bytes().to_vec(alloc).expect(rt, "memory");
    file.push(b'#').expect(rt, "memory");
    file.resize(length, b' ').expect(rt, "memory");
    file
}

#[test]
fn reads_1048576_bytes_and_no_more(rt: HostRuntime) {
    let alloc = rt.alloc();
    let most = file_of(&rt, alloc, 1_048_576);
    assert_eq!(&rt; most.len(), 1_048_576);
    assert!(&rt; has_three_points(alloc, &most));
    let more = file_of(&rt, alloc, 1_048_577);
    assert!(&rt; is_refused(alloc, &more, TooLong { length: 1_048_577 }));
}

/// A file of so many drivers, behind one whose name this is, and no point.
fn drivers(rt: &impl Abort, alloc: Global, first: &str, others: u32) -> String {
    let mut text = format!(in alloc; "drivers=[{first}").expect(rt, "memory");
    for number in 0..others {
        add_driver(rt, alloc, &mut text, number);
    }
    text.push_str("]\npoint=[]\n").expect(rt, "memory");
    text
}

/// One driver more.
fn add_driver(rt: &impl Abort, alloc: Global, file: &mut String, number: u32) {
    let driver = format!(in alloc; ",'d{number}'").expect(rt, "memory");
    file.push_str(driver.as_str()).expect(rt, "memory");
}

fn has_256_drivers(alloc: Global, file: &[u8]) -> bool {
    match Catalogue::read(alloc, file) {
        Ok(catalogue) => catalogue.drivers() == 256,
        Err(_refusal) => false,
    }
}

#[test]
fn reads_256_drivers_and_no_more(rt: HostRuntime) {
    let alloc = rt.alloc();
    let most = drivers(&rt, alloc, "'d'", 255);
    assert!(&rt; has_256_drivers(alloc, most.as_bytes()));
    let more = drivers(&rt, alloc, "'d'", 256);
    assert!(&rt; is_refused(alloc, more.as_bytes(), TooMany { count: 257 }));
    // Also where one of them is no name.
    let nameless = drivers(&rt, alloc, "7", 256);
    assert!(&rt; is_refused(alloc, nameless.as_bytes(), TooMany { count: 257 }));
}
