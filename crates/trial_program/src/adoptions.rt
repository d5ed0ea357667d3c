//! A changed catalogue that is adopted or refused, by the program's words: one journal over several runs.

use crate::outside::*;
use crate::runs::{expect_rows, shelf_of_catalogues};
use boss_files::MemoryFiles;
use std::alloc::Global;
use std::process::Abort;

const ROWS: &str = r#"
== a lease goes on, and the points that are added or changed have their defaults
$ script three j
> {"op":"attach","process":"a"}
> {"at":1000,"op":"submit","writes":[{"point":"ahu1.damper","value":45000,"priority":8,"lease":60000}]}
write field ahu1.damper 20000 ok
write field lamp 0 ok
write field fan 1 ok
{"ok":"attached","process":"a","next":1}
{"ok":"accepted","txn":1,"until":61000}
write field ahu1.damper 45000 ok
status 0
$ adopt three valve j
adopted events 2 points 3 removed 1 added 1
status 0
$ script valve j
write field ahu1.damper 45000 ok
write field lamp 1 ok
write field valve 10 ok
status 0
$ script three j
journal catalogue eadc848da13305e35549574eebc29675c39eaa3418669389e7ab2150bf57220d aaf24f74f7546ec5b6518644b791c16f2669c87380766435de2d82a7a610d059
status 4
$ adopt three valve j
journal catalogue eadc848da13305e35549574eebc29675c39eaa3418669389e7ab2150bf57220d aaf24f74f7546ec5b6518644b791c16f2669c87380766435de2d82a7a610d059
status 4
== a removed point that is held is in use
$ script three j
> {"op":"attach","process":"a"}
> {"at":1000,"op":"submit","writes":[{"point":"ahu1.damper","value":45000,"priority":8,"lease":60000}]}
write field ahu1.damper 20000 ok
write field lamp 0 ok
write field fan 1 ok
{"ok":"attached","process":"a","next":1}
{"ok":"accepted","txn":1,"until":61000}
write field ahu1.damper 45000 ok
status 0
$ adopt three no-damper j
adopt in-use ahu1.damper
status 15
$ check three j
events 2 now 1000 leases 1 pending 0
status 0
== a value that a point takes no more
$ script three j
> {"op":"attach","process":"a"}
> {"at":1000,"op":"submit","writes":[{"point":"ahu1.damper","value":45000,"priority":8,"lease":60000}]}
write field ahu1.damper 20000 ok
write field lamp 0 ok
write field fan 1 ok
{"ok":"attached","process":"a","next":1}
{"ok":"accepted","txn":1,"until":61000}
write field ahu1.damper 45000 ok
status 0
$ adopt three narrow j
adopt unfit ahu1.damper
status 15
$ check three j
events 2 now 1000 leases 1 pending 0
status 0
== a journal that is new stays new
$ adopt three valve j
journal new
status 0
$ check valve j
journal new
status 0
$ adopt three valve -
journal new
status 0
== a journal without an event is adopted
$ script three j
write field ahu1.damper 20000 ok
write field lamp 0 ok
write field fan 1 ok
status 0
$ adopt three valve j
adopted events 0 points 3 removed 1 added 1
status 0
== back and forth, and one catalogue for itself
$ script three j
> {"op":"attach","process":"a"}
write field ahu1.damper 20000 ok
write field lamp 0 ok
write field fan 1 ok
{"ok":"attached","process":"a","next":1}
status 0
$ adopt three three j
adopted events 1 points 3 removed 0 added 0
status 0
$ adopt three valve j
adopted events 1 points 3 removed 1 added 1
status 0
$ adopt valve three j
adopted events 1 points 3 removed 1 added 1
status 0
$ script three j
write field ahu1.damper 20000 ok
write field lamp 0 ok
write field fan 1 ok
status 0
== the old catalogue is read before the new one
$ adopt broken missing j
catalogue missing point
status 3
$ adopt three broken j
catalogue missing point
status 3
$ adopt three missing j
status 5
$ adopt missing broken j
status 5
$ adopt three valve
usage
status 2
"#;

#[test]
fn catalogues_are_adopted_or_refused(rt: HostRuntime) {
    expect_rows(&rt, rt.alloc(), ROWS);
}

/// A lease that goes on under the new catalogue.
const HOLD: &str = r#"{"op":"attach","process":"a"}
{"at":1000,"op":"submit","writes":[{"point":"ahu1.damper","value":45000,"priority":8,"lease":60000}]}
"#;

/// The second file of the journal then: generation 1 under the new catalogue, whose digest begins behind byte 9, two events before the
/// state, the seed of the sums, and the state, whose one point has the number that it had, with its sum, by `sha256sum`.
const ADOPTED: &[&[u8]] = &[
    b"BOSSSNAP\x03",
    b"\xea\xdc\x84\x8d\xa1\x33\x05\xe3\x55\x49\x57\x4e\xeb\xc2\x96\x75\xc3\x9e\xaa\x34\x18\x66\x93\x89\xe7\xab\x21\x50\xbf\x57\x22\x0d",
    b"\0\0\0\0\0\0\0\x01\0\0\0\0\0\0\0\x02\0\0\0\0\0\0\0\x68",
    b"\x9c\x68\xd5\xe0\x21\x8b\x65\x9b",
    b"\0\0\0\0\0\0\x03\xe8\0\0\0\0\0\0\0\x02\0\x01\x01a\0\0\0\0\0\0\0\0\0\0\0",
    b"\0\0\0\x01\0\0\0\0\0\0\0\x01\0\0\0\x01\0\0\0\0\x08\0\0\0",
    b"\0\0\0\x01\0\0\0\0\0\0\0\x01\0\0\0\0\0\0\x08\0\0\0\0\0\0\xaf\xc8\0\0\0\0\0\0\xee\x48\0\0\0\0\0\0",
    b"\x3a\xbd\x76\x4a\x10\x37\x2e\xa9",
    b"\0",
];

fn joined(rt: &impl Abort, alloc: Global, parts: &[&[u8]]) -> Vec<u8> {
    let mut bytes = Vec::new(alloc);
    for part in parts {
        bytes.extend_from_slice(part).expect(rt, "memory");
    }
    bytes
}

/// The second file has these 178 bytes, and the first is as it was.
fn expect_adopted(rt: &impl Abort, files: &MemoryFiles, wanted: &[u8]) {
    assert_eq!(rt; wanted.len(), 178);
    let second = files.bytes_under("j.b").expect(rt, "the second file");
    assert!(rt; second == wanted);
    let first = files.bytes_under("j").expect(rt, "the first file");
    assert_eq!(rt; first.len(), 110);
}

#[test]
fn an_adopted_state_has_its_bytes(rt: HostRuntime) {
    let alloc = rt.alloc();
    let mut files = shelf_of_catalogues(&rt, alloc);
    run_on(&rt, alloc, &mut files, "script three j", HOLD, NONE_FAILS);
    run_on(
        &rt,
        alloc,
        &mut files,
        "adopt three valve j",
        "",
        NONE_FAILS,
    );
    let wanted = joined(&rt, alloc, ADOPTED);
    expect_adopted(&rt, &files, &wanted);
}
