//! Moments of a journal that are taken back, by the program's words: one journal over several runs.

use crate::runs::expect_rows;

const ROWS: &str = r#"
== a lease ends as much earlier, and a feed begins with the state
$ script three j
> {"op":"attach","process":"a"}
> {"at":1000,"op":"submit","seq":1,"writes":[{"point":"ahu1.damper","value":45000,"priority":8,"lease":60000}]}
write field ahu1.damper 20000 ok
write field lamp 0 ok
write field fan 1 ok
{"ok":"attached","process":"a","next":1}
{"ok":"accepted","txn":1,"until":61000}
write field ahu1.damper 45000 ok
status 0
$ shift three j 400
shifted events 3 now 600 leases 1 pending 0
status 0
$ check three j
events 3 now 600 leases 1 pending 0
status 0
$ feed three j 3
status 0
$ script three j
> {"at":700,"op":"attach","process":"a"}
> {"at":700,"op":"submit","seq":1,"writes":[{"point":"ahu1.damper","value":45000,"priority":8,"lease":60000}]}
> {"at":60599,"op":"read","point":"ahu1.damper"}
> {"at":60600,"op":"read","point":"ahu1.damper"}
write field ahu1.damper 45000 ok
write field lamp 0 ok
write field fan 1 ok
{"ok":"attached","process":"a","next":1}
{"ok":"accepted","txn":1,"until":60600}
{"ok":"read","point":"ahu1.damper","value":45000,"from":"lease","priority":8,"txn":1,"mark":"settled"}
{"ok":"read","point":"ahu1.damper","value":20000,"from":"default","mark":"pending","took":45000,"since":600}
write field ahu1.damper 20000 ok
status 0
== no further than the journal's own moment
$ script three j
> {"op":"attach","process":"a"}
> {"at":1000,"op":"submit","writes":[{"point":"ahu1.damper","value":45000,"priority":8,"lease":60000}]}
write field ahu1.damper 20000 ok
write field lamp 0 ok
write field fan 1 ok
{"ok":"attached","process":"a","next":1}
{"ok":"accepted","txn":1,"until":61000}
write field ahu1.damper 45000 ok
status 0
$ shift three j 1001
shift too-far 1000
status 15
$ check three j
events 2 now 1000 leases 1 pending 0
status 0
$ shift three j 4611686018427387903
shift too-far 1000
status 15
$ shift three j 1000
shifted events 3 now 0 leases 1 pending 0
status 0
$ shift three j 1
shift too-far 0
status 15
== no further than the start of a reversion
$ script three j
> {"op":"attach","process":"a"}
> {"at":1000,"op":"submit","writes":[{"point":"ahu1.damper","value":45000,"priority":8,"lease":1000,"revert":[[30000,5000]]}]}
> {"at":3000,"op":"read","point":"ahu1.damper"}
write field ahu1.damper 20000 ok
write field lamp 0 ok
write field fan 1 ok
{"ok":"attached","process":"a","next":1}
{"ok":"accepted","txn":1,"until":2000}
write field ahu1.damper 45000 ok
{"ok":"read","point":"ahu1.damper","value":30000,"from":"pending","priority":8,"txn":1,"mark":"pending","took":45000,"since":1000}
write field ahu1.damper 30000 ok
status 0
$ shift three j 2001
shift too-far 2000
status 15
$ shift three j 2000
shifted events 4 now 0 leases 0 pending 1
status 0
$ script three j
> {"at":4999,"op":"read","point":"ahu1.damper"}
> {"at":5000,"op":"read","point":"ahu1.damper"}
write field ahu1.damper 30000 ok
write field lamp 0 ok
write field fan 1 ok
{"ok":"read","point":"ahu1.damper","value":30000,"from":"pending","priority":8,"txn":1,"mark":"settled"}
{"ok":"read","point":"ahu1.damper","value":20000,"from":"default","mark":"pending","took":30000,"since":0}
write field ahu1.damper 20000 ok
status 0
== a standby that had all events is sent the state
$ standby three j2
> event 1 0100000000000000000161
> event 2 0200000000000003e80000000100000000000000000000afc8080000ea6000
standby events 2 now 1000 leases 1 pending 0
status 0
$ shift three j2 400
shifted events 3 now 600 leases 1 pending 0
status 0
$ feed three j2 2
state 3 96
part 0000000000000258000000000000000200010161000000000000000000000000000001000000000000000100000001000000000800000000000001000000000000000100000000000008000000000000afc8000000000000ecb8000000000000
status 0
== a journal that is new stays new
$ shift three j 400
journal new
status 0
$ check three j
journal new
status 0
$ shift three - 400
journal new
status 0
== what is refused
$ shift broken j 400
catalogue missing point
status 3
$ shift broken - 400
catalogue missing point
status 3
$ shift missing j 400
status 5
$ shift missing - 400
status 5
$ script three j
> {"op":"attach","process":"a"}
write field ahu1.damper 20000 ok
write field lamp 0 ok
write field fan 1 ok
{"ok":"attached","process":"a","next":1}
status 0
$ shift valve j 400
journal catalogue aaf24f74f7546ec5b6518644b791c16f2669c87380766435de2d82a7a610d059 eadc848da13305e35549574eebc29675c39eaa3418669389e7ab2150bf57220d
status 4
$ shift three j 0
usage
status 2
$ shift three j 4611686018427387904
usage
status 2
$ shift three j
usage
status 2
"#;

#[test]
fn moments_are_taken_back_or_not(rt: HostRuntime) {
    expect_rows(&rt, rt.alloc(), ROWS);
}
