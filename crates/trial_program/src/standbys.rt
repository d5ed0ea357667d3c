//! Feeds and standbys, by the program's words: what a journal is told as, and what another makes of that.

use crate::runs::expect_rows;

const ROWS: &str = r#"
== a feed of a journal, and a standby that follows it
$ script three j
> {"op":"attach","process":"a"}
> {"at":1000,"op":"submit","writes":[{"point":"ahu1.damper","value":45000,"priority":8,"lease":60000}]}
write field ahu1.damper 20000 ok
write field lamp 0 ok
write field fan 1 ok
{"ok":"attached","process":"a","next":1}
{"ok":"accepted","txn":1,"until":61000}
write field ahu1.damper 45000 ok
status 0
$ feed three j 0
event 1 0100000000000000000161
event 2 0200000000000003e80000000100000000000000000000afc8080000ea6000
status 0
$ feed three j 01
event 2 0200000000000003e80000000100000000000000000000afc8080000ea6000
status 0
$ feed three j 2
status 0
$ feed three j 4611686018427387903
status 0
$ standby three j2
> event 1 0100000000000000000161
> event 2 0200000000000003e80000000100000000000000000000afc8080000ea6000
standby events 2 now 1000 leases 1 pending 0
status 0
$ standby three j2
> event 1 0100000000000000000161
> event 2 0200000000000003e80000000100000000000000000000afc8080000ea6000
standby events 2 now 1000 leases 1 pending 0
status 0
$ check three j2
events 2 now 1000 leases 1 pending 0
status 0
$ feed three j2 0
event 1 0100000000000000000161
event 2 0200000000000003e80000000100000000000000000000afc8080000ea6000
status 0
$ script three j2
> {"at":2000,"op":"read","point":"ahu1.damper"}
write field ahu1.damper 45000 ok
write field lamp 0 ok
write field fan 1 ok
{"ok":"read","point":"ahu1.damper","value":45000,"from":"lease","priority":8,"txn":1,"mark":"settled"}
status 0
== an event is missing
$ standby three j
> event 2 0200000000000003e80000000100000000000000000000afc8080000ea6000
standby gap 0 2
status 18
$ check three j
events 0 now 0 leases 0 pending 0
status 0
== a line is at fault: what came before it stands
$ standby three j
> event 1 00
standby bad-line 1
status 18
$ standby three j
> event 1 0100000000000000000161
> 
> event 2 0100000000000000000161
standby bad-line 3
status 18
$ check three j
events 1 now 0 leases 0 pending 0
status 0
== a state is taken when the last of its bytes has come
$ standby three j
> state 5 3
standby short
status 18
$ check three j
events 0 now 0 leases 0 pending 0
status 0
== a journal that is not there, or in memory alone, has an empty feed
$ feed three j 0
status 0
$ feed three - 7
status 0
$ check three j
journal new
status 0
$ standby three -
> event 1 0100000000000000000161
standby events 1 now 0 leases 0 pending 0
status 0
$ standby three -
standby events 0 now 0 leases 0 pending 0
status 0
== a standby is refused what a script is refused
$ feed broken j 0
catalogue missing point
status 3
$ standby broken j
catalogue missing point
status 3
$ feed missing j 0
status 5
$ standby missing -
status 5
$ script three j
write field ahu1.damper 20000 ok
write field lamp 0 ok
write field fan 1 ok
status 0
$ feed valve j 0
journal catalogue aaf24f74f7546ec5b6518644b791c16f2669c87380766435de2d82a7a610d059 eadc848da13305e35549574eebc29675c39eaa3418669389e7ab2150bf57220d
status 4
$ standby valve j
> event 1 0100000000000000000161
journal catalogue aaf24f74f7546ec5b6518644b791c16f2669c87380766435de2d82a7a610d059 eadc848da13305e35549574eebc29675c39eaa3418669389e7ab2150bf57220d
status 4
== words that are in no row
$ feed three j
usage
status 2
$ feed three j 4611686018427387904
usage
status 2
$ standby three
usage
status 2
"#;

#[test]
fn a_standby_follows_a_feed(rt: HostRuntime) {
    expect_rows(&rt, rt.alloc(), ROWS);
}
