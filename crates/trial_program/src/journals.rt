//! Journals in files, by the program's words: what scripts leave there, and what checks tell of it.

use crate::runs::expect_rows;

const ROWS: &str = r#"
== a journal that is not there, or in memory alone, is new
$ check three j
journal new
status 0
$ check three -
journal new
status 0
== a check tells what scripts left
$ script three j
> {"op":"attach","process":"a"}
> {"at":1000,"op":"submit","writes":[{"point":"ahu1.damper","value":45000,"priority":8,"lease":60000}]}
write field ahu1.damper 20000 ok
write field lamp 0 ok
write field fan 1 ok
{"ok":"attached","process":"a","next":1}
{"ok":"accepted","txn":1,"until":61000}
write field ahu1.damper 45000 ok
status 0
$ check three j
events 2 now 1000 leases 1 pending 0
status 0
$ check three -
journal new
status 0
$ script three j
> {"at":70000,"op":"read","point":"ahu1.damper"}
write field ahu1.damper 45000 ok
write field lamp 0 ok
write field fan 1 ok
{"ok":"read","point":"ahu1.damper","value":20000,"from":"default","mark":"pending","took":45000,"since":1000}
write field ahu1.damper 20000 ok
status 0
$ check three j
events 3 now 61000 leases 0 pending 0
status 0
== a script in memory alone leaves nothing
$ script three -
> {"op":"attach","process":"a"}
write field ahu1.damper 20000 ok
write field lamp 0 ok
write field fan 1 ok
{"ok":"attached","process":"a","next":1}
status 0
$ check three -
journal new
status 0
== a journal of another catalogue is refused
$ script three j
write field ahu1.damper 20000 ok
write field lamp 0 ok
write field fan 1 ok
status 0
$ check valve j
journal catalogue aaf24f74f7546ec5b6518644b791c16f2669c87380766435de2d82a7a610d059 eadc848da13305e35549574eebc29675c39eaa3418669389e7ab2150bf57220d
status 4
$ script valve j
journal catalogue aaf24f74f7546ec5b6518644b791c16f2669c87380766435de2d82a7a610d059 eadc848da13305e35549574eebc29675c39eaa3418669389e7ab2150bf57220d
status 4
$ check three j
events 0 now 0 leases 0 pending 0
status 0
== a file that is no journal is refused, and stays as it is
$ check three three
journal not-a-journal
status 4
$ script three three
journal not-a-journal
status 4
$ check three -
journal new
status 0
== the catalogue is read before the journal
$ check broken three
catalogue missing point
status 3
$ check missing three
status 5
$ check three
usage
status 2
$ check three j j
usage
status 2
== a numbered renewal that is sent again behind an opening is made once
$ script three j
> {"op":"attach","process":"a"}
> {"at":1000,"op":"submit","seq":5,"writes":[{"point":"ahu1.damper","value":45000,"priority":8,"lease":60000}]}
> {"at":3000,"op":"renew","seq":6,"txn":1,"length":60000}
write field ahu1.damper 20000 ok
write field lamp 0 ok
write field fan 1 ok
{"ok":"attached","process":"a","next":1}
{"ok":"accepted","txn":1,"until":61000}
write field ahu1.damper 45000 ok
{"ok":"renewed","txn":1,"until":63000}
status 0
$ script three j
> {"op":"attach","process":"a"}
> {"at":70000,"op":"renew","seq":6,"txn":1,"length":60000}
write field ahu1.damper 45000 ok
write field lamp 0 ok
write field fan 1 ok
{"ok":"attached","process":"a","next":1}
{"ok":"renewed","txn":1,"until":63000}
write field ahu1.damper 20000 ok
status 0
$ check three j
events 4 now 63000 leases 0 pending 0
status 0
"#;

#[test]
fn journals_are_checked_by_words(rt: HostRuntime) {
    expect_rows(&rt, rt.alloc(), ROWS);
}
