//! Worked timelines of the whole machine, as texts: what is asked, line by line, and what is told, as it was worked out by hand.
#![tactic(auto)]

use trial_parts::THREE_POINTS;

// Each script begins with a line `== ..` that says what it shows. A line behind `> ` is asked, and the others are told.

/// Scripts over the three points, and what they tell behind the opening.
const WORKED: &str = r#"
== a lease is carried out
> {"op":"attach","process":"a"}
{"ok":"attached","process":"a","next":1}
> {"at":1000,"op":"submit","writes":[{"point":"ahu1.damper","value":45000,"priority":8,"lease":60000}]}
{"ok":"accepted","txn":1,"until":61000}
write field ahu1.damper 45000 ok

== the next lease rules once a better one ends
> {"op":"attach","process":"a"}
{"ok":"attached","process":"a","next":1}
> {"on":2,"op":"attach","process":"b"}
{"ok":"attached","process":"b","next":1}
> {"at":1000,"op":"submit","writes":[{"point":"ahu1.damper","value":45000,"priority":8,"lease":60000}]}
{"ok":"accepted","txn":1,"until":61000}
write field ahu1.damper 45000 ok
> {"on":2,"at":2000,"op":"submit","writes":[{"point":"ahu1.damper","value":30000,"priority":10,"lease":100000}]}
{"ok":"accepted","txn":2,"until":102000}
> {"at":60999,"op":"tick"}
{"ok":"tick","now":2000}
> {"at":61000,"op":"tick"}
{"ok":"tick","now":61000}
write field ahu1.damper 30000 ok

== a lease is renewed before its end
> {"op":"attach","process":"a"}
{"ok":"attached","process":"a","next":1}
> {"at":1000,"op":"submit","writes":[{"point":"ahu1.damper","value":45000,"priority":8,"lease":60000}]}
{"ok":"accepted","txn":1,"until":61000}
write field ahu1.damper 45000 ok
> {"at":60999,"op":"renew","txn":1,"length":60000}
{"ok":"renewed","txn":1,"until":120999}

== a lease is not renewed at its end
> {"op":"attach","process":"a"}
{"ok":"attached","process":"a","next":1}
> {"at":1000,"op":"submit","writes":[{"point":"ahu1.damper","value":45000,"priority":8,"lease":60000}]}
{"ok":"accepted","txn":1,"until":61000}
write field ahu1.damper 45000 ok
> {"at":61000,"op":"renew","txn":1,"length":60000}
{"error":"ended","cause":"expired","at":61000,"moment":61000}
write field ahu1.damper 20000 ok

== time does not go back
> {"op":"attach","process":"a"}
{"ok":"attached","process":"a","next":1}
> {"at":1000,"op":"submit","writes":[{"point":"ahu1.damper","value":45000,"priority":8,"lease":60000}]}
{"ok":"accepted","txn":1,"until":61000}
write field ahu1.damper 45000 ok
> {"at":70000,"op":"tick"}
{"ok":"tick","now":61000}
write field ahu1.damper 20000 ok
> {"at":60500,"op":"renew","txn":1,"length":60000}
{"error":"ended","cause":"expired","at":61000,"moment":61000}

== a superseded lease does not come back
> {"op":"attach","process":"a"}
{"ok":"attached","process":"a","next":1}
> {"on":2,"op":"attach","process":"b"}
{"ok":"attached","process":"b","next":1}
> {"at":1000,"op":"submit","writes":[{"point":"ahu1.damper","value":45000,"priority":8,"lease":60000}]}
{"ok":"accepted","txn":1,"until":61000}
write field ahu1.damper 45000 ok
> {"on":2,"at":2000,"op":"submit","writes":[{"point":"ahu1.damper","value":50000,"priority":8,"lease":1000}]}
{"ok":"accepted","txn":2,"until":3000}
write field ahu1.damper 50000 ok
> {"at":3000,"op":"tick"}
{"ok":"tick","now":3000}
write field ahu1.damper 20000 ok
> {"at":3000,"op":"notices"}
{"ok":"notices","first":1,"next":3,"list":[{"n":1,"at":2000,"txn":1,"kind":"ended","point":"ahu1.damper","cause":"superseded","by":2},{"n":2,"at":2000,"txn":1,"kind":"done"}]}

== a reversion goes step by step
> {"op":"attach","process":"a"}
{"ok":"attached","process":"a","next":1}
> {"at":1000,"op":"submit","writes":[{"point":"ahu1.damper","value":45000,"priority":8,"lease":60000,"revert":[[30000,5000],[25000,5000]]}]}
{"ok":"accepted","txn":1,"until":61000}
write field ahu1.damper 45000 ok
> {"at":61000,"op":"read","point":"ahu1.damper"}
{"ok":"read","point":"ahu1.damper","value":30000,"from":"pending","priority":8,"txn":1,"mark":"pending","took":45000,"since":1000}
write field ahu1.damper 30000 ok
> {"at":65999,"op":"read","point":"ahu1.damper"}
{"ok":"read","point":"ahu1.damper","value":30000,"from":"pending","priority":8,"txn":1,"mark":"settled"}
> {"at":66000,"op":"read","point":"ahu1.damper"}
{"ok":"read","point":"ahu1.damper","value":25000,"from":"pending","priority":8,"txn":1,"mark":"pending","took":30000,"since":61000}
write field ahu1.damper 25000 ok
> {"at":70999,"op":"read","point":"ahu1.damper"}
{"ok":"read","point":"ahu1.damper","value":25000,"from":"pending","priority":8,"txn":1,"mark":"settled"}
> {"at":71000,"op":"read","point":"ahu1.damper"}
{"ok":"read","point":"ahu1.damper","value":20000,"from":"default","mark":"pending","took":25000,"since":66000}
write field ahu1.damper 20000 ok

== a late tick finds the same as many
> {"op":"attach","process":"a"}
{"ok":"attached","process":"a","next":1}
> {"at":1000,"op":"submit","writes":[{"point":"ahu1.damper","value":45000,"priority":8,"lease":60000,"revert":[[30000,5000],[25000,5000]]}]}
{"ok":"accepted","txn":1,"until":61000}
write field ahu1.damper 45000 ok
> {"at":80000,"op":"tick"}
{"ok":"tick","now":71000}
write field ahu1.damper 20000 ok
> {"op":"notices"}
{"ok":"notices","first":1,"next":4,"list":[{"n":1,"at":61000,"txn":1,"kind":"ended","point":"ahu1.damper","cause":"expired"},{"n":2,"at":71000,"txn":1,"kind":"reverted","point":"ahu1.damper"},{"n":3,"at":71000,"txn":1,"kind":"done"}]}

== many ticks find the same as a late one
> {"op":"attach","process":"a"}
{"ok":"attached","process":"a","next":1}
> {"at":1000,"op":"submit","writes":[{"point":"ahu1.damper","value":45000,"priority":8,"lease":60000,"revert":[[30000,5000],[25000,5000]]}]}
{"ok":"accepted","txn":1,"until":61000}
write field ahu1.damper 45000 ok
> {"at":61000,"op":"tick"}
{"ok":"tick","now":61000}
write field ahu1.damper 30000 ok
> {"at":66000,"op":"tick"}
{"ok":"tick","now":66000}
write field ahu1.damper 25000 ok
> {"at":71000,"op":"tick"}
{"ok":"tick","now":71000}
write field ahu1.damper 20000 ok
> {"at":80000,"op":"tick"}
{"ok":"tick","now":71000}
> {"op":"notices"}
{"ok":"notices","first":1,"next":4,"list":[{"n":1,"at":61000,"txn":1,"kind":"ended","point":"ahu1.damper","cause":"expired"},{"n":2,"at":71000,"txn":1,"kind":"reverted","point":"ahu1.damper"},{"n":3,"at":71000,"txn":1,"kind":"done"}]}

== a lease rules over a better reversion
> {"op":"attach","process":"a"}
{"ok":"attached","process":"a","next":1}
> {"on":2,"op":"attach","process":"b"}
{"ok":"attached","process":"b","next":1}
> {"at":1000,"op":"submit","writes":[{"point":"ahu1.damper","value":45000,"priority":3,"lease":1000,"revert":[[30000,5000],[25000,5000]]}]}
{"ok":"accepted","txn":1,"until":2000}
write field ahu1.damper 45000 ok
> {"on":2,"at":1500,"op":"submit","writes":[{"point":"ahu1.damper","value":60000,"priority":10,"lease":100000}]}
{"ok":"accepted","txn":2,"until":101500}
> {"at":2000,"op":"tick"}
{"ok":"tick","now":2000}
write field ahu1.damper 60000 ok
> {"on":2,"at":7500,"op":"cancel","txn":2}
{"ok":"cancelled","txn":2,"at":7500}
write field ahu1.damper 25000 ok

== a numbered request is made once
> {"op":"attach","process":"a"}
{"ok":"attached","process":"a","next":1}
> {"at":1000,"op":"submit","seq":5,"writes":[{"point":"ahu1.damper","value":45000,"priority":8,"lease":60000}]}
{"ok":"accepted","txn":1,"until":61000}
write field ahu1.damper 45000 ok
> {"at":2000,"op":"submit","seq":5,"writes":[{"point":"ahu1.damper","value":45000,"priority":8,"lease":60000}]}
{"ok":"accepted","txn":1,"until":61000}
> {"at":2000,"op":"submit","seq":4,"writes":[{"point":"ahu1.damper","value":45000,"priority":8,"lease":60000}]}
{"error":"stale","kept":5}
> {"at":3000,"op":"renew","seq":6,"txn":1,"length":60000}
{"ok":"renewed","txn":1,"until":63000}
> {"at":3000,"op":"submit","seq":5,"writes":[{"point":"ahu1.damper","value":45000,"priority":8,"lease":60000}]}
{"error":"stale","kept":6}
> {"at":3000,"op":"cancel","seq":7,"txn":9}
{"error":"unknown-txn"}
> {"at":4000,"op":"cancel","seq":7,"txn":1}
{"ok":"cancelled","txn":1,"at":4000}
write field ahu1.damper 20000 ok

== the three numbered commands share their numbers
> {"at":1000,"op":"cancel","seq":1,"txn":1}
{"error":"not-attached"}
> {"op":"attach","process":"a"}
{"ok":"attached","process":"a","next":1}
> {"at":1000,"op":"submit","seq":5,"writes":[{"point":"lamp","value":1,"lease":60000}]}
{"ok":"accepted","txn":1,"until":61000}
write field lamp 1 ok
> {"at":2000,"op":"renew","seq":5,"txn":1,"length":604800001}
{"ok":"accepted","txn":1,"until":61000}
> {"at":2000,"op":"renew","seq":6,"txn":1,"length":604800001}
{"error":"bad-lease","index":0}
> {"at":2000,"op":"cancel","seq":4,"txn":9}
{"error":"stale","kept":5}
> {"on":2,"at":2000,"op":"attach","process":"b"}
{"ok":"attached","process":"b","next":1}
> {"on":2,"at":2000,"op":"cancel","seq":1,"txn":1}
{"error":"not-yours"}
> {"at":3000,"op":"gone"}
{"ok":"gone","ended":1}
write field lamp 0 ok
> {"on":3,"at":3000,"op":"attach","process":"a"}
{"ok":"attached","process":"a","next":3}
> {"on":3,"at":3000,"op":"cancel","seq":5,"txn":9}
{"ok":"accepted","txn":1,"until":61000}

== the leases of a lost process end
> {"op":"attach","process":"a"}
{"ok":"attached","process":"a","next":1}
> {"at":1000,"op":"submit","writes":[{"point":"ahu1.damper","value":45000,"priority":8,"lease":60000},{"point":"lamp","value":1,"priority":8,"lease":60000},{"point":"fan","value":2,"priority":8,"lease":60000,"revert":[[3,5000]]}]}
{"ok":"accepted","txn":1,"until":61000}
write field ahu1.damper 45000 ok
write field lamp 1 ok
write field fan 2 ok
> {"at":5000,"op":"gone"}
{"ok":"gone","ended":3}
write field ahu1.damper 20000 ok
write field lamp 0 ok
write field fan 3 ok
> {"at":10000,"op":"tick"}
{"ok":"tick","now":10000}
write field fan 1 ok
> {"on":2,"at":10000,"op":"attach","process":"a"}
{"ok":"attached","process":"a","next":6}
> {"on":2,"at":10000,"op":"notices"}
{"ok":"notices","first":1,"next":6,"list":[{"n":1,"at":5000,"txn":1,"kind":"ended","point":"ahu1.damper","cause":"died"},{"n":2,"at":5000,"txn":1,"kind":"ended","point":"lamp","cause":"died"},{"n":3,"at":5000,"txn":1,"kind":"ended","point":"fan","cause":"died"},{"n":4,"at":10000,"txn":1,"kind":"reverted","point":"fan"},{"n":5,"at":10000,"txn":1,"kind":"done"}]}

== the longest lease is accepted and the last slot is the default
> {"op":"attach","process":"a"}
{"ok":"attached","process":"a","next":1}
> {"at":0,"op":"submit","writes":[{"point":"lamp","value":1,"priority":8,"lease":604800000}]}
{"ok":"accepted","txn":1,"until":604800000}
write field lamp 1 ok
> {"at":0,"op":"submit","writes":[{"point":"fan","value":2,"lease":60000}]}
{"ok":"accepted","txn":2,"until":60000}
write field fan 2 ok
> {"op":"array","point":"fan"}
{"ok":"array","point":"fan","default":1,"slots":[null,null,null,null,null,null,null,null,null,null,null,null,null,null,null,{"value":2,"txn":2,"until":60000}]}
"#;

/// Scripts over the three points that are refused something.
const REFUSED: &str = r#"
== submits are refused by their writes
> {"op":"attach","process":"a"}
{"ok":"attached","process":"a","next":1}
> {"at":0,"op":"submit","writes":[{"point":"lamp","value":1,"priority":8,"lease":60000},{"point":"lamp","value":1,"priority":6,"lease":60000}]}
{"error":"same-point","index":1}
> {"at":0,"op":"submit","writes":[{"point":"lamp","value":1,"priority":6,"lease":60000}]}
{"error":"bad-priority","index":0}
> {"at":0,"op":"submit","writes":[{"point":"ahu1.damper","value":100001,"priority":8,"lease":60000}]}
{"error":"out-of-range","index":0}
> {"at":0,"op":"submit","writes":[{"point":"lamp","value":1,"priority":8,"lease":0}]}
{"error":"bad-lease","index":0}
> {"at":0,"op":"submit","writes":[{"point":"lamp","value":1,"priority":8,"lease":604800001}]}
{"error":"bad-lease","index":0}
> {"at":0,"op":"submit","writes":[{"point":"ahu1.damper","value":45000,"priority":8,"lease":60000,"revert":[[20000,1],[20000,1],[20000,1],[20000,1],[20000,1],[20000,1],[20000,1],[20000,1],[20000,1]]}]}
{"error":"bad-reversion","index":0}

== the least place is told
> {"op":"attach","process":"a"}
{"ok":"attached","process":"a","next":1}
> {"at":0,"op":"submit","writes":[{"point":"ahu1.damper","value":45000,"priority":8,"lease":60000},{"point":"lamp","value":1,"priority":8,"lease":60000},{"point":"fan","value":2,"priority":17,"lease":60000}]}
{"error":"bad-priority","index":2}
> {"at":0,"op":"submit","writes":[{"point":"ahu1.damper","value":45000,"priority":8,"lease":60000},{"point":"lamp","value":2,"priority":8,"lease":60000},{"point":"fan","value":4,"priority":8,"lease":60000}]}
{"error":"out-of-range","index":1}
> {"at":0,"op":"submit","writes":[{"point":"ahu1.damper","value":45000,"priority":8,"lease":60000},{"point":"lamp","value":1,"priority":8,"lease":60000},{"point":"fan","value":2,"priority":8,"lease":0}]}
{"error":"bad-lease","index":2}
> {"at":0,"op":"submit","writes":[{"point":"ahu1.damper","value":45000,"priority":8,"lease":60000},{"point":"lamp","value":1,"priority":8,"lease":60000,"revert":[[0,0]]},{"point":"fan","value":2,"priority":8,"lease":60000,"revert":[[4,1]]}]}
{"error":"bad-reversion","index":1}
> {"op":"renew","txn":1,"length":1,"points":["lamp","lamp","lamp","lamp","lamp","lamp","lamp","lamp","lamp","lamp","lamp","lamp","lamp","lamp","lamp","lamp","lamp","lamp","lamp","lamp","lamp","lamp","lamp","lamp","lamp","lamp","lamp","lamp","lamp","lamp","lamp","door"]}
{"error":"unknown-point","index":31}

== a name is held by one session
> {"op":"attach","process":"a"}
{"ok":"attached","process":"a","next":1}
> {"on":2,"op":"attach","process":"a"}
{"error":"taken","session":1}
> {"on":65535,"op":"attach","process":"xxxxxxxxxxxxxxxxxxxxxxxxxxxxxxxxxxxxxxxxxxxxxxxxxxxxxxxxxxxxxxxx"}
{"ok":"attached","process":"xxxxxxxxxxxxxxxxxxxxxxxxxxxxxxxxxxxxxxxxxxxxxxxxxxxxxxxxxxxxxxxx","next":1}
> {"on":2,"op":"attach","process":"xxxxxxxxxxxxxxxxxxxxxxxxxxxxxxxxxxxxxxxxxxxxxxxxxxxxxxxxxxxxxxxx"}
{"error":"taken","session":65535}

== the catalogue and the program are told to anybody
> {"on":7,"op":"points"}
{"ok":"points","digest":"aaf24f74f7546ec5b6518644b791c16f2669c87380766435de2d82a7a610d059","drivers":["field"],"count":3,"next":3,"list":[{"point":"ahu1.damper","kind":"analog","min":0,"max":100000,"default":20000,"driver":"field"},{"point":"lamp","kind":"binary","default":0,"driver":"field"},{"point":"fan","kind":"multi","states":3,"default":1,"driver":"field"}]}
> {"op":"points","from":2,"max":1}
{"ok":"points","digest":"aaf24f74f7546ec5b6518644b791c16f2669c87380766435de2d82a7a610d059","count":3,"next":3,"list":[{"point":"fan","kind":"multi","states":3,"default":1,"driver":"field"}]}
> {"op":"points","from":3}
{"ok":"points","digest":"aaf24f74f7546ec5b6518644b791c16f2669c87380766435de2d82a7a610d059","count":3,"next":3,"list":[]}
> {"op":"version"}
{"ok":"version","program":"0.3.0","journal":3,"digest":"aaf24f74f7546ec5b6518644b791c16f2669c87380766435de2d82a7a610d059","points":3,"drivers":1}

== lines that ask nothing are refused
> [
{"error":"malformed"}
> []
{"error":"malformed","key":"op"}
> {"op":"points","max":65}
{"error":"malformed","key":"max"}
> {"op":"submit","writes":[{"point":"lamp","value":1,"lease":1,"revert":[[0,5],[0,5.5]]}]}
{"error":"malformed","key":"writes[0].revert[1][1]"}
> {"op":"fly"}
{"error":"unknown-op"}
> {"op":"read","point":"x"}
{"error":"unknown-point","index":0}
> {"op":"tick"}
{"ok":"tick","now":0}

== commands are refused by their session and transaction
> {"op":"attach","process":"a"}
{"ok":"attached","process":"a","next":1}
> {"on":2,"op":"attach","process":"b"}
{"ok":"attached","process":"b","next":1}
> {"at":1000,"op":"submit","writes":[{"point":"ahu1.damper","value":45000,"priority":8,"lease":60000}]}
{"ok":"accepted","txn":1,"until":61000}
write field ahu1.damper 45000 ok
> {"on":3,"at":2000,"op":"submit","writes":[{"point":"lamp","value":1,"priority":8,"lease":60000}]}
{"error":"not-attached"}
> {"on":2,"at":2000,"op":"cancel","txn":1}
{"error":"not-yours"}
> {"at":2000,"op":"renew","txn":1,"length":60000,"points":["lamp"]}
{"error":"not-in-txn","index":0}
> {"at":2000,"op":"cancel","txn":9}
{"error":"unknown-txn"}
> {"at":2000,"op":"attach","process":"c"}
{"error":"already","process":"a"}
> {"at":61000,"op":"cancel","txn":1}
{"error":"over","at":61000}
write field ahu1.damper 20000 ok

== a renewal tells when and how a lease ended
> {"op":"attach","process":"a"}
{"ok":"attached","process":"a","next":1}
> {"at":1000,"op":"submit","writes":[{"point":"ahu1.damper","value":45000,"priority":8,"lease":60000}]}
{"ok":"accepted","txn":1,"until":61000}
write field ahu1.damper 45000 ok
> {"at":2000,"op":"submit","writes":[{"point":"ahu1.damper","value":50000,"priority":8,"lease":60000}]}
{"ok":"accepted","txn":2,"until":62000}
write field ahu1.damper 50000 ok
> {"at":3000,"op":"renew","txn":1,"length":1}
{"error":"ended","cause":"superseded","by":2,"at":2000,"moment":3000}
> {"at":63000,"op":"renew","txn":2,"length":1}
{"error":"ended","cause":"expired","at":62000,"moment":63000}
write field ahu1.damper 20000 ok
"#;

/// Scripts over the three points, the fifth call of whose device fails.
const FAILING: &str = r#"
== a failed device ends a transaction under abort
> {"op":"attach","process":"a"}
{"ok":"attached","process":"a","next":1}
> {"at":1000,"op":"submit","writes":[{"point":"ahu1.damper","value":45000,"priority":8,"lease":60000,"revert":[[30000,5000]]},{"point":"lamp","value":1,"priority":8,"lease":60000}]}
{"ok":"accepted","txn":1,"until":61000}
write field ahu1.damper 45000 ok
write field lamp 1 failed
write field ahu1.damper 30000 ok
write field lamp 0 ok
> {"at":1000,"op":"notices"}
{"ok":"notices","first":1,"next":4,"list":[{"n":1,"at":1000,"txn":1,"kind":"fault","point":"lamp"},{"n":2,"at":1000,"txn":1,"kind":"ended","point":"ahu1.damper","cause":"fault"},{"n":3,"at":1000,"txn":1,"kind":"ended","point":"lamp","cause":"fault"}]}

== a failed device is written again under keep
> {"op":"attach","process":"a"}
{"ok":"attached","process":"a","next":1}
> {"at":1000,"op":"submit","writes":[{"point":"ahu1.damper","value":45000,"priority":8,"lease":60000},{"point":"lamp","value":1,"priority":8,"lease":60000}],"policy":"keep"}
{"ok":"accepted","txn":1,"until":61000}
write field ahu1.damper 45000 ok
write field lamp 1 failed
> {"at":1000,"op":"notices"}
{"ok":"notices","first":1,"next":2,"list":[{"n":1,"at":1000,"txn":1,"kind":"fault","point":"lamp"}]}
> {"at":5999,"op":"read","point":"lamp"}
{"ok":"read","point":"lamp","value":1,"from":"lease","priority":8,"txn":1,"mark":"failed","took":0,"since":0}
> {"at":6000,"op":"tick"}
{"ok":"tick","now":1000}
write field lamp 1 ok
"#;

/// A script over the three points, the first call of whose device fails.
const FAILING_AT_FIRST: &str = r#"
== a device that fails is marked
> {"op":"read","point":"ahu1.damper"}
{"ok":"read","point":"ahu1.damper","value":20000,"from":"default","mark":"failed"}
"#;

/// A script over the building.
const TEXTS: &str = r#"
== every kind of answer and notice has its text
> {"op":"attach","process":"a.b_c-9"}
{"ok":"attached","process":"a.b_c-9","next":1}
> {"op":"notices"}
{"ok":"notices","first":1,"next":1,"list":[]}
> {"op":"read","point":"frost_limit"}
{"ok":"read","point":"frost_limit","value":-5000,"from":"default","mark":"settled"}
> {"at":1000,"op":"submit","writes":[{"point":"frost_limit","value":100,"lease":1000,"revert":[[25000,60000]]},{"point":"lamp","value":1,"priority":8,"lease":2000}]}
{"ok":"accepted","txn":1,"until":2000}
write field lamp 1 ok
write hall-2 frost_limit 100 ok
> {"at":1000,"op":"status","txn":1}
{"ok":"status","txn":1,"owner":"a.b_c-9","stage":"run","live":2,"pending":0}
> {"at":2000,"op":"submit","writes":[{"point":"frost_limit","value":-1,"priority":1,"lease":60000}]}
{"ok":"accepted","txn":2,"until":62000}
write hall-2 frost_limit -1 ok
> {"at":2000,"op":"array","point":"frost_limit"}
{"ok":"array","point":"frost_limit","default":-5000,"slots":[{"value":-1,"txn":2,"until":62000},null,null,null,null,null,null,null,null,null,null,null,null,null,null,{"value":25000,"txn":1,"end":62000}]}
> {"at":3000,"op":"status","txn":1}
{"ok":"status","txn":1,"owner":"a.b_c-9","stage":"revert","live":0,"pending":1}
write field lamp 0 ok
> {"at":3000,"op":"cancel","txn":2}
{"ok":"cancelled","txn":2,"at":3000}
write hall-2 frost_limit 25000 ok
> {"at":3000,"op":"read","point":"frost_limit"}
{"ok":"read","point":"frost_limit","value":25000,"from":"pending","priority":16,"txn":1,"mark":"settled"}
> {"at":4000,"op":"submit","writes":[{"point":"frost_limit","value":7,"priority":16,"lease":5000}]}
{"ok":"accepted","txn":3,"until":9000}
write hall-2 frost_limit 7 ok
> {"at":4000,"op":"status","txn":1}
{"ok":"status","txn":1,"owner":"a.b_c-9","stage":"done","live":0,"pending":0}
> {"at":4000,"op":"notices"}
{"ok":"notices","first":1,"next":7,"list":[{"n":1,"at":2000,"txn":1,"kind":"ended","point":"frost_limit","cause":"expired"},{"n":2,"at":3000,"txn":1,"kind":"ended","point":"lamp","cause":"expired"},{"n":3,"at":3000,"txn":2,"kind":"ended","point":"frost_limit","cause":"cancelled"},{"n":4,"at":3000,"txn":2,"kind":"done"},{"n":5,"at":4000,"txn":1,"kind":"cut","point":"frost_limit","by":3},{"n":6,"at":4000,"txn":1,"kind":"done"}]}
> {"on":2,"at":4000,"op":"notices","process":"a.b_c-9","from":2,"max":1}
{"ok":"notices","first":1,"next":3,"list":[{"n":2,"at":3000,"txn":1,"kind":"ended","point":"lamp","cause":"expired"}]}
"#;

/// What every script over the three points tells first.
const OPENING: &str =
    "write field ahu1.damper 20000 ok\nwrite field lamp 0 ok\nwrite field fan 1 ok\n";

/// A damper and a lamp on one driver, and a set-point that may be negative on another.
const BUILDING: &str = "drivers=['field','hall-2']
point=[
{name='ahu1.damper',driver='field',kind='analog',min=0,max=100000,default=20000},
{name='lamp',driver='field',kind='binary',default=0},
{name='frost_limit',driver='hall-2',kind='analog',min=-30000,max=30000,default=-5000}]
";

/// Scripts that are run alike.
pub struct Batch {
    /// The file of the catalogue.
    pub file: &'static str,
    /// The number of the first device's call that fails, from 1; 0 is none.
    pub fails: u64,
    /// What each script tells first.
    pub opening: &'static str,
    /// The scripts.
    pub scripts: &'static str,
}

/// All of them.
pub const BATCHES: &[Batch] = &[
    Batch {
        file: THREE_POINTS,
        fails: 0,
        opening: OPENING,
        scripts: WORKED,
    },
    Batch {
        file: THREE_POINTS,
        fails: 0,
        opening: OPENING,
        scripts: REFUSED,
    },
    Batch {
        file: THREE_POINTS,
        fails: 5,
        opening: OPENING,
        scripts: FAILING,
    },
    Batch {
        file: THREE_POINTS,
        fails: 1,
        opening: "write field ahu1.damper 20000 failed\nwrite field lamp 0 ok\nwrite field fan 1 ok\n",
        scripts: FAILING_AT_FIRST,
    },
    Batch {
        file: BUILDING,
        fails: 0,
        opening: "write field ahu1.damper 20000 ok\nwrite field lamp 0 ok\nwrite hall-2 frost_limit -5000 ok\n",
        scripts: TEXTS,
    },
];
