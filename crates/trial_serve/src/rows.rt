//! Servers in memory, whose workers run one after another: those for connections, then time, then the driver.

use crate::connections::Talk;
use crate::stage::{Setting, addresses, run};
use crate::texts::expect_text;
use boss_points::Catalogue;
use std::alloc::Global;
use std::process::Abort;
use std::sync::Wait;
use std::thread::Threads;
use trial_parts::THREE_POINTS;

/// A server and what comes of it.
struct Row {
    shows: &'static str,
    setting: Setting<'static>,
    told: &'static str,
}

/// A server at the moment 1,000, whose worker of time is told to end at its first pause.
pub const PLAIN: Setting<'static> = Setting {
    workers: &[],
    moments: &[1_000],
    clock_fails: 0,
    host_fails: 0,
    unstarted: 0,
    turns: 0,
    device: false,
    rules: "",
    keys: "",
    sink_fails: 0,
};

const ATTACH_A: Talk<'static> = Talk {
    text: r#"{"op":"attach","process":"a"}
"#,
    fails: 0,
};

const ATTACH_B: Talk<'static> = Talk {
    text: r#"{"op":"attach","process":"b"}
"#,
    fails: 0,
};

const LOOK: Talk<'static> = Talk {
    text: r#"{"op":"attach","process":"a"}
{"op":"read","point":"lamp"}
"#,
    fails: 0,
};

const HOLD: Talk<'static> = Talk {
    text: r#"{"op":"attach","process":"a"}
{"op":"submit","writes":[{"point":"ahu1.damper","value":45000,"priority":8,"lease":60000}]}
"#,
    fails: 0,
};

const HOLD_AND_REVERT: Talk<'static> = Talk {
    text: r#"{"op":"attach","process":"a"}
{"op":"submit","writes":[{"point":"ahu1.damper","value":45000,"priority":8,"lease":60000,"revert":[[30000,5000]]}]}
"#,
    fails: 0,
};

/// The last submit has a write that may be made, and then one that may not.
const JUDGED: Talk<'static> = Talk {
    text: r#"{"op":"attach","process":"a"}
{"op":"submit","writes":[{"point":"ahu1.damper","value":45000,"priority":8,"lease":60000}]}
{"op":"submit","writes":[{"point":"ahu1.damper","value":45000,"priority":7,"lease":60000}]}
{"op":"submit","writes":[{"point":"lamp","value":1,"priority":8,"lease":60000}]}
{"op":"read","point":"lamp"}
{"op":"submit","writes":[{"point":"ahu1.damper","value":0,"priority":9,"lease":60000},{"point":"lamp","value":1,"priority":9,"lease":60000}]}
"#,
    fails: 0,
};

/// Two keys, of `a` and of `b`: of `0123456789abcdefghijklmnopqrstuv` and of
/// `bk1_K7gNU3sdo-OL0wNhqoVWhr3g6s1xYv72ol_pe_Unols` the digests as `sha256sum` gives them.
const TWO_KEYS: &str = "
[[key]]
process = 'a'
sha256 = '73337f479fe170d73e53e247f3052e4243cc9c2a0ffa621853d9385c619efb77'

[[key]]
process = 'b'
sha256 = 'efb0e199989fe29959dd341a9d72a0d99b0a9d91b23c8ff9ca613c659119a3d0'
";

/// It shows its key once.
const SHOWN: Talk<'static> = Talk {
    text: r#"{"op":"attach","process":"a","key":"0123456789abcdefghijklmnopqrstuv"}
{"op":"submit","writes":[{"point":"ahu1.damper","value":45000,"priority":8,"lease":60000}]}
"#,
    fails: 0,
};

/// It only asks, under its own name.
const ASKS: Talk<'static> = Talk {
    text: r#"
{"op":"read","point":"lamp","as":"b","key":"bk1_K7gNU3sdo-OL0wNhqoVWhr3g6s1xYv72ol_pe_Unols"}
{"op":"read","point":"lamp"}
"#,
    fails: 0,
};

/// It shows the key of one name, and attaches as another.
const ANOTHER_LATER: Talk<'static> = Talk {
    text: r#"{"op":"read","point":"lamp","as":"b","key":"bk1_K7gNU3sdo-OL0wNhqoVWhr3g6s1xYv72ol_pe_Unols"}
{"op":"attach","process":"a","key":"0123456789abcdefghijklmnopqrstuv"}
{"op":"read","point":"lamp"}
"#,
    fails: 0,
};

/// It watches another process under its own name.
const WATCH_AS: Talk<'static> = Talk {
    text: r#"{"op":"watch","process":"a","from":1,"as":"b","key":"bk1_K7gNU3sdo-OL0wNhqoVWhr3g6s1xYv72ol_pe_Unols"}
"#,
    fails: 0,
};

const WATCH: Talk<'static> = Talk {
    text: r#"{"op":"watch","process":"a","from":1}
"#,
    fails: 0,
};

/// What is told is worked out by hand from what each worker does in its turn. An event is a new process, a lease, the loss of a process
/// that has one, or a tick that finds something due; what is refused, read or lost without a lease is none.
const ROWS: &[Row] = &[
    // The process is lost at 1,000, and its reversion holds the damper up to 6,000: the seventh tick, at 7,000, finds it over, which
    // is the fourth event. Then the driver is told each default, that of the damper last, since it was changed last.
    Row {
        shows: "a process is lost, its reversion ends, and then its device is driven",
        setting: Setting {
            workers: &[&[HOLD_AND_REVERT]],
            moments: &[1_000, 1_000, 1_000, 1_000, 1_000, 1_000, 7_000],
            turns: 8,
            device: true,
            ..PLAIN
        },
        told: r#"session 1
{"ok":"attached","process":"a","next":1}
{"ok":"accepted","txn":1,"until":61000}
pauses 0
pauses 9 closed
pauses 9 closed
point 1 0
point 2 1
point 0 20000
events 4 now 6000 leases 0 pending 0
status 0
"#,
    },
    // The third connection attaches as the process of the second.
    Row {
        shows: "a connection whose second read fails ends alone, and its process is free again",
        setting: Setting {
            workers: &[&[
                LOOK,
                Talk {
                    fails: 2,
                    ..ATTACH_B
                },
                ATTACH_B,
            ]],
            ..PLAIN
        },
        told: r#"session 1
{"ok":"attached","process":"a","next":1}
{"ok":"read","point":"lamp","value":0,"from":"default","mark":"pending"}
session 2
{"ok":"attached","process":"b","next":1}
session 3
{"ok":"attached","process":"b","next":1}
pauses 0
pauses 1 closed
events 2 now 1000 leases 0 pending 0
status 0
"#,
    },
    Row {
        shows: "the clock fails at the second request",
        setting: Setting {
            workers: &[&[LOOK]],
            clock_fails: 2,
            ..PLAIN
        },
        told: r#"session 1
{"ok":"attached","process":"a","next":1}
pauses 0
pauses 1 closed
events 1 now 1000 leases 0 pending 0
status 12
"#,
    },
    Row {
        shows: "a worker that is not started serves nobody",
        setting: Setting {
            workers: &[&[HOLD]],
            moments: &[0],
            unstarted: 1,
            ..PLAIN
        },
        told: r#"pauses 0
pauses 1 closed
events 0 now 0 leases 0 pending 0
status 11
"#,
    },
    Row {
        shows: "a host that can't listen",
        setting: Setting {
            workers: &[&[HOLD]],
            host_fails: 1,
            ..PLAIN
        },
        told: "status 9\n",
    },
    // The bind is the host's first call; the accept that fails is the second of the part.
    Row {
        shows: "behind an accept that fails a worker serves nobody",
        setting: Setting {
            workers: &[&[ATTACH_A, ATTACH_B]],
            host_fails: 2,
            ..PLAIN
        },
        told: r#"session 1
{"ok":"attached","process":"a","next":1}
pauses 0
pauses 1 closed
events 1 now 1000 leases 0 pending 0
status 9
"#,
    },
    // The watcher is sent both notices in its first turn, without a pause; then it pauses until the third pause says Close.
    Row {
        shows: "a process is watched behind the one that was lost",
        setting: Setting {
            workers: &[&[HOLD, WATCH]],
            turns: 2,
            ..PLAIN
        },
        told: r#"session 1
{"ok":"attached","process":"a","next":1}
{"ok":"accepted","txn":1,"until":61000}
session 2
{"n":1,"at":1000,"txn":1,"kind":"ended","point":"ahu1.damper","cause":"died"}
{"n":2,"at":1000,"txn":1,"kind":"done"}
pauses 3 closed
pauses 3 closed
events 3 now 1000 leases 0 pending 0
status 0
"#,
    },
    // What is denied is no event and takes no number; the lease ends as the process is lost.
    Row {
        shows: "rules deny by process, point and level, and the talk goes on",
        setting: Setting {
            workers: &[&[JUDGED]],
            rules: "rule=[{process='a',point='ahu1.*',highest=8},{process='*',point='*',allow=false}]",
            ..PLAIN
        },
        told: r#"session 1
{"ok":"attached","process":"a","next":1}
{"ok":"accepted","txn":1,"until":61000}
{"error":"denied","index":0,"rule":1}
{"error":"denied","index":0,"rule":2}
{"ok":"read","point":"lamp","value":0,"from":"default","mark":"pending"}
{"error":"denied","index":1,"rule":2}
pauses 0
pauses 1 closed
events 3 now 1000 leases 0 pending 0
status 0
"#,
    },
    Row {
        shows: "a name that no rule is for is denied by rule 0, takes no number, and the connection goes on",
        setting: Setting {
            workers: &[&[
                Talk {
                    text: r#"{"op":"attach","process":"a"}
{"op":"submit","writes":[{"point":"lamp","value":1,"priority":8,"lease":60000}]}
"#,
                    fails: 0,
                },
                Talk {
                    text: r#"{"op":"submit","writes":[{"point":"lamp","value":1,"priority":8,"lease":60000}]}
{"op":"attach","process":"b"}
{"op":"submit","writes":[{"point":"lamp","value":1,"priority":8,"lease":60000}]}
"#,
                    fails: 0,
                },
            ]],
            rules: "rule=[{process='a',point='ahu1.*',highest=8}]",
            ..PLAIN
        },
        told: r#"session 1
{"ok":"attached","process":"a","next":1}
{"error":"denied","index":0,"rule":0}
session 2
{"error":"not-attached"}
{"error":"denied","index":0,"rule":0}
{"error":"not-attached"}
pauses 0
pauses 1 closed
events 1 now 1000 leases 0 pending 0
status 0
"#,
    },
    // A denial comes before that the session has a process; a rule that allows nothing admits its name.
    Row {
        shows: "who has a process is denied another name that no rule is for, and keeps its own",
        setting: Setting {
            workers: &[&[
                Talk {
                    text: r#"{"op":"attach","process":"a"}
{"op":"attach","process":"ab"}
{"op":"attach","process":"b"}
{"op":"submit","writes":[{"point":"ahu1.damper","value":45000,"priority":8,"lease":60000}]}
"#,
                    fails: 0,
                },
                ATTACH_B,
            ]],
            rules: "rule=[{process='a',point='ahu1.*',highest=8},{process='b',point='lamp',allow=false}]",
            ..PLAIN
        },
        told: r#"session 1
{"ok":"attached","process":"a","next":1}
{"error":"denied","index":0,"rule":0}
{"error":"already","process":"a"}
{"ok":"accepted","txn":1,"until":61000}
session 2
{"ok":"attached","process":"b","next":1}
pauses 0
pauses 1 closed
events 4 now 1000 leases 0 pending 0
status 0
"#,
    },
];

/// Where there are keys, and one where there are none.
const KEYED: &[Row] = &[
    Row {
        shows: "whoever shows its key with the first line is answered, and watches whom it wants under its name",
        setting: Setting {
            workers: &[&[SHOWN, WATCH_AS, ASKS]],
            turns: 2,
            keys: TWO_KEYS,
            ..PLAIN
        },
        told: r#"session 1
{"ok":"attached","process":"a","next":1}
{"ok":"accepted","txn":1,"until":61000}
session 2
{"n":1,"at":1000,"txn":1,"kind":"ended","point":"ahu1.damper","cause":"died"}
{"n":2,"at":1000,"txn":1,"kind":"done"}
session 3
{"ok":"read","point":"lamp","value":0,"from":"default","mark":"pending"}
{"ok":"read","point":"lamp","value":0,"from":"default","mark":"pending"}
pauses 3 closed
pauses 3 closed
events 3 now 1000 leases 0 pending 0
status 0
"#,
    },
    // No key; one that is no key, though a file might have its digest; a wrong one; that of another name; one without a name; one for a
    // name that nobody has; and a watch without one.
    Row {
        shows: "whoever shows none is told nothing more, and nothing is done for it",
        setting: Setting {
            workers: &[&[
                LOOK,
                Talk {
                    text: r#"{"op":"attach","process":"a","key":""}
{"op":"read","point":"lamp"}
"#,
                    fails: 0,
                },
                Talk {
                    text: r#"{"op":"attach","process":"a","key":"0123456789abcdefghijklmnopqrstuw"}
{"op":"read","point":"lamp"}
"#,
                    fails: 0,
                },
                Talk {
                    text: r#"{"op":"attach","process":"b","key":"0123456789abcdefghijklmnopqrstuv"}
{"op":"read","point":"lamp"}
"#,
                    fails: 0,
                },
                Talk {
                    text: r#"{"op":"read","point":"lamp","key":"0123456789abcdefghijklmnopqrstuv"}
{"op":"read","point":"lamp"}
"#,
                    fails: 0,
                },
                Talk {
                    text: r#"{"op":"read","point":"lamp","as":"c","key":"0123456789abcdefghijklmnopqrstuv"}
{"op":"read","point":"lamp"}
"#,
                    fails: 0,
                },
                WATCH,
            ]],
            moments: &[0],
            keys: TWO_KEYS,
            ..PLAIN
        },
        told: r#"session 1
{"error":"wrong-key"}
session 2
{"error":"wrong-key"}
session 3
{"error":"wrong-key"}
session 4
{"error":"wrong-key"}
session 5
{"error":"wrong-key"}
session 6
{"error":"wrong-key"}
session 7
{"error":"wrong-key"}
pauses 0
pauses 1 closed
events 0 now 0 leases 0 pending 0
status 0
"#,
    },
    Row {
        shows: "whoever showed the key of one name attaches as no other, whatever key it shows then",
        setting: Setting {
            workers: &[&[ANOTHER_LATER]],
            moments: &[0],
            keys: TWO_KEYS,
            ..PLAIN
        },
        told: r#"session 1
{"ok":"read","point":"lamp","value":0,"from":"default","mark":"pending"}
{"error":"wrong-key"}
pauses 0
pauses 1 closed
events 0 now 0 leases 0 pending 0
status 0
"#,
    },
    // The first worker has the sessions 1 and 3, the second one 2.
    Row {
        shows: "each worker asks for keys, of each of its connections anew",
        setting: Setting {
            workers: &[&[ASKS, LOOK], &[ANOTHER_LATER]],
            moments: &[0],
            keys: TWO_KEYS,
            ..PLAIN
        },
        told: r#"session 1
{"ok":"read","point":"lamp","value":0,"from":"default","mark":"pending"}
{"ok":"read","point":"lamp","value":0,"from":"default","mark":"pending"}
session 3
{"error":"wrong-key"}
session 2
{"ok":"read","point":"lamp","value":0,"from":"default","mark":"pending"}
{"error":"wrong-key"}
pauses 0
pauses 0
pauses 1 closed
events 0 now 0 leases 0 pending 0
status 0
"#,
    },
    // The first shows no right key for `b`, and the second, which does, is no name of the rules.
    Row {
        shows: "a wrong key comes before what the rules say of a name",
        setting: Setting {
            workers: &[&[
                Talk {
                    text: r#"{"op":"attach","process":"b","key":"0123456789abcdefghijklmnopqrstuv"}
{"op":"read","point":"lamp"}
"#,
                    fails: 0,
                },
                Talk {
                    text: r#"{"op":"attach","process":"b","key":"bk1_K7gNU3sdo-OL0wNhqoVWhr3g6s1xYv72ol_pe_Unols"}
{"op":"read","point":"lamp"}
"#,
                    fails: 0,
                },
            ]],
            moments: &[0],
            rules: "rule=[{process='a',point='*'}]",
            keys: TWO_KEYS,
            ..PLAIN
        },
        told: r#"session 1
{"error":"wrong-key"}
session 2
{"error":"denied","index":0,"rule":0}
{"ok":"read","point":"lamp","value":0,"from":"default","mark":"pending"}
pauses 0
pauses 1 closed
events 0 now 0 leases 0 pending 0
status 0
"#,
    },
    Row {
        shows: "without keys a key is passed over, a wrong one too",
        setting: Setting {
            workers: &[&[ANOTHER_LATER]],
            ..PLAIN
        },
        told: r#"session 1
{"ok":"read","point":"lamp","value":0,"from":"default","mark":"pending"}
{"ok":"attached","process":"a","next":1}
{"ok":"read","point":"lamp","value":0,"from":"default","mark":"pending"}
pauses 0
pauses 1 closed
events 1 now 1000 leases 0 pending 0
status 0
"#,
    },
];

/// Which of two ends comes first, and the line at the end.
const ENDS: &[Row] = &[
    // The first worker has the sessions 1 and 3, the second one 2.
    Row {
        shows: "sessions count on by the number of workers",
        setting: Setting {
            workers: &[&[ATTACH_A, ATTACH_B], &[ATTACH_A]],
            ..PLAIN
        },
        told: r#"session 1
{"ok":"attached","process":"a","next":1}
session 3
{"ok":"attached","process":"b","next":1}
session 2
{"ok":"attached","process":"a","next":1}
pauses 0
pauses 0
pauses 1 closed
events 2 now 1000 leases 0 pending 0
status 0
"#,
    },
    Row {
        shows: "a worker that is not started comes before a clock that fails",
        setting: Setting {
            workers: &[&[ATTACH_A], &[LOOK]],
            clock_fails: 2,
            unstarted: 1,
            ..PLAIN
        },
        told: r#"session 2
{"ok":"attached","process":"a","next":1}
pauses 0
pauses 0
pauses 1 closed
events 1 now 1000 leases 0 pending 0
status 11
"#,
    },
    Row {
        shows: "a clock that fails comes before an accept that fails",
        setting: Setting {
            workers: &[&[LOOK, ATTACH_B]],
            clock_fails: 2,
            host_fails: 2,
            ..PLAIN
        },
        told: r#"session 1
{"ok":"attached","process":"a","next":1}
pauses 0
pauses 1 closed
events 1 now 1000 leases 0 pending 0
status 12
"#,
    },
    Row {
        shows: "the line at the end can't be written",
        setting: Setting {
            workers: &[&[ATTACH_A]],
            sink_fails: 1,
            ..PLAIN
        },
        told: r#"session 1
{"ok":"attached","process":"a","next":1}
pauses 0
pauses 1 closed
status 7
"#,
    },
];

/// Runs a server, and compares what is told.
fn expect_row<R: Abort + Threads + Wait + Sync>(
    rt: &R,
    alloc: Global,
    catalogue: &Catalogue,
    row: &Row,
) {
    let told = run(rt, alloc, catalogue, &row.setting);
    expect_text(rt, told.as_str(), row.told, row.shows);
}

/// The same of each row.
fn expect_rows<R: Abort + Threads + Wait + Sync>(
    rt: &R,
    alloc: Global,
    catalogue: &Catalogue,
    rows: &[Row],
) {
    for row in rows {
        expect_row(rt, alloc, catalogue, row);
    }
}

#[test]
fn servers_in_memory(rt: HostRuntime) {
    let alloc = rt.alloc();
    let catalogue = Catalogue::read(alloc, THREE_POINTS.as_bytes()).expect(&rt, "a catalogue");
    expect_rows(&rt, alloc, &catalogue, ROWS);
}

#[test]
fn servers_by_keys(rt: HostRuntime) {
    let alloc = rt.alloc();
    let catalogue = Catalogue::read(alloc, THREE_POINTS.as_bytes()).expect(&rt, "a catalogue");
    expect_rows(&rt, alloc, &catalogue, KEYED);
}

#[test]
fn ends_of_servers(rt: HostRuntime) {
    let alloc = rt.alloc();
    let catalogue = Catalogue::read(alloc, THREE_POINTS.as_bytes()).expect(&rt, "a catalogue");
    expect_rows(&rt, alloc, &catalogue, ENDS);
}

const ONE: Setting<'static> = Setting {
    workers: &[&[ATTACH_A]],
    ..PLAIN
};

/// Its host fails as it is bound.
const UNBOUND: Setting<'static> = Setting {
    host_fails: 1,
    ..ONE
};

/// Runs a server, and compares the addresses at which its host was made to listen.
fn expect_addresses<R: Abort + Threads + Wait + Sync>(
    rt: &R,
    alloc: Global,
    catalogue: &Catalogue,
    setting: &Setting,
    wanted: &str,
) {
    let told = addresses(rt, alloc, catalogue, setting);
    expect_text(rt, told.as_str(), wanted, "the addresses");
}

/// The words have its address; a host that fails at it listens nowhere.
#[test]
fn a_server_listens_at_its_address_once(rt: HostRuntime) {
    let alloc = rt.alloc();
    let catalogue = Catalogue::read(alloc, THREE_POINTS.as_bytes()).expect(&rt, "a catalogue");
    expect_addresses(&rt, alloc, &catalogue, &ONE, "here ");
    expect_addresses(&rt, alloc, &catalogue, &UNBOUND, "");
}
