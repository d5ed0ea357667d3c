//! Connections that are served.

ghost use Rattle.std.specs.Prelude.{◌≡◌};
ghost use Rattle.boss_model.specs.Catalogue.{actuators};

use crate::asking::{ALL, GOOD, Machine, is_line_done, prepare};
use crate::connection::{Connection, Fails, NONE_FAILS};
use crate::pieces::Piece;
use crate::texts::{compare, push_line, push_lines, push_sent};
use boss_keys::{KeyFile, Keys};
use boss_model::SessionId;
use boss_points::Catalogue;
use boss_sessions::SessionEnd;
use boss_shared::Desk;
use std::alloc::Global;
use std::process::Abort;
use std::sync::Wait;
use trial_keeper::{Taken, Trial, run_trial};
use trial_parts::THREE_POINTS;

const ATTACH: &str = r#"{"op":"attach","process":"a"}"#;

const SUBMIT: &str =
    r#"{"op":"submit","writes":[{"point":"ahu1.damper","value":45000,"priority":8,"lease":60000}]}"#;

const READ: &str = r#"{"op":"read","point":"ahu1.damper"}"#;

const WATCH: &str = r#"{"op":"watch","process":"a"}"#;

const WATCH_FROM_3: &str = r#"{"op":"watch","process":"a","from":3}"#;

/// The key of `a` under `A_KEY`, and the lines that show it.
const A_KEY: &str =
    "key=[{process='a',sha256='73337f479fe170d73e53e247f3052e4243cc9c2a0ffa621853d9385c619efb77'}]";

const ATTACH_SHOWN: &str =
    r#"{"op":"attach","process":"a","key":"0123456789abcdefghijklmnopqrstuv"}"#;

const READ_SHOWN: &str =
    r#"{"op":"read","point":"ahu1.damper","as":"a","key":"0123456789abcdefghijklmnopqrstuv"}"#;

const WATCH_SHOWN: &str =
    r#"{"op":"watch","process":"b","as":"a","key":"0123456789abcdefghijklmnopqrstuv"}"#;

/// The key is that of `a`.
const ATTACH_OTHER: &str =
    r#"{"op":"attach","process":"b","key":"0123456789abcdefghijklmnopqrstuv"}"#;

const WRONG_KEY: &str = r#"{"error":"wrong-key"}"#;

const ATTACHED: &str = r#"{"ok":"attached","process":"a","next":1}"#;

const ACCEPTED: &str = r#"{"ok":"accepted","txn":1,"until":61000}"#;

const ACCEPTED_LATER: &str = r#"{"ok":"accepted","txn":1,"until":62000}"#;

const HELD: &str =
    r#"{"ok":"read","point":"ahu1.damper","value":45000,"from":"lease","priority":8,"txn":1,"mark":"pending"}"#;

const FREE: &str =
    r#"{"ok":"read","point":"ahu1.damper","value":20000,"from":"default","mark":"pending"}"#;

const MALFORMED: &str = r#"{"error":"malformed"}"#;

const NO_OP: &str = r#"{"error":"malformed","key":"op"}"#;

const UNKNOWN_OP: &str = r#"{"error":"unknown-op"}"#;

const TOO_LONG: &str = r#"{"error":"too-long"}"#;

const MEMORY: &str = r#"{"error":"memory"}"#;

const STOPPED: &str = r#"{"error":"stopped"}"#;

/// An attach of the same process by another session.
const ATTACH_AGAIN: &str = r#"{"on":9,"op":"attach","process":"a"}"#;

const ENDED: &str = "End; bytes left: 0; a is free";

/// What comes on a connection of session 1 and how, and what fails. Then what is told: what goes out, how the session ends, how much is
/// left in the source and whether its process is free; of each call in which the disk did not fail how many commands it had and
/// the moment of the first; and, where it counts, how many writes were made.
#[derive(Drop)]
struct Talk {
    shows: &'static str,
    lines: &'static [&'static str],
    /// How many bytes without a line end come behind the lines.
    rest: usize,
    /// The lines that come behind these, of which the first begins with them.
    behind: &'static [&'static str],
    piece: Piece,
    moments: &'static [u32],
    fails: Fails,
    machine: Machine,
    /// The keys of a file, or an empty text for none.
    keys: &'static str,
    counts: bool,
    told: &'static [&'static str],
}

/// An attach, a submit and a read in one read, the clock standing still.
const ONE_PIECE: Talk = Talk {
    shows: "one piece",
    lines: &[ATTACH, SUBMIT, READ],
    rest: 0,
    behind: &[],
    piece: Piece::Whole,
    moments: &[1000],
    fails: NONE_FAILS,
    machine: GOOD,
    keys: "",
    counts: false,
    told: &[ATTACHED, ACCEPTED, HELD, ENDED, "3 at 1000", "1 at 1000"],
};

/// How the lines come.
const PIECES: &[Talk] = &[
    ONE_PIECE,
    Talk {
        shows: "three pieces",
        piece: Piece::Line,
        told: &[
            ATTACHED,
            ACCEPTED,
            HELD,
            ENDED,
            "1 at 1000",
            "1 at 1000",
            "1 at 1000",
            "1 at 1000",
        ],
        ..ONE_PIECE
    },
    Talk {
        shows: "one byte a read",
        piece: Piece::Byte,
        told: &[
            ATTACHED,
            ACCEPTED,
            HELD,
            ENDED,
            "1 at 1000",
            "1 at 1000",
            "1 at 1000",
            "1 at 1000",
        ],
        ..ONE_PIECE
    },
    Talk {
        shows: "each line has a moment of its own, and the last one is that of the loss",
        moments: &[1000, 2000, 500],
        piece: Piece::Line,
        told: &[
            ATTACHED,
            ACCEPTED_LATER,
            HELD,
            ENDED,
            "1 at 1000",
            "1 at 2000",
            "1 at 500",
            "1 at 500",
        ],
        ..ONE_PIECE
    },
    Talk {
        shows: "a blank line ends no batch",
        lines: &[READ, "  ", READ],
        told: &[FREE, FREE, ENDED, "2 at 1000"],
        ..ONE_PIECE
    },
    Talk {
        shows: "seventeen are called as sixteen and one",
        lines: &[
            READ, READ, READ, READ, READ, READ, READ, READ, READ, READ, READ, READ, READ, READ,
            READ, READ, READ,
        ],
        told: &[
            FREE,
            FREE,
            FREE,
            FREE,
            FREE,
            FREE,
            FREE,
            FREE,
            FREE,
            FREE,
            FREE,
            FREE,
            FREE,
            FREE,
            FREE,
            FREE,
            FREE,
            ENDED,
            "16 at 1000",
            "1 at 1000",
        ],
        ..ONE_PIECE
    },
    Talk {
        shows: "no attach",
        lines: &[READ],
        told: &[FREE, ENDED, "1 at 1000"],
        ..ONE_PIECE
    },
    Talk {
        shows: "no line",
        lines: &[],
        told: &[ENDED],
        ..ONE_PIECE
    },
];

/// Lines that are no commands.
const OTHER_LINES: &[Talk] = &[
    Talk {
        shows: "a first line that watches has no reply, and the others are not read",
        lines: &[WATCH, READ, READ],
        piece: Piece::Line,
        told: &["watches a from 1; bytes left: 72; a is free"],
        ..ONE_PIECE
    },
    Talk {
        shows: "a blank line is not the first",
        lines: &["\t", WATCH_FROM_3],
        told: &["watches a from 3; bytes left: 0; a is free"],
        ..ONE_PIECE
    },
    Talk {
        shows: "a later line that watches",
        lines: &[READ, WATCH],
        told: &[FREE, UNKNOWN_OP, ENDED, "1 at 1000"],
        ..ONE_PIECE
    },
    Talk {
        shows: "a line between two reads that asks nothing",
        lines: &[READ, "{}", READ],
        told: &[FREE, NO_OP, FREE, ENDED, "1 at 1000", "1 at 1000"],
        ..ONE_PIECE
    },
    Talk {
        shows: "a line that is too long behind fifteen",
        lines: &[
            READ, READ, READ, READ, READ, READ, READ, READ, READ, READ, READ, READ, READ, READ,
            READ,
        ],
        rest: 65_536,
        told: &[
            FREE,
            FREE,
            FREE,
            FREE,
            FREE,
            FREE,
            FREE,
            FREE,
            FREE,
            FREE,
            FREE,
            FREE,
            FREE,
            FREE,
            FREE,
            TOO_LONG,
            "TooLong; bytes left: 0; a is free",
            "15 at 1000",
        ],
        ..ONE_PIECE
    },
    Talk {
        shows: "behind a line that is too long nothing more is read, and nothing is said",
        lines: &[READ],
        rest: 65_536,
        behind: &["", READ],
        piece: Piece::Line,
        counts: true,
        told: &[
            FREE,
            TOO_LONG,
            "TooLong; bytes left: 36; a is free",
            "1 at 1000",
            "writes: 2",
        ],
        ..ONE_PIECE
    },
    Talk {
        shows: "a rest without a line end is a line",
        rest: 1,
        told: &[
            ATTACHED,
            ACCEPTED,
            HELD,
            MALFORMED,
            ENDED,
            "3 at 1000",
            "1 at 1000",
        ],
        ..ONE_PIECE
    },
];

/// Reads, writes and readings of the clock that fail.
const FAULTS: &[Talk] = &[
    Talk {
        shows: "the second of three reads fails",
        piece: Piece::Line,
        fails: Fails {
            read: 2,
            ..NONE_FAILS
        },
        told: &[
            ATTACHED,
            "ReadFault; bytes left: 128; a is free",
            "1 at 1000",
            "1 at 1000",
        ],
        ..ONE_PIECE
    },
    Talk {
        shows: "the first read fails",
        fails: Fails {
            read: 1,
            ..NONE_FAILS
        },
        told: &["ReadFault; bytes left: 158; a is free"],
        ..ONE_PIECE
    },
    Talk {
        shows: "the first write fails, and all are done",
        fails: Fails {
            write: 1,
            ..NONE_FAILS
        },
        told: &[
            "WriteFault; bytes left: 0; a is free",
            "3 at 1000",
            "1 at 1000",
        ],
        ..ONE_PIECE
    },
    Talk {
        shows: "a second write would fail, and there is none",
        fails: Fails {
            write: 2,
            ..NONE_FAILS
        },
        ..ONE_PIECE
    },
    Talk {
        shows: "the second write fails, and the line behind is not read",
        piece: Piece::Line,
        fails: Fails {
            write: 2,
            ..NONE_FAILS
        },
        told: &[
            ATTACHED,
            "WriteFault; bytes left: 36; a is free",
            "1 at 1000",
            "1 at 1000",
            "1 at 1000",
        ],
        ..ONE_PIECE
    },
    Talk {
        shows: "a reply to a line that asks nothing fails",
        lines: &["{}", READ],
        fails: Fails {
            write: 1,
            ..NONE_FAILS
        },
        told: &["WriteFault; bytes left: 0; a is free"],
        ..ONE_PIECE
    },
    Talk {
        shows: "the first reading fails, and nothing is called",
        fails: Fails {
            reading: 1,
            ..NONE_FAILS
        },
        told: &["ClockFault; bytes left: 0; a is free"],
        ..ONE_PIECE
    },
    Talk {
        shows: "the second reading fails, and what is held is done",
        fails: Fails {
            reading: 2,
            ..NONE_FAILS
        },
        told: &[
            ATTACHED,
            "ClockFault; bytes left: 0; a is free",
            "1 at 1000",
            "1 at 1000",
        ],
        ..ONE_PIECE
    },
    Talk {
        shows: "the third reading fails, and what is held is done",
        fails: Fails {
            reading: 3,
            ..NONE_FAILS
        },
        told: &[
            ATTACHED,
            ACCEPTED,
            "ClockFault; bytes left: 0; a is free",
            "2 at 1000",
            "1 at 1000",
        ],
        ..ONE_PIECE
    },
    Talk {
        shows: "the second reading fails, for a line that came alone",
        piece: Piece::Line,
        fails: Fails {
            reading: 2,
            ..NONE_FAILS
        },
        told: &[
            ATTACHED,
            "ClockFault; bytes left: 36; a is free",
            "1 at 1000",
            "1 at 1000",
        ],
        ..ONE_PIECE
    },
    Talk {
        shows: "a clock that failed goes before a write that did",
        fails: Fails {
            write: 1,
            reading: 3,
            ..NONE_FAILS
        },
        told: &[
            "ClockFault; bytes left: 0; a is free",
            "2 at 1000",
            "1 at 1000",
        ],
        ..ONE_PIECE
    },
];

/// How many writes the replies are.
const WRITES: &[Talk] = &[
    Talk {
        shows: "three replies to what came in one piece are one write",
        counts: true,
        told: &[
            ATTACHED,
            ACCEPTED,
            HELD,
            ENDED,
            "3 at 1000",
            "1 at 1000",
            "writes: 1",
        ],
        ..ONE_PIECE
    },
    Talk {
        shows: "three pieces are three writes",
        piece: Piece::Line,
        counts: true,
        told: &[
            ATTACHED,
            ACCEPTED,
            HELD,
            ENDED,
            "1 at 1000",
            "1 at 1000",
            "1 at 1000",
            "1 at 1000",
            "writes: 3",
        ],
        ..ONE_PIECE
    },
    Talk {
        shows: "seventeen are two writes",
        lines: &[
            READ, READ, READ, READ, READ, READ, READ, READ, READ, READ, READ, READ, READ, READ,
            READ, READ, READ,
        ],
        counts: true,
        told: &[
            FREE,
            FREE,
            FREE,
            FREE,
            FREE,
            FREE,
            FREE,
            FREE,
            FREE,
            FREE,
            FREE,
            FREE,
            FREE,
            FREE,
            FREE,
            FREE,
            FREE,
            ENDED,
            "16 at 1000",
            "1 at 1000",
            "writes: 2",
        ],
        ..ONE_PIECE
    },
    Talk {
        shows: "what was answered and that there was no memory are one write, and what comes behind is another",
        machine: Machine { fed: 1, ..GOOD },
        counts: true,
        told: &[
            ATTACHED,
            MEMORY,
            FREE,
            ENDED,
            "3 at 1000",
            "1 at 1000",
            "1 at 1000",
            "writes: 2",
        ],
        ..ONE_PIECE
    },
    Talk {
        shows: "a line that asks nothing has a write of its own",
        lines: &[READ, READ, "{}"],
        counts: true,
        told: &[FREE, FREE, NO_OP, ENDED, "2 at 1000", "writes: 2"],
        ..ONE_PIECE
    },
    Talk {
        shows: "no reply, no write",
        lines: &[],
        counts: true,
        told: &[ENDED, "writes: 0"],
        ..ONE_PIECE
    },
];

/// A disk that fails, and memory that is wanting.
const MACHINES: &[Talk] = &[
    Talk {
        shows: "no memory for the second of three",
        machine: Machine { fed: 1, ..GOOD },
        told: &[
            ATTACHED,
            MEMORY,
            FREE,
            ENDED,
            "3 at 1000",
            "1 at 1000",
            "1 at 1000",
        ],
        ..ONE_PIECE
    },
    Talk {
        shows: "no memory for an attach, so that nobody is lost",
        lines: &[ATTACH, READ],
        machine: Machine { fed: 0, ..GOOD },
        told: &[MEMORY, FREE, ENDED, "2 at 1000", "1 at 1000"],
        ..ONE_PIECE
    },
    Talk {
        shows: "the disk fails, and nothing more is said",
        machine: Machine {
            good_calls: 0,
            ..GOOD
        },
        told: &[STOPPED, "DiskFault; bytes left: 0; a is not free"],
        ..ONE_PIECE
    },
    Talk {
        shows: "the disk has failed before",
        machine: Machine {
            good_calls: 0,
            fed: ALL,
            broken: true,
        },
        told: &[STOPPED, "Stopped; bytes left: 0; a is not free"],
        ..ONE_PIECE
    },
    Talk {
        shows: "the disk fails behind two lines that were answered",
        piece: Piece::Line,
        machine: Machine {
            good_calls: 2,
            ..GOOD
        },
        told: &[
            ATTACHED,
            ACCEPTED,
            STOPPED,
            "Stopped; bytes left: 0; a is not free",
            "1 at 1000",
            "1 at 1000",
        ],
        ..ONE_PIECE
    },
    Talk {
        shows: "the disk fails where the process is told to be lost",
        machine: Machine {
            good_calls: 1,
            ..GOOD
        },
        told: &[
            ATTACHED,
            ACCEPTED,
            HELD,
            "DiskFault; bytes left: 0; a is not free",
            "3 at 1000",
        ],
        ..ONE_PIECE
    },
];

/// The same where whoever speaks has to show the key of `a`.
const KEYED: Talk = Talk {
    keys: A_KEY,
    ..ONE_PIECE
};

/// What is said where there are keys.
const KEYS: &[Talk] = &[
    Talk {
        shows: "the key comes once, with the first line",
        lines: &[ATTACH_SHOWN, SUBMIT, READ],
        ..KEYED
    },
    Talk {
        shows: "the same, one byte a read",
        lines: &[ATTACH_SHOWN, SUBMIT, READ],
        piece: Piece::Byte,
        told: &[
            ATTACHED,
            ACCEPTED,
            HELD,
            ENDED,
            "1 at 1000",
            "1 at 1000",
            "1 at 1000",
            "1 at 1000",
        ],
        ..KEYED
    },
    Talk {
        shows: "without a key nothing is done, and the others are not read",
        lines: &[ATTACH, READ, READ],
        piece: Piece::Line,
        told: &[WRONG_KEY, "WrongKey; bytes left: 72; a is free"],
        ..KEYED
    },
    Talk {
        shows: "what a line asks is not looked at before its key",
        lines: &[r#"{"op":"frob"}"#],
        told: &[WRONG_KEY, "WrongKey; bytes left: 0; a is free"],
        ..KEYED
    },
    Talk {
        shows: "a key of another name",
        lines: &[ATTACH_OTHER],
        told: &[WRONG_KEY, "WrongKey; bytes left: 0; a is free"],
        ..KEYED
    },
    Talk {
        shows: "a watch without a key",
        lines: &[WATCH],
        told: &[WRONG_KEY, "WrongKey; bytes left: 0; a is free"],
        ..KEYED
    },
    Talk {
        shows: "a watch of another process under the own name",
        lines: &[WATCH_SHOWN],
        told: &["watches b from 1; bytes left: 0; a is free"],
        ..KEYED
    },
    Talk {
        shows: "a blank line and what is no object show nothing and ask nothing",
        lines: &["\t", "x", "[]", ATTACH_SHOWN],
        told: &[MALFORMED, NO_OP, ATTACHED, ENDED, "1 at 1000", "1 at 1000"],
        ..KEYED
    },
    Talk {
        shows: "whoever asked under one name attaches as no other",
        lines: &[READ_SHOWN, ATTACH_OTHER, READ],
        told: &[
            FREE,
            WRONG_KEY,
            "WrongKey; bytes left: 0; a is free",
            "1 at 1000",
        ],
        ..KEYED
    },
    Talk {
        shows: "whoever attached under one name does so as no other, and its process is lost",
        lines: &[ATTACH_SHOWN, ATTACH_OTHER, READ],
        told: &[
            ATTACHED,
            WRONG_KEY,
            "WrongKey; bytes left: 0; a is free",
            "1 at 1000",
            "1 at 1000",
        ],
        ..KEYED
    },
    Talk {
        shows: "a key that comes later is passed over",
        lines: &[READ_SHOWN, ATTACH_SHOWN],
        told: &[FREE, ATTACHED, ENDED, "2 at 1000", "1 at 1000"],
        ..KEYED
    },
];

/// A connection that is to be served.
#[derive(Drop)]
struct Talking<'a> {
    alloc: Global,
    broken: bool,
    keys: Option<Keys>,
    connection: Connection<'a>,
}

/// How a session ended, and whether its process may then be attached by another.
#[derive(Drop)]
struct Talked {
    end: SessionEnd,
    free: bool,
}

impl Trial for Talking<'_> {
    /// Nothing, where what comes before it did not go as it is to.
    type Told = Option<Talked>;

    fn run<G: Desk>(
        &mut self,
        catalogue: &Catalogue,
        desk: &G,
        pass: &mut G::Pass,
    ) -> Option<Talked> {
        let alloc = self.alloc;
        if !prepare(alloc, catalogue, desk, pass, &[], self.broken) {
            return None;
        }
        let end = self.connection.serve(
            alloc,
            catalogue,
            self.keys.as_ref(),
            desk,
            pass,
            SessionId(1),
        );
        let free = is_line_done(alloc, catalogue, desk, pass, ATTACH_AGAIN);
        Some(Talked { end, free })
    }
}

/// Tells of each call of session 1.
fn tell_calls(rt: &impl Abort, text: &mut String, taken: &[Taken]) {
    for call in taken {
        if call.session == SessionId(1) {
            writeln!(text, "{} at {}", call.commands, call.moment).expect(rt, "memory");
        }
    }
}

/// Tells how a session ended.
fn tell_session(rt: &impl Abort, text: &mut String, end: &SessionEnd) {
    match end {
        SessionEnd::Watch { name, from } => {
            write!(text, "watches {name} from {from}").expect(rt, "memory")
        }
        end => write!(text, "{end:?}").expect(rt, "memory"),
    }
}

/// Tells how a session ended, what is left in the source, and whether its process may be attached by another.
fn tell_talked(rt: &impl Abort, text: &mut String, talked: &Option<Talked>, left: usize) {
    match talked {
        Some(talked) => {
            tell_session(rt, text, &talked.end);
            let free = if talked.free { "free" } else { "not free" };
            writeln!(text, "; bytes left: {left}; a is {free}").expect(rt, "memory");
        }
        None => push_line(rt, text, "not prepared"),
    }
}

/// Tells what went out, how the session ended, what was called and, where it counts, how many writes were made.
fn tell(
    rt: &impl Abort,
    text: &mut String,
    connection: &Connection<'_>,
    talked: &Option<Talked>,
    taken: &[Taken],
    counts: bool,
) {
    push_sent(rt, text, connection.sink.taken());
    tell_talked(rt, text, talked, connection.source.left().len());
    tell_calls(rt, text, taken);
    if counts {
        writeln!(text, "writes: {}", connection.sink.writes()).expect(rt, "memory");
    }
}

/// The bytes that come.
fn input(rt: &impl Abort, alloc: Global, talk: &Talk) -> String {
    let mut text = String::new(alloc);
    push_lines(rt, &mut text, talk.lines);
    for _ in 0..talk.rest {
        text.push('x').expect(rt, "memory");
    }
    push_lines(rt, &mut text, talk.behind);
    text
}

/// The keys of a text, if it has some.
fn keys_of(rt: &impl Abort, alloc: Global, text: &str) -> Option<Keys> {
    if text.is_empty() {
        return None;
    }
    Some(
        KeyFile::read(alloc, text.as_bytes())
            .expect(rt, "keys")
            .keys,
    )
}

/// A connection on which these lines come.
fn ready_to_talk<'a>(rt: &impl Abort, alloc: Global, talk: &Talk, lines: &'a str) -> Talking<'a> {
    Talking {
        alloc,
        broken: talk.machine.broken,
        keys: keys_of(rt, alloc, talk.keys),
        connection: Connection::new(rt, alloc, lines, talk.piece, talk.moments, talk.fails),
    }
}

/// Serves the lines over a machine of its own, and tells of it.
fn serve<R: Abort + Wait + Sync>(
    rt: &R,
    alloc: Global,
    catalogue: &Catalogue,
    talk: &Talk,
    lines: &str,
    text: &mut String,
) {
    let mut talking = ready_to_talk(rt, alloc, talk, lines);
    let Machine {
        good_calls,
        fed,
        ..
    } = talk.machine;
    let ran = run_trial(rt, alloc, catalogue, good_calls, fed, &mut talking);
    let (talked, taken) = ran.expect(rt, "memory");
    tell(
        rt,
        text,
        &talking.connection,
        &talked,
        taken.slice(),
        talk.counts,
    );
}

/// Serves a connection, and compares what is told of it.
fn try_talk<R: Abort + Wait + Sync>(rt: &R, alloc: Global, catalogue: &Catalogue, talk: &Talk) {
    let lines = input(rt, alloc, talk);
    let mut told = String::new(alloc);
    serve(rt, alloc, catalogue, talk, lines.as_str(), &mut told);
    compare(rt, alloc, told.as_str(), talk.told, talk.shows);
}

/// Serves each of these connections.
fn try_all<R: Abort + Wait + Sync>(rt: &R, alloc: Global, catalogue: &Catalogue, talks: &[Talk]) {
    for talk in talks {
        try_talk(rt, alloc, catalogue, talk);
    }
}

#[test]
fn connections_are_served_as_it_was_worked_out(rt: HostRuntime) {
    let alloc = rt.alloc();
    let catalogue = Catalogue::read(alloc, THREE_POINTS.as_bytes()).expect(&rt, "a catalogue");
    try_all(&rt, alloc, &catalogue, PIECES);
    try_all(&rt, alloc, &catalogue, OTHER_LINES);
    try_all(&rt, alloc, &catalogue, FAULTS);
    try_all(&rt, alloc, &catalogue, WRITES);
    try_all(&rt, alloc, &catalogue, MACHINES);
    try_all(&rt, alloc, &catalogue, KEYS);
}
