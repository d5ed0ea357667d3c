use crate::outside::*;
use std::alloc::Global;
use std::process::Abort;
use std::sync::Wait;
use std::thread::Threads;
use trial_parts::THREE_POINTS;

/// A run of the program over these words, this file and this input, and all that it tells.
struct Ending {
    shows: &'static str,
    words: &'static str,
    /// What the file `site.toml` holds.
    file: &'static str,
    input: &'static str,
    fails: Fails,
    status: u8,
    output: &'static str,
    /// The calls that the first device is made.
    calls: &'static str,
}

/// A run that ends before a line is read and a device called.
const EARLY: Ending = Ending {
    shows: "",
    words: SCRIPT_WORDS,
    file: THREE_POINTS,
    input: ATTACH,
    fails: NONE_FAILS,
    status: 2,
    output: "usage\n",
    calls: "",
};

/// A run that ends at a fault behind the opening.
const LATE: Ending = Ending {
    status: 6,
    output: OPENING,
    calls: OPENING_CALLS,
    ..EARLY
};

/// The three points, where the lamp's default is no value of a lamp.
const LAMP_AT_TWO: &str = "drivers=['field']
point=[
{name='ahu1.damper',driver='field',kind='analog',min=0,max=100000,default=20000},
{name='lamp',driver='field',kind='binary',default=2},
{name='fan',driver='field',kind='multi',states=3,default=1}]
";

/// The jobs of the table of words in PROTOCOL, one a line, and what a journal, the rules, the plan and the keys are.
const HELP: &str =
    "script CATALOGUE JOURNAL: answer commands that come line by line on the standard input
serve CATALOGUE JOURNAL ADDRESS WORKERS CONNECTIONS [RULES [PLAN [KEYS]]]: serve control programs over TCP
check CATALOGUE JOURNAL: tell what a journal stands for, and write nothing
adopt OLD NEW JOURNAL: take a journal over under a changed catalogue
shift CATALOGUE JOURNAL BY: take all moments of a journal back by so many milliseconds
feed CATALOGUE JOURNAL FROM: tell the events of a journal above a number
standby CATALOGUE JOURNAL: follow a feed that comes on the standard input
load COUNT SEED: play a generated day
version: tell which version this is
JOURNAL is a file with a second one beside it that ends with .b, etcd:HOST:PORT/NAME, or - for memory alone; RULES, PLAN and KEYS are files, or - for none
";

const ATTACH: &str = "{\"op\":\"attach\",\"process\":\"a\"}\n";

const ENDINGS: &[Ending] = &[
    Ending {
        shows: "no word",
        words: "",
        ..EARLY
    },
    Ending {
        shows: "a word that is no job",
        words: "frob",
        ..EARLY
    },
    Ending {
        shows: "a script without its journal",
        words: "script site.toml",
        ..EARLY
    },
    Ending {
        shows: "the version",
        words: "version",
        status: 0,
        output: "bossd 0.3.0\n",
        ..EARLY
    },
    Ending {
        shows: "the version is asked for as of other programs",
        words: "--version",
        status: 0,
        output: "bossd 0.3.0\n",
        ..EARLY
    },
    Ending {
        shows: "the version has no words behind it",
        words: "version site.toml",
        ..EARLY
    },
    Ending {
        shows: "the jobs, one a line",
        words: "--help",
        status: 0,
        output: HELP,
        ..EARLY
    },
    Ending {
        shows: "the usage cannot be written",
        words: "frob",
        fails: Fails {
            sink: 1,
            ..NONE_FAILS
        },
        status: 7,
        output: "",
        ..EARLY
    },
    Ending {
        shows: "the catalogue is refused",
        file: LAMP_AT_TWO,
        status: 3,
        output: "catalogue bad-default 1\n",
        ..EARLY
    },
    Ending {
        shows: "the refusal of the catalogue cannot be written",
        file: LAMP_AT_TWO,
        fails: Fails {
            sink: 1,
            ..NONE_FAILS
        },
        status: 7,
        output: "",
        ..EARLY
    },
    Ending {
        shows: "the file is not there",
        words: "script x.toml -",
        status: 5,
        output: "",
        ..EARLY
    },
    Ending {
        shows: "the file cannot be read",
        fails: Fails {
            files: 1,
            ..NONE_FAILS
        },
        status: 5,
        output: "",
        ..EARLY
    },
    Ending {
        shows: "the first read fails",
        fails: Fails {
            source: 1,
            ..NONE_FAILS
        },
        ..LATE
    },
    Ending {
        shows: "what came whole before a fault is answered",
        fails: Fails {
            source: 2,
            ..NONE_FAILS
        },
        output: ANSWERED,
        ..LATE
    },
    Ending {
        shows: "a rest without its end before a fault is not answered",
        input: "{\"op\":\"attach\",\"process\":\"a\"}",
        fails: Fails {
            source: 2,
            ..NONE_FAILS
        },
        ..LATE
    },
    Ending {
        shows: "behind the end of the source no read is made",
        input: "{\"op\":\"attach\",\"process\":\"a\"}",
        fails: Fails {
            source: 3,
            ..NONE_FAILS
        },
        status: 0,
        output: ANSWERED,
        ..LATE
    },
    Ending {
        shows: "a device is commanded before the line that tells it",
        fails: Fails {
            sink: 1,
            ..NONE_FAILS
        },
        status: 7,
        output: "",
        calls: "0 20000 ok\n",
        ..LATE
    },
    Ending {
        shows: "a server whose connection does not come drives the devices",
        words: "serve site.toml - here 1 1",
        status: 9,
        output: "events 0 now 0 leases 0 pending 0\n",
        ..LATE
    },
    Ending {
        shows: "a server over a journal",
        words: "serve site.toml j here 32 4294967295",
        status: 9,
        output: "events 0 now 0 leases 0 pending 0\n",
        ..LATE
    },
    Ending {
        shows: "what is told of a server cannot be written, which does not hide what failed before",
        words: "serve site.toml - here 1 1",
        fails: Fails {
            sink: 1,
            ..NONE_FAILS
        },
        status: 9,
        output: "",
        ..LATE
    },
    Ending {
        shows: "a server with 1,025 workers",
        words: "serve site.toml - here 1025 1",
        ..EARLY
    },
    Ending {
        shows: "a server under a catalogue that is refused",
        words: "serve site.toml - here 1 1",
        file: LAMP_AT_TWO,
        status: 3,
        output: "catalogue bad-default 1\n",
        ..EARLY
    },
    Ending {
        shows: "the script without a line",
        input: "",
        status: 0,
        ..LATE
    },
    Ending {
        shows: "a script of blank lines",
        input: "\n \t \n\t",
        status: 0,
        ..LATE
    },
    Ending {
        shows: "the plant without a point",
        file: "drivers=[]\npoint=[]",
        input: "",
        status: 0,
        output: "",
        calls: "",
        ..LATE
    },
    Ending {
        shows: "the plant with one point",
        file: "drivers=['east']\npoint=[{name='frost_limit',driver='east',kind='analog',min=-9,max=0,default=-5}]",
        input: "{\"op\":\"read\",\"point\":\"frost_limit\"}",
        status: 0,
        output: "write east frost_limit -5 ok
{\"ok\":\"read\",\"point\":\"frost_limit\",\"value\":-5,\"from\":\"default\",\"mark\":\"settled\"}
",
        calls: "0 -5 ok\n",
        ..LATE
    },
    Ending {
        shows: "the least driver is served first, and each has its device",
        file: "drivers=['east','west']
point=[
{name='lamp',driver='west',kind='binary',default=1},
{name='fan',driver='east',kind='multi',states=3,default=2}]
",
        input: "",
        status: 0,
        output: "write east fan 2 ok\nwrite west lamp 1 ok\n",
        calls: "1 2 ok\n",
        ..LATE
    },
];

const OPENING: &str =
    "write field ahu1.damper 20000 ok\nwrite field lamp 0 ok\nwrite field fan 1 ok\n";

/// What is told up to the answer to the attach.
const ANSWERED: &str = "write field ahu1.damper 20000 ok
write field lamp 0 ok
write field fan 1 ok
{\"ok\":\"attached\",\"process\":\"a\",\"next\":1}
";

/// The calls of the device at the opening.
const OPENING_CALLS: &str = "0 20000 ok\n1 0 ok\n2 1 ok\n";

/// Generated loads. Each transaction is accepted and renewed six times, and none is refused. Behind the writes of the 40 defaults each
/// transaction but the last makes three: its value, that of its reversion, and the default again; the last one is live at the end, and
/// makes one.
const LOADS: &[Ending] = &[
    Ending {
        shows: "one transaction",
        words: "load 1 0",
        status: 0,
        output: "load accepted 1 renewed 6 refused 0 notices 0 writes 41 now 168000 last 30000\n",
        ..EARLY
    },
    Ending {
        shows: "500 transactions",
        words: "load 500 7",
        status: 0,
        output: "load accepted 500 renewed 3000 refused 0 notices 1497 writes 1538 now 84000000 last 81733\n",
        ..EARLY
    },
    Ending {
        shows: "10,000 transactions",
        words: "load 10000 7",
        status: 0,
        output: "load accepted 10000 renewed 60000 refused 0 notices 29997 writes 30038 now 1680000000 last 70979\n",
        ..EARLY
    },
    Ending {
        shows: "a summary that cannot be written",
        words: "load 1 0",
        fails: Fails {
            sink: 1,
            ..NONE_FAILS
        },
        status: 7,
        output: "",
        ..EARLY
    },
];

fn expect_each<R: Abort + Threads + Wait + Sync>(rt: &R, alloc: Global, endings: &[Ending]) {
    for ending in endings {
        expect_ending(rt, alloc, ending);
    }
}

fn expect_ending<R: Abort + Threads + Wait + Sync>(rt: &R, alloc: Global, ending: &Ending) {
    let given = Given {
        words: ending.words,
        file: ending.file,
        plan: "",
        input: ending.input,
        fails: ending.fails,
    };
    let told = Told {
        output: ending.output,
        calls: ending.calls,
        status: ending.status,
    };
    expect(rt, alloc, ending.shows, &given, &told);
}

#[test]
fn a_run_has_its_status(rt: HostRuntime) {
    expect_each(&rt, rt.alloc(), ENDINGS);
}

#[test]
fn a_load_is_summed_up(rt: HostRuntime) {
    expect_each(&rt, rt.alloc(), LOADS);
}
