//! Files of keys that are accepted or refused, by the program's words.

use crate::outside::*;
use std::alloc::Global;
use std::process::Abort;
use std::sync::Wait;
use std::thread::Threads;
use trial_parts::THREE_POINTS;

/// A server of the three points over memory, with the keys of a file.
const WITH_KEYS: &str = "serve site.toml - here 1 1 - - plan.toml";

/// Keys that are accepted: of one process, and of every one.
const ACCEPTED: &str =
    "key=[{process='a',sha256='73337f479fe170d73e53e247f3052e4243cc9c2a0ffa621853d9385c619efb77'},
{process='*',sha256='efb0e199989fe29959dd341a9d72a0d99b0a9d91b23c8ff9ca613c659119a3d0'}]";

/// A file of keys, the line that refuses it, and what it shows.
const REFUSED: &[(&str, &str, &str)] = &[
    ("key", "keys not-toml\n", "a key without a value"),
    ("key=3", "keys missing\n", "no array"),
    ("rule=[]", "keys missing\n", "a file of rules"),
    (
        "key=[{process='a',sha256='73337f479fe170d73e53e247f3052e4243cc9c2a0ffa621853d9385c619efb77'},{process='b',sha256='7333'}]",
        "keys bad-key 2\n",
        "no digest",
    ),
    (
        "key=[{process='A*',sha256='73337f479fe170d73e53e247f3052e4243cc9c2a0ffa621853d9385c619efb77'}]",
        "keys bad-key 1\n",
        "no beginning of a name",
    ),
    (
        "key=[{process='a',sha256='73337f479fe170d73e53e247f3052e4243cc9c2a0ffa621853d9385c619efb77',point='*'}]",
        "keys bad-key 1\n",
        "a key that nothing reads",
    ),
];

fn expect_status<R: Abort + Threads + Wait + Sync>(
    rt: &R,
    alloc: Global,
    shows: &str,
    words: &str,
    keys: &str,
    line: &str,
    status: u8,
) {
    let given = Given {
        words,
        file: THREE_POINTS,
        plan: keys,
        input: "",
        fails: Fails {
            host: 1,
            ..NONE_FAILS
        },
    };
    let told = Told {
        output: line,
        calls: "",
        status,
    };
    expect(rt, alloc, shows, &given, &told);
}

#[test]
fn keys_are_refused(rt: HostRuntime) {
    expect_each(&rt, rt.alloc(), REFUSED);
}

/// Each of these files is refused so.
fn expect_each<R: Abort + Threads + Wait + Sync>(
    rt: &R,
    alloc: Global,
    rows: &[(&str, &str, &str)],
) {
    for (keys, line, shows) in rows {
        expect_status(rt, alloc, shows, WITH_KEYS, keys, line, 19);
    }
}

/// 513 keys, one more than a file may have.
#[test]
fn a_file_has_512_keys(rt: HostRuntime) {
    let mut keys = String::new(rt.alloc());
    for _ in 0..513 {
        keys.push_str("[[key]]\nprocess='a'\nsha256=''\n")
            .expect(&rt, "memory");
    }
    let line = "keys too-many 513\n";
    expect_status(
        &rt,
        rt.alloc(),
        "one too many",
        WITH_KEYS,
        keys.as_str(),
        line,
        19,
    );
}

/// Keys of comments, with 64 bytes more than a file may have.
#[test]
fn keys_may_have_a_mebibyte(rt: HostRuntime) {
    let mut keys = String::new(rt.alloc());
    for _ in 0..16_385 {
        keys.push_str("##############################################################\n#")
            .expect(&rt, "memory");
    }
    let line = "keys too-long 1048640\n";
    expect_status(
        &rt,
        rt.alloc(),
        "too long",
        WITH_KEYS,
        keys.as_str(),
        line,
        19,
    );
}

/// Where the host can't listen, nothing is done after the keys were accepted. A file that is not there ends the server as a file
/// that failed. Keys are read behind the rules and before the plan, so that no device is told anything where they are refused.
#[test]
fn keys_are_read_between_the_rules_and_the_plan(rt: HostRuntime) {
    expect_status(&rt, rt.alloc(), "accepted", WITH_KEYS, ACCEPTED, "", 9);
    let missing = "serve site.toml - here 1 1 - - other.toml";
    expect_status(&rt, rt.alloc(), "no such file", missing, "", "", 5);
    let all = "serve site.toml - here 1 1 plan.toml plan.toml plan.toml";
    expect_status(
        &rt,
        rt.alloc(),
        "all refused",
        all,
        "",
        "rules missing\n",
        16,
    );
    expect_status(
        &rt,
        rt.alloc(),
        "keys and plan refused",
        all,
        "rule=[]",
        "keys missing\n",
        19,
    );
    expect_status(
        &rt,
        rt.alloc(),
        "the plan refused",
        all,
        "rule=[]\nkey=[]",
        "plan missing driver\n",
        17,
    );
}
