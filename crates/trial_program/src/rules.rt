//! Access rules that are accepted or refused, by the program's words.

use crate::outside::*;
use std::alloc::Global;
use std::process::Abort;
use std::sync::Wait;
use std::thread::Threads;
use trial_parts::THREE_POINTS;

/// A server of the three points over memory, with the rules of a file.
const WITH_RULES: &str = "serve site.toml - here 1 1 plan.toml";

/// A file of rules, the line that refuses it, and what it shows.
const REFUSED: &[(&str, &str, &str)] = &[
    ("rule", "rules not-toml\n", "a key without a value"),
    ("rule=3", "rules missing\n", "no array"),
    (
        "rule=[{process='a',point='ahu1.*',highest=8},{process='*',point='*',highest=17}]",
        "rules bad-rule 2\n",
        "a level that there is not",
    ),
    ("rule=[{process='a'}]", "rules bad-rule 1\n", "no point"),
    (
        "rule=[{process='a',point='A*'}]",
        "rules bad-rule 1\n",
        "no beginning of a name",
    ),
    (
        "rule=[{process='a',point='lamp',allow='no'}]",
        "rules bad-rule 1\n",
        "neither true nor false",
    ),
];

fn expect_status<R: Abort + Threads + Wait + Sync>(
    rt: &R,
    alloc: Global,
    shows: &str,
    words: &str,
    rules: &str,
    line: &str,
    status: u8,
) {
    let given = Given {
        words,
        file: THREE_POINTS,
        plan: rules,
        input: "",
        fails: Fails {
            host: 1,
            ..NONE_FAILS
        },
    };
    let told = Told {
        output: line,
        calls: "",
        status,
    };
    expect(rt, alloc, shows, &given, &told);
}

#[test]
fn rules_are_refused(rt: HostRuntime) {
    expect_each(&rt, rt.alloc(), REFUSED);
}

/// Each of these files is refused so.
fn expect_each<R: Abort + Threads + Wait + Sync>(
    rt: &R,
    alloc: Global,
    rows: &[(&str, &str, &str)],
) {
    for (rules, line, shows) in rows {
        expect_status(rt, alloc, shows, WITH_RULES, rules, line, 16);
    }
}

/// 257 rules, one more than a file may have.
#[test]
fn a_file_has_256_rules(rt: HostRuntime) {
    let mut rules = String::new(rt.alloc());
    for _ in 0..257 {
        rules
            .push_str("[[rule]]\nprocess='a'\npoint='lamp'\n")
            .expect(&rt, "memory");
    }
    let line = "rules too-many 257\n";
    expect_status(
        &rt,
        rt.alloc(),
        "one too many",
        WITH_RULES,
        rules.as_str(),
        line,
        16,
    );
}

/// Rules of comments, with 64 bytes more than a file may have.
#[test]
fn rules_may_have_a_mebibyte(rt: HostRuntime) {
    let mut rules = String::new(rt.alloc());
    for _ in 0..16_385 {
        rules
            .push_str("##############################################################\n#")
            .expect(&rt, "memory");
    }
    let line = "rules too-long 1048640\n";
    expect_status(
        &rt,
        rt.alloc(),
        "too long",
        WITH_RULES,
        rules.as_str(),
        line,
        16,
    );
}

/// Where the host can't listen, nothing is done after the rules were accepted. A file that is not there ends the server as a file
/// that failed. Rules are read before the plan: where both are refused, the rules are.
#[test]
fn rules_are_read_before_the_plan(rt: HostRuntime) {
    let rules = "rule=[{process='*',point='*'}]";
    expect_status(&rt, rt.alloc(), "accepted", WITH_RULES, rules, "", 9);
    let missing = "serve site.toml - here 1 1 other.toml";
    expect_status(&rt, rt.alloc(), "no such file", missing, "", "", 5);
    let both = "serve site.toml - here 1 1 plan.toml plan.toml";
    expect_status(
        &rt,
        rt.alloc(),
        "both refused",
        both,
        "rule=3",
        "rules missing\n",
        16,
    );
    expect_status(
        &rt,
        rt.alloc(),
        "no plan",
        both,
        rules,
        "plan missing driver\n",
        17,
    );
}
