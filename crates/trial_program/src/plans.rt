//! Plans that are accepted or refused, by the program's words.

use crate::outside::*;
use std::alloc::Global;
use std::process::Abort;
use std::sync::Wait;
use std::thread::Threads;
use trial_parts::THREE_POINTS;

/// A server of the three points over memory, with the plan of a file.
const WITH_PLAN: &str = "serve site.toml - here 1 1 - plan.toml";

/// A plan, the line that refuses it, and what it shows.
const REFUSED: &[(&str, &str, &str)] = &[
    ("driver", "plan not-toml\n", "a key without a value"),
    ("place=[]", "plan missing driver\n", "no drivers"),
    ("driver=[]", "plan missing place\n", "no places"),
    (
        "place=3\ndriver='field'",
        "plan missing driver\n",
        "neither is an array",
    ),
    (
        "driver=[{name='east',host='127.0.0.1:1502'}]\nplace=[]",
        "plan bad-driver 0\n",
        "a driver that the catalogue does not have",
    ),
    (
        "driver=[{name='field',host='127.0.0.1:1502'},{name='field',host='127.0.0.1:1503'}]\nplace=[]",
        "plan bad-driver 1\n",
        "a driver twice",
    ),
    (
        "driver=[{name='field',host=''}]\nplace=[]",
        "plan bad-driver 0\n",
        "a host without a byte",
    ),
    (
        "driver=[{name='field',host='127.0.0.1:1502'}]
place=[{point='lamp',unit=1,coil=19},{point='lamp',unit=1,coil=20}]",
        "plan bad-place 1\n",
        "a point twice",
    ),
    (
        "driver=[{name='field',host='127.0.0.1:1502',wait=49}]\nplace=[]",
        "plan bad-driver 0\n",
        "a host that is hardly waited for",
    ),
    (
        "driver=[{name='field',host='127.0.0.1:1502'}]\nplace=[{point='fan',unit=1,coil=3}]",
        "plan bad-place 0\n",
        "a coil for a fan",
    ),
    (
        "driver=[{name='field',host='127.0.0.1:1502'}]\nplace=[{point='fan',unit=1,register=65535,type='f32'}]",
        "plan bad-place 0\n",
        "a float without its second register",
    ),
    (
        "driver=[{name='field',host='127.0.0.1:1502'}]\nplace=[{point='lamp',unit=1,coil=19,type='u16'}]",
        "plan bad-place 0\n",
        "a type at a coil",
    ),
    (
        "driver=[]\nplace=[{point='lamp',unit=1,coil=19}]",
        "plan bad-place 0\n",
        "a point whose driver is not in the plan",
    ),
    (
        "driver=[{name='field',host='127.0.0.1:1502'}]
place=[{point='ahu1.damper',unit=1,register=2,per=1000},{point='lamp',unit=1,coil=19}]",
        "plan no-place fan\n",
        "a point without a place",
    ),
];

fn expect_refused<R: Abort + Threads + Wait + Sync>(
    rt: &R,
    alloc: Global,
    shows: &str,
    plan: &str,
    line: &str,
) {
    let given = Given {
        words: WITH_PLAN,
        file: THREE_POINTS,
        plan,
        input: "",
        fails: NONE_FAILS,
    };
    let told = Told {
        output: line,
        calls: "",
        status: 17,
    };
    expect(rt, alloc, shows, &given, &told);
}

#[test]
fn a_plan_is_refused(rt: HostRuntime) {
    expect_each(&rt, rt.alloc(), REFUSED);
}

/// Each of these plans is refused so.
fn expect_each<R: Abort + Threads + Wait + Sync>(
    rt: &R,
    alloc: Global,
    rows: &[(&str, &str, &str)],
) {
    for (plan, line, shows) in rows {
        expect_refused(rt, alloc, shows, plan, line);
    }
}

/// A plan of comments, with 64 bytes more than it may have.
#[test]
fn a_plan_may_have_a_mebibyte(rt: HostRuntime) {
    let mut plan = String::new(rt.alloc());
    for _ in 0..16_385 {
        plan.push_str("##############################################################\n#")
            .expect(&rt, "memory");
    }
    let line = "plan too-long 1048640\n";
    expect_refused(&rt, rt.alloc(), "too long", plan.as_str(), line);
}

/// Where the host can't listen, nothing is done after the plan was accepted.
#[test]
fn a_plan_is_accepted(rt: HostRuntime) {
    let given = Given {
        words: WITH_PLAN,
        file: THREE_POINTS,
        plan: "driver=[{name='field',host='127.0.0.1:1502'}]
place=[{point='ahu1.damper',unit=1,register=2,per=1000},{point='lamp',unit=1,coil=19},{point='fan',unit=1,register=3}]",
        input: "",
        fails: Fails {
            host: 1,
            ..NONE_FAILS
        },
    };
    let told = Told {
        output: "",
        calls: "",
        status: 9,
    };
    expect(&rt, rt.alloc(), "a place for each point", &given, &told);
}

/// A plan that is not there ends the server as a file that failed, with the devices untouched.
#[test]
fn a_plan_has_to_be_there(rt: HostRuntime) {
    let given = Given {
        words: "serve site.toml - here 1 1 - other.toml",
        file: THREE_POINTS,
        plan: "",
        input: "",
        fails: NONE_FAILS,
    };
    let told = Told {
        output: "",
        calls: "",
        status: 5,
    };
    expect(&rt, rt.alloc(), "no such file", &given, &told);
}
