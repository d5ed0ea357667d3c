ghost use Rattle.std.specs.Prelude.{◌≡◌};

use boss_access::{Rules, RulesRefusal, refusal_line};
use boss_model::{Items, Name, PointId, Setting};
use boss_points::Catalogue;
use std::alloc::Global;
use std::process::Abort;

/// A damper, a lamp and a fan with three speeds.
const THREE_POINTS: &str = "drivers = ['field']
point = [
    {name = 'ahu1.damper', driver = 'field', kind = 'analog', min = 0, max = 100000, default = 20000},
    {name = 'lamp', driver = 'field', kind = 'binary', default = 0},
    {name = 'fan', driver = 'field', kind = 'multi', states = 3, default = 1},
]";

/// A process that may write the air handler's points from level 8 down, and nobody anything else.
const TWO_RULES: &str = "
[[rule]]
process = 'a'
point = 'ahu1.*'
highest = 8

[[rule]]
process = '*'
point = '*'
allow = false
";

/// The first of the two alone.
const ONE_RULE: &str = "rule = [{process = 'a', point = 'ahu1.*', highest = 8}]";

/// Rules for which a name, the whole of one, and its beginning come one after another.
const THREE_RULES: &str = "
[[rule]]
process = 'night'
point = 'fan'
highest = 13

[[rule]]
process = 'night-*'
point = 'f*'
allow = true

[[rule]]
process = 'night*'
point = 'fan'
allow = false
";

/// The points of the catalogue, by their places.
const DAMPER: u32 = 0;

const LAMP: u32 = 1;

const FAN: u32 = 2;

/// A point and a level.
type At = (u32, i64);

/// Rules, a process, where two writes of it are, and the first that is denied, with its rule.
const ASKED: &[(&str, &str, At, At, Option<(u32, u32)>)] = &[
    (TWO_RULES, "a", (DAMPER, 8), (DAMPER, 16), None),
    (TWO_RULES, "a", (DAMPER, 7), (DAMPER, 8), Some((0, 1))),
    (TWO_RULES, "a", (DAMPER, 8), (DAMPER, 7), Some((1, 1))),
    (TWO_RULES, "a", (DAMPER, 8), (LAMP, 8), Some((1, 2))),
    (TWO_RULES, "a", (LAMP, 16), (DAMPER, 1), Some((0, 2))),
    (TWO_RULES, "ab", (DAMPER, 8), (DAMPER, 8), Some((0, 2))),
    (ONE_RULE, "a", (DAMPER, 8), (LAMP, 8), Some((1, 0))),
    (ONE_RULE, "b", (DAMPER, 8), (LAMP, 8), Some((0, 0))),
    ("rule = []", "a", (DAMPER, 8), (LAMP, 8), Some((0, 0))),
    (THREE_RULES, "night", (FAN, 13), (FAN, 12), Some((1, 1))),
    (THREE_RULES, "night-purge", (FAN, 1), (FAN, 16), None),
    (THREE_RULES, "nights", (FAN, 16), (FAN, 16), Some((0, 3))),
    (THREE_RULES, "nigh", (FAN, 16), (FAN, 16), Some((0, 0))),
];

/// A write of this point at this level.
fn write_at(alloc: Global, point: PointId, priority: i64) -> Setting
    ensures { result.point ≡ point }
{
    Setting {
        point,
        value: 1,
        priority,
        lease: 60_000,
        revert: Items::new(alloc),
    }
}

/// What the rules deny of two writes of a process, of points of the catalogue.
fn denied_of(
    alloc: Global,
    catalogue: &Catalogue,
    rules: &Rules,
    process: &Name,
    first: At,
    second: At,
) -> Option<(u32, u32)> {
    if first.0 >= catalogue.count() || second.0 >= catalogue.count() {
        return None;
    }
    let writes = [
        write_at(alloc, PointId(first.0), first.1),
        write_at(alloc, PointId(second.0), second.1),
    ];
    rules.first_denied(catalogue, process, &writes)
}

#[test]
fn the_first_rule_for_a_write_decides(rt: HostRuntime) {
    let alloc = rt.alloc();
    let catalogue = Catalogue::read(alloc, THREE_POINTS.as_bytes()).expect(&rt, "three points");
    for (file, process, first, second, wanted) in ASKED {
        let rules = Rules::read(alloc, file.as_bytes()).expect(&rt, "rules");
        let process = Name::new(process.as_bytes()).expect(&rt, "a name");
        let denied = denied_of(alloc, &catalogue, &rules, &process, *first, *second);
        assert_eq!(&rt; denied, *wanted, "{process} {first:?} {second:?}");
    }
}

/// Rules, a name, and whether it is admitted.
const NAMES: &[(&str, &str, bool)] = &[
    (TWO_RULES, "a", true),
    // A rule that allows nothing admits its names.
    (TWO_RULES, "ab", true),
    (ONE_RULE, "a", true),
    (ONE_RULE, "ab", false),
    (ONE_RULE, "ahu1.damper", false),
    ("rule = []", "a", false),
    (THREE_RULES, "night", true),
    (THREE_RULES, "night-purge", true),
    // The last rule alone is for it.
    (THREE_RULES, "nights", true),
    (THREE_RULES, "nigh", false),
];

#[test]
fn a_name_is_admitted_by_any_rule_for_it(rt: HostRuntime) {
    for (file, name, wanted) in NAMES {
        let rules = Rules::read(rt.alloc(), file.as_bytes()).expect(&rt, "rules");
        let process = Name::new(name.as_bytes()).expect(&rt, "a name");
        assert_eq!(&rt; rules.admits(&process), *wanted, "{name}");
    }
}

/// Files that are refused, for each test some, and the line that says why.
const REFUSED: &[(&str, &str)] = &[
    ("rule=[", "rules not-toml\n"),
    ("rule=[]\nrule=[]", "rules not-toml\n"),
    ("", "rules missing\n"),
    ("rules=[]", "rules missing\n"),
    ("rule='*'", "rules missing\n"),
    ("[rule]\nprocess='*'\npoint='*'", "rules missing\n"),
    // No table, a key that is missing, and one that is no text.
    ("rule=[7]", "rules bad-rule 1\n"),
    (
        "rule=[{process='*',point='*'},{point='*'}]",
        "rules bad-rule 2\n",
    ),
    ("rule=[{process='*'}]", "rules bad-rule 1\n"),
    ("rule=[{process=7,point='*'}]", "rules bad-rule 1\n"),
    // Neither a name nor the beginning of names.
    ("rule=[{process='',point='*'}]", "rules bad-rule 1\n"),
    ("rule=[{process='Night',point='*'}]", "rules bad-rule 1\n"),
    ("rule=[{process='*',point='*.fan'}]", "rules bad-rule 1\n"),
    ("rule=[{process='*',point='air.**'}]", "rules bad-rule 1\n"),
    ("rule=[{process='*',point='air *'}]", "rules bad-rule 1\n"),
    (
        "rule=[{process='*',point='xxxxxxxxxxxxxxxxxxxxxxxxxxxxxxxxxxxxxxxxxxxxxxxxxxxxxxxxxxxxxxxxx'}]",
        "rules bad-rule 1\n",
    ),
    (
        "rule=[{process='*',point='xxxxxxxxxxxxxxxxxxxxxxxxxxxxxxxxxxxxxxxxxxxxxxxxxxxxxxxxxxxxxxxx*'}]",
        "rules bad-rule 1\n",
    ),
    // No level, and neither true nor false.
    (
        "rule=[{process='*',point='*',highest=0}]",
        "rules bad-rule 1\n",
    ),
    (
        "rule=[{process='*',point='*',highest=17}]",
        "rules bad-rule 1\n",
    ),
    (
        "rule=[{process='*',point='*',highest=-1}]",
        "rules bad-rule 1\n",
    ),
    (
        "rule=[{process='*',point='*',highest=8.0}]",
        "rules bad-rule 1\n",
    ),
    (
        "rule=[{process='*',point='*',highest='8'}]",
        "rules bad-rule 1\n",
    ),
    (
        "rule=[{process='*',point='*',allow=0}]",
        "rules bad-rule 1\n",
    ),
    (
        "rule=[{process='*',point='*',allow='false'}]",
        "rules bad-rule 1\n",
    ),
    // A key that nothing reads: one that is spelled otherwise, in capitals, longer, quoted with a space, or empty.
    (
        "rule=[{process='*',point='*',alow=false}]",
        "rules bad-rule 1\n",
    ),
    (
        "rule=[{process='*',point='*',Allow=false}]",
        "rules bad-rule 1\n",
    ),
    (
        "rule=[{process='*',point='*',allows=false}]",
        "rules bad-rule 1\n",
    ),
    (
        "rule=[{process='*',point='*','allow '=false}]",
        "rules bad-rule 1\n",
    ),
    ("rule=[{process='*',point='*',''=1}]", "rules bad-rule 1\n"),
    (
        "rule=[{process='*',point='*',highest=1,allow=true,note='everybody'}]",
        "rules bad-rule 1\n",
    ),
    // It stands before the others, behind them, and is a table of its own.
    ("rule=[{a=1,process='*',point='*'}]", "rules bad-rule 1\n"),
    (
        "rule=[{process='*',point='*',z={process='*'}}]",
        "rules bad-rule 1\n",
    ),
    // The first of several.
    (
        "rule=[{process='*',point='*'},{process='*',point='*',highest=17},{point='*'}]",
        "rules bad-rule 2\n",
    ),
    (
        "rule=[{process='*',point='*'},{process='*',point='*',to='*'},{point='*'}]",
        "rules bad-rule 2\n",
    ),
];

/// Whether a file is refused, and this line says why.
fn is_refused(rt: &impl Abort, alloc: Global, file: &[u8], wanted: &str) -> bool {
    match Rules::read(alloc, file) {
        Ok(_rules) => false,
        Err(refusal) => line_of(rt, alloc, refusal).as_slice() == wanted.as_bytes(),
    }
}

fn line_of(rt: &impl Abort, alloc: Global, refusal: RulesRefusal) -> Vec<u8> {
    refusal_line(alloc, refusal).expect(rt, "memory")
}

#[test]
fn refuses_each_fault(rt: HostRuntime) {
    for (file, wanted) in REFUSED {
        let refused = is_refused(&rt, rt.alloc(), file.as_bytes(), wanted);
        assert!(rt; refused, "{file}");
    }
}

#[test]
fn refuses_bytes_that_are_no_text(rt: HostRuntime) {
    let file = b"rule=[{process='\xff',point='*'}]";
    assert!(rt; is_refused(&rt, rt.alloc(), file, "rules not-toml\n"));
}

#[test]
fn refuses_a_byte_too_many(rt: HostRuntime) {
    let file = vec![in rt.alloc(); b'\n'; 1_048_577].expect(&rt, "memory");
    assert!(rt; is_refused(&rt, rt.alloc(), &file, "rules too-long 1048577\n"));
}

/// A file of so many rules.
fn rules_of(rt: &impl Abort, alloc: Global, count: u32) -> String {
    let mut file = String::from_str(alloc, "rule=[").expect(rt, "memory");
    for _ in 0..count {
        file.push_str("{process='*',point='*'},")
            .expect(rt, "memory");
    }
    file.push(']').expect(rt, "memory");
    file
}

#[test]
fn refuses_a_rule_too_many(rt: HostRuntime) {
    let file = rules_of(&rt, rt.alloc(), 257);
    assert!(rt; is_refused(&rt, rt.alloc(), file.as_bytes(), "rules too-many 257\n"));
}

/// Files that are accepted: the bounds of each key, and at the top of the file a key that means nothing here.
const ACCEPTED: &[&str] = &[
    "rule=[]",
    "title='x'\nrule=[{process='*',point='*'}]",
    "rule=[{process='*',point='*'}]\n[more]\nnote='everybody'",
    "rule=[{process='*',point='*',highest=1},{process='*',point='*',highest=16,allow=true}]",
    "rule=[{process='a-._0',point='xxxxxxxxxxxxxxxxxxxxxxxxxxxxxxxxxxxxxxxxxxxxxxxxxxxxxxxxxxxxxxxx'}]",
    "rule=[{process='-*',point='xxxxxxxxxxxxxxxxxxxxxxxxxxxxxxxxxxxxxxxxxxxxxxxxxxxxxxxxxxxxxxx*'}]",
];

#[test]
fn accepts_the_bounds(rt: HostRuntime) {
    for file in ACCEPTED {
        assert!(rt; Rules::read(rt.alloc(), file.as_bytes()).is_ok(), "{file}");
    }
    let most = rules_of(&rt, rt.alloc(), 256);
    assert!(rt; Rules::read(rt.alloc(), most.as_bytes()).is_ok());
}

/// What is shown of a refusal.
const SHOWN: &[(RulesRefusal, &str)] = &[
    (
        RulesRefusal::TooLong { length: 1_048_577 },
        "the access rules have 1048577 bytes, more than 1048576",
    ),
    (RulesRefusal::NotToml, "the access rules are no TOML"),
    (
        RulesRefusal::Missing,
        "the access rules have no array under the key rule",
    ),
    (
        RulesRefusal::TooMany { count: 257 },
        "there are 257 access rules, more than 256",
    ),
    (
        RulesRefusal::BadRule { place: 2 },
        "the access rule 2 is none: its process, point, highest or allow is of another form, or it has another key",
    ),
    (RulesRefusal::NoMemory, "out of memory"),
];

#[test]
fn shows_why_rules_are_refused(rt: HostRuntime) {
    for (refusal, wanted) in SHOWN {
        let shown = format!(in rt.alloc(); "{refusal}").expect(&rt, "memory");
        assert_eq!(&rt; shown.as_str(), *wanted);
    }
}
