use boss_words::{WordsRefusal, read_words};
use std::alloc::Global;
use std::process::Abort;

/// Words with bars between them, and the job that they ask for: a row of each kind with the bounds of its numbers, where no
/// word is an option, and lists of words that are in no row.
const ROWS: &[(&str, &str)] = &[
    (
        "script|--help|-",
        r#"Ok(Script { catalogue: Word { text: "--help" }, journal: Word { text: "-" } })"#,
    ),
    (
        "serve|k.toml|j|[::1]:80|0000001024|4294967295",
        r#"Ok(Serve { catalogue: Word { text: "k.toml" }, journal: Word { text: "j" }, address: Word { text: "[::1]:80" }, workers: 1024, connections: 4294967295, rules: None, plan: None, keys: None })"#,
    ),
    (
        "serve|k|j|a|1|2|-",
        r#"Ok(Serve { catalogue: Word { text: "k" }, journal: Word { text: "j" }, address: Word { text: "a" }, workers: 1, connections: 2, rules: None, plan: None, keys: None })"#,
    ),
    (
        "serve|k|-|a|1|2|-|-",
        r#"Ok(Serve { catalogue: Word { text: "k" }, journal: Word { text: "-" }, address: Word { text: "a" }, workers: 1, connections: 2, rules: None, plan: None, keys: None })"#,
    ),
    (
        "serve|k|-|a|1|2|-|plan.toml",
        r#"Ok(Serve { catalogue: Word { text: "k" }, journal: Word { text: "-" }, address: Word { text: "a" }, workers: 1, connections: 2, rules: None, plan: Some(Word { text: "plan.toml" }), keys: None })"#,
    ),
    (
        "serve|k|-|a|1|2|rules.toml",
        r#"Ok(Serve { catalogue: Word { text: "k" }, journal: Word { text: "-" }, address: Word { text: "a" }, workers: 1, connections: 2, rules: Some(Word { text: "rules.toml" }), plan: None, keys: None })"#,
    ),
    (
        "serve|k|-|a|1|2|rules.toml|plan.toml",
        r#"Ok(Serve { catalogue: Word { text: "k" }, journal: Word { text: "-" }, address: Word { text: "a" }, workers: 1, connections: 2, rules: Some(Word { text: "rules.toml" }), plan: Some(Word { text: "plan.toml" }), keys: None })"#,
    ),
    (
        "serve|k|-|a|1|2|-|-|keys.toml",
        r#"Ok(Serve { catalogue: Word { text: "k" }, journal: Word { text: "-" }, address: Word { text: "a" }, workers: 1, connections: 2, rules: None, plan: None, keys: Some(Word { text: "keys.toml" }) })"#,
    ),
    (
        "check|k.toml|j",
        r#"Ok(Check { catalogue: Word { text: "k.toml" }, journal: Word { text: "j" } })"#,
    ),
    (
        "adopt|old.toml|new.toml|j",
        r#"Ok(Adopt { old: Word { text: "old.toml" }, new: Word { text: "new.toml" }, journal: Word { text: "j" } })"#,
    ),
    (
        "shift|k.toml|j|4611686018427387903",
        r#"Ok(Shift { catalogue: Word { text: "k.toml" }, journal: Word { text: "j" }, by: 4611686018427387903 })"#,
    ),
    (
        "feed|k.toml|j|0",
        r#"Ok(Feed { catalogue: Word { text: "k.toml" }, journal: Word { text: "j" }, from: 0 })"#,
    ),
    (
        "feed|k|-|4611686018427387903",
        r#"Ok(Feed { catalogue: Word { text: "k" }, journal: Word { text: "-" }, from: 4611686018427387903 })"#,
    ),
    (
        "feed|k|j|0000000000000000007",
        r#"Ok(Feed { catalogue: Word { text: "k" }, journal: Word { text: "j" }, from: 7 })"#,
    ),
    (
        "standby|k.toml|j",
        r#"Ok(Standby { catalogue: Word { text: "k.toml" }, journal: Word { text: "j" } })"#,
    ),
    ("load|10000|0", "Ok(Load { count: 10000, seed: 0 })"),
    ("help", "Ok(Help)"),
    ("--help", "Ok(Help)"),
    ("version", "Ok(Version)"),
    ("--version", "Ok(Version)"),
    ("", USAGE),
    ("frob", USAGE),
    ("help|x", USAGE),
    ("--version|x", USAGE),
    ("-help", USAGE),
    ("Script|k|j", USAGE),
    ("script", USAGE),
    ("script|k", USAGE),
    ("script|k|j|x", USAGE),
    ("script||j", USAGE),
    ("script|k|", USAGE),
    ("check|k", USAGE),
    ("check|k|j|x", USAGE),
    ("check|k|", USAGE),
    ("adopt|old.toml|j", USAGE),
    ("adopt|old.toml|new.toml|", USAGE),
    ("shift|k|j", USAGE),
    ("shift|k|j|0", USAGE),
    ("shift|k|j|-1", USAGE),
    ("shift|k|j|4611686018427387904", USAGE),
    ("shift|k|j|1|x", USAGE),
    ("feed|k|j", USAGE),
    ("feed|k|j|0|x", USAGE),
    ("feed||j|0", USAGE),
    ("feed|k||0", USAGE),
    ("feed|k|j|", USAGE),
    ("feed|k|j|4611686018427387904", USAGE),
    ("feed|k|j|9999999999999999999", USAGE),
    ("feed|k|j|00000000000000000000", USAGE),
    ("feed|k|j|+1", USAGE),
    ("standby|k", USAGE),
    ("standby|k|", USAGE),
    ("standby|k|j|0", USAGE),
    ("serve|k|j|a|1", USAGE),
    ("serve|k|j|a|1|1|", USAGE),
    ("serve|k|j|a|1|1||plan.toml", USAGE),
    ("serve|k|j|a|1|1|-|", USAGE),
    ("serve|k|j|a|1|1|-|-|", USAGE),
    ("serve|k|j|a|1|1|-|-|-|-", USAGE),
    ("serve|k|j||1|1", USAGE),
    ("serve|k|j|a|0|1", USAGE),
    ("serve|k|j|a|1025|1", USAGE),
    ("serve|k|j|a|+1|1", USAGE),
    ("serve|k|j|a|1|0", USAGE),
    ("serve|k|j|a|1|4294967296", USAGE),
    ("serve|k|j|a|1|00000000001", USAGE),
    ("load|1", USAGE),
    ("load|0|1", USAGE),
    ("load|10001|1", USAGE),
    ("load|1|-0", USAGE),
    ("load|1| 1", USAGE),
    ("load|1|", USAGE),
    ("load|1|9999999999", USAGE),
];

const USAGE: &str = "Err(Usage)";

#[test]
fn words_ask_for_their_job(rt: HostRuntime) {
    expect_jobs(&rt, rt.alloc(), ROWS);
    assert!(&rt; is_refused(rt.alloc(), &Vec::new(rt.alloc())));
}

fn expect_jobs(rt: &impl Abort, alloc: Global, rows: &[(&str, &str)]) {
    for row in rows {
        expect_job(rt, alloc, row.0, row.1);
    }
}

/// Compares the job that words ask for.
fn expect_job(rt: &impl Abort, alloc: Global, text: &str, job: &str) {
    let mut words = Vec::new(alloc);
    put_words(rt, alloc, text, &mut words);
    let read = read(rt, alloc, &words);
    assert!(rt; read.as_str() == job, "{text}");
}

fn read(rt: &impl Abort, alloc: Global, words: &Vec<String>) -> String {
    format!(in alloc; "{:?}", read_words(alloc, words)).expect(rt, "memory")
}

fn is_refused(alloc: Global, words: &Vec<String>) -> bool {
    matches!(read_words(alloc, words), Err(WordsRefusal::Usage))
}

fn put_words(rt: &impl Abort, alloc: Global, text: &str, words: &mut Vec<String>) {
    for word in text.split('|') {
        put_word(rt, alloc, word, words);
    }
}

fn put_word(rt: &impl Abort, alloc: Global, word: &str, words: &mut Vec<String>) {
    let word = String::from_str(alloc, word).expect(rt, "memory");
    words.push(word).expect(rt, "memory");
}
