use boss_keys::{KeyFile, KeysRefusal, refusal_line};
use boss_model::Name;
use std::alloc::Global;
use std::process::Abort;

/// The key of `comfort`, and the one that it is to have next.
const COMFORT: &str = "bk1_K7gNU3sdo-OL0wNhqoVWhr3g6s1xYv72ol_pe_Unols";

const NEXT: &str = "bk1_n4bQgYhMfWWaL-qgxVrQFaO_TxsrC4Is0V1sFbDwCgg";

/// The key of each name that begins with `night-`.
const NIGHT: &str = "bk1_LPJNul-wow4m6DsqxbninhsWHlwfp0JecwQzYpOLmCQ";

/// The administrator's key, which is right for every name.
const ADMIN: &str = "bk1_jeXBXqDjrM7Tf9dvPB3nb1VLWXjJm6ZqZsqQ0TUzeJQ";

/// The digests, as `sha256sum` gives them: of each of the four keys.
const FOUR_KEYS: &str = "
[[key]]
process = 'comfort'
sha256 = 'efb0e199989fe29959dd341a9d72a0d99b0a9d91b23c8ff9ca613c659119a3d0'

[[key]]
process = 'comfort'
sha256 = '6972ddefdd30e6d7203ab63ec3e946b04a78d689094067dc3d2d3774c304321a'

[[key]]
process = 'night-*'
sha256 = '2714f93c67baa1024bfbf6b86a76683d6ab625d1e1872ce583cabc1aa846eb62'

[[key]]
process = '*'
sha256 = '042c84a611df870af00a202d901a09cd0029ec19a10a4a911055d789623ba681'
";

/// The first of the four alone.
const ONE_KEY: &str = "
[[key]]
process = 'comfort'
sha256 = 'efb0e199989fe29959dd341a9d72a0d99b0a9d91b23c8ff9ca613c659119a3d0'
";

/// Digests that are that of the first key but for the last digit, and but for the first one.
const NEAR: &str = "
[[key]]
process = 'comfort'
sha256 = 'efb0e199989fe29959dd341a9d72a0d99b0a9d91b23c8ff9ca613c659119a3d1'

[[key]]
process = 'comfort'
sha256 = '0fb0e199989fe29959dd341a9d72a0d99b0a9d91b23c8ff9ca613c659119a3d0'
";

/// The digests of texts of 31, 32, 128 and 129 characters, each for every name.
const BY_LENGTH: &str = "
[[key]]
process = '*'
sha256 = '9f719d64979a7fea54826a94064abb69e6e60ffc0a30f5d3582b68120d898499'

[[key]]
process = '*'
sha256 = '73337f479fe170d73e53e247f3052e4243cc9c2a0ffa621853d9385c619efb77'

[[key]]
process = '*'
sha256 = 'd4c0120f160b37ffc282ec6905f4515d5aea1d3bdaa55c4276480bca90b41051'

[[key]]
process = '*'
sha256 = '157d7e43f822d46cbe8b19205e0753115b50e00d7cead91d5a9808a4d51a927c'
";

const OF_31: &str = "0123456789abcdefghijklmnopqrstu";

const OF_32: &str = "0123456789abcdefghijklmnopqrstuv";

const OF_128: &str =
    "0123456789abcdefghijklmnopqrstuv0123456789abcdefghijklmnopqrstuv0123456789abcdefghijklmnopqrstuv0123456789abcdefghijklmnopqrstuv";

const OF_129: &str =
    "0123456789abcdefghijklmnopqrstuv0123456789abcdefghijklmnopqrstuv0123456789abcdefghijklmnopqrstuv0123456789abcdefghijklmnopqrstuvw";

/// The digests of texts that have another character than a key may have, and that of the text without one, which is what
/// `sha256sum` says of an empty file.
const NO_KEYS: &str = "
[[key]]
process = '*'
sha256 = '7d8314786b40f02db2048b9dd8b1954400ac9fac360429f8a29555226012f4e0'

[[key]]
process = '*'
sha256 = 'b17eb06b35d96b614b1af6d6daa95547b0f1ef03f86e39a90a57cd7c317bb857'

[[key]]
process = '*'
sha256 = 'f81aa6b835c4ecad6a66575ff4d3c325b9289bd1ec74b01b60980405fbfce730'

[[key]]
process = '*'
sha256 = 'fce77ce662d042fc9128312001652f70186f093887ed9afda0a9b35cdb046c9a'

[[key]]
process = '*'
sha256 = '34c5aaa205bff2e8d76d86c4858df4acb8e1e21463bae27e8ffb361865a07ae4'

[[key]]
process = '*'
sha256 = 'e3b0c44298fc1c149afbf4c8996fb92427ae41e4649b934ca495991b7852b855'
";

/// A file, a name, a key that is shown for it, and whether it is right.
const SHOWN: &[(&str, &str, &str, bool)] = &[
    (ONE_KEY, "comfort", COMFORT, true),
    (ONE_KEY, "comfort", NEXT, false),
    (ONE_KEY, "comfor", COMFORT, false),
    (ONE_KEY, "comforts", COMFORT, false),
    (ONE_KEY, "night-purge", COMFORT, false),
    ("key=[]", "comfort", COMFORT, false),
    (FOUR_KEYS, "comfort", COMFORT, true),
    (FOUR_KEYS, "comfort", NEXT, true),
    (FOUR_KEYS, "comfort", NIGHT, false),
    (FOUR_KEYS, "comfort", ADMIN, true),
    (FOUR_KEYS, "night-purge", COMFORT, false),
    (FOUR_KEYS, "night-purge", NIGHT, true),
    (FOUR_KEYS, "night-purge", ADMIN, true),
    (FOUR_KEYS, "night-", NIGHT, true),
    (FOUR_KEYS, "night", NIGHT, false),
    (FOUR_KEYS, "night", ADMIN, true),
    // Of another form of the key: a character less, one more, and one that is another.
    (
        ONE_KEY,
        "comfort",
        "bk1_K7gNU3sdo-OL0wNhqoVWhr3g6s1xYv72ol_pe_Unol",
        false,
    ),
    (
        ONE_KEY,
        "comfort",
        "bk1_K7gNU3sdo-OL0wNhqoVWhr3g6s1xYv72ol_pe_Unols_",
        false,
    ),
    (
        ONE_KEY,
        "comfort",
        "bk1_K7gNU3sdo-OL0wNhqoVWhr3g6s1xYv72ol_pe_Unolt",
        false,
    ),
    (
        ONE_KEY,
        "comfort",
        "BK1_k7Gnu3SDO-ol0WnHQOvwHR3G6S1XyV72OL_PE_uNOLS",
        false,
    ),
    // The digest is no key of itself.
    (
        ONE_KEY,
        "comfort",
        "efb0e199989fe29959dd341a9d72a0d99b0a9d91b23c8ff9ca613c659119a3d0",
        false,
    ),
    (NEAR, "comfort", COMFORT, false),
    (BY_LENGTH, "comfort", OF_31, false),
    (BY_LENGTH, "comfort", OF_32, true),
    (BY_LENGTH, "comfort", OF_128, true),
    (BY_LENGTH, "comfort", OF_129, false),
    (
        NO_KEYS,
        "comfort",
        "bk1_ 7gNU3sdo-OL0wNhqoVWhr3g6s1xYv72ol",
        false,
    ),
    (
        NO_KEYS,
        "comfort",
        "bk1_+7gNU3sdo/OL0wNhqoVWhr3g6s1xYv72ol==",
        false,
    ),
    (
        NO_KEYS,
        "comfort",
        "bk1_.7gNU3sdo-OL0wNhqoVWhr3g6s1xYv72ol",
        false,
    ),
    (
        NO_KEYS,
        "comfort",
        "bk1_\u{e4}gNU3sdo-OL0wNhqoVWhr3g6s1xYv72ol",
        false,
    ),
    (
        NO_KEYS,
        "comfort",
        "bk1_K7gNU3sdo-OL0wNhqoVWhr3g6s1xYv72ol\n",
        false,
    ),
    (NO_KEYS, "comfort", "", false),
];

#[test]
fn a_key_is_right_for_its_names(rt: HostRuntime) {
    let alloc = rt.alloc();
    for (file, name, key, wanted) in SHOWN {
        let keys = KeyFile::read(alloc, file.as_bytes())
            .expect(&rt, "keys")
            .keys;
        let process = Name::new(name.as_bytes()).expect(&rt, "a name");
        let right = keys.admits(&process, key.as_bytes());
        assert_eq!(&rt; right, *wanted, "{name} {key}");
    }
}

/// Files that are refused, for each test some, and the line that says why.
const REFUSED: &[(&str, &str)] = &[
    ("key=[", "keys not-toml\n"),
    ("key=[]\nkey=[]", "keys not-toml\n"),
    ("", "keys missing\n"),
    ("keys=[]", "keys missing\n"),
    ("key='*'", "keys missing\n"),
    (
        "[key]\nprocess='*'\nsha256='dddddddddddddddddddddddddddddddddddddddddddddddddddddddddddddddd'",
        "keys missing\n",
    ),
    // No table, a key that is missing, and one that is no text.
    ("key=[7]", "keys bad-key 1\n"),
    (
        "key=[[{process='*',sha256='dddddddddddddddddddddddddddddddddddddddddddddddddddddddddddddddd'}]]",
        "keys bad-key 1\n",
    ),
    (
        "key=[{process='*',sha256='dddddddddddddddddddddddddddddddddddddddddddddddddddddddddddddddd'},{process='*'}]",
        "keys bad-key 2\n",
    ),
    (
        "key=[{sha256='dddddddddddddddddddddddddddddddddddddddddddddddddddddddddddddddd'}]",
        "keys bad-key 1\n",
    ),
    (
        "key=[{process=7,sha256='dddddddddddddddddddddddddddddddddddddddddddddddddddddddddddddddd'}]",
        "keys bad-key 1\n",
    ),
    ("key=[{process='*',sha256=7}]", "keys bad-key 1\n"),
    ("key=[{}]", "keys bad-key 1\n"),
    // Neither a name nor the beginning of names.
    (
        "key=[{process='',sha256='dddddddddddddddddddddddddddddddddddddddddddddddddddddddddddddddd'}]",
        "keys bad-key 1\n",
    ),
    (
        "key=[{process='Night',sha256='dddddddddddddddddddddddddddddddddddddddddddddddddddddddddddddddd'}]",
        "keys bad-key 1\n",
    ),
    (
        "key=[{process='*.fan',sha256='dddddddddddddddddddddddddddddddddddddddddddddddddddddddddddddddd'}]",
        "keys bad-key 1\n",
    ),
    (
        "key=[{process='night-**',sha256='dddddddddddddddddddddddddddddddddddddddddddddddddddddddddddddddd'}]",
        "keys bad-key 1\n",
    ),
    (
        "key=[{process='night *',sha256='dddddddddddddddddddddddddddddddddddddddddddddddddddddddddddddddd'}]",
        "keys bad-key 1\n",
    ),
    (
        "key=[{process='xxxxxxxxxxxxxxxxxxxxxxxxxxxxxxxxxxxxxxxxxxxxxxxxxxxxxxxxxxxxxxxxx',sha256='dddddddddddddddddddddddddddddddddddddddddddddddddddddddddddddddd'}]",
        "keys bad-key 1\n",
    ),
    (
        "key=[{process='xxxxxxxxxxxxxxxxxxxxxxxxxxxxxxxxxxxxxxxxxxxxxxxxxxxxxxxxxxxxxxxx*',sha256='dddddddddddddddddddddddddddddddddddddddddddddddddddddddddddddddd'}]",
        "keys bad-key 1\n",
    ),
    // No digest: a digit less, one more, none, capitals, other letters, a blank in front, and a prefix.
    (
        "key=[{process='*',sha256='ddddddddddddddddddddddddddddddddddddddddddddddddddddddddddddddd'}]",
        "keys bad-key 1\n",
    ),
    (
        "key=[{process='*',sha256='ddddddddddddddddddddddddddddddddddddddddddddddddddddddddddddddddd'}]",
        "keys bad-key 1\n",
    ),
    ("key=[{process='*',sha256=''}]", "keys bad-key 1\n"),
    (
        "key=[{process='*',sha256='DDDDDDDDDDDDDDDDDDDDDDDDDDDDDDDDDDDDDDDDDDDDDDDDDDDDDDDDDDDDDDDD'}]",
        "keys bad-key 1\n",
    ),
    (
        "key=[{process='*',sha256='dddddddddddddddddddddddddddddddddddddddddddddddddddddddddddddddD'}]",
        "keys bad-key 1\n",
    ),
    (
        "key=[{process='*',sha256='dddddddddddddddddddddddddddddddddddddddddddddddddddddddddddddddg'}]",
        "keys bad-key 1\n",
    ),
    (
        "key=[{process='*',sha256='ddddddddddddddddddddddddddddddddddddddddddddddddddddddddddddddd`'}]",
        "keys bad-key 1\n",
    ),
    (
        "key=[{process='*',sha256='ddddddddddddddddddddddddddddddddddddddddddddddddddddddddddddddd/'}]",
        "keys bad-key 1\n",
    ),
    (
        "key=[{process='*',sha256='ddddddddddddddddddddddddddddddddddddddddddddddddddddddddddddddd:'}]",
        "keys bad-key 1\n",
    ),
    (
        "key=[{process='*',sha256=' ddddddddddddddddddddddddddddddddddddddddddddddddddddddddddddddd'}]",
        "keys bad-key 1\n",
    ),
    (
        "key=[{process='*',sha256='0xdddddddddddddddddddddddddddddddddddddddddddddddddddddddddddddd'}]",
        "keys bad-key 1\n",
    ),
    // A key that nothing reads.
    (
        "key=[{process='*',sha256='dddddddddddddddddddddddddddddddddddddddddddddddddddddddddddddddd',point='*'}]",
        "keys bad-key 1\n",
    ),
    (
        "key=[{process='*',sha256='dddddddddddddddddddddddddddddddddddddddddddddddddddddddddddddddd',name='comfort'}]",
        "keys bad-key 1\n",
    ),
    (
        "key=[{process='*',sha256='dddddddddddddddddddddddddddddddddddddddddddddddddddddddddddddddd',key='bk1_K7gNU3sdo-OL0wNhqoVWhr3g6s1xYv72ol_pe_Unols'}]",
        "keys bad-key 1\n",
    ),
    (
        "key=[{process='*',sha256='dddddddddddddddddddddddddddddddddddddddddddddddddddddddddddddddd',SHA256='dddddddddddddddddddddddddddddddddddddddddddddddddddddddddddddddd'}]",
        "keys bad-key 1\n",
    ),
    (
        "key=[{process='*',sha256='dddddddddddddddddddddddddddddddddddddddddddddddddddddddddddddddd',''=1}]",
        "keys bad-key 1\n",
    ),
    (
        "key=[{process='*',sha256='dddddddddddddddddddddddddddddddddddddddddddddddddddddddddddddddd',z={a=1}}]",
        "keys bad-key 1\n",
    ),
    (
        "key=[{a=1,process='*',sha256='dddddddddddddddddddddddddddddddddddddddddddddddddddddddddddddddd'}]",
        "keys bad-key 1\n",
    ),
    // The first of several.
    (
        "key=[{process='*',sha256='dddddddddddddddddddddddddddddddddddddddddddddddddddddddddddddddd'},{process='*',sha256='d'},{}]",
        "keys bad-key 2\n",
    ),
    (
        "key=[{process='*',sha256='dddddddddddddddddddddddddddddddddddddddddddddddddddddddddddddddd'},{process='*',note='all',sha256='dddddddddddddddddddddddddddddddddddddddddddddddddddddddddddddddd'},{}]",
        "keys bad-key 2\n",
    ),
];

/// Whether a file is refused, and this line says why.
fn is_refused(rt: &impl Abort, alloc: Global, file: &[u8], wanted: &str) -> bool {
    match KeyFile::read(alloc, file) {
        Ok(_keys) => false,
        Err(refusal) => line_of(rt, alloc, refusal).as_slice() == wanted.as_bytes(),
    }
}

fn line_of(rt: &impl Abort, alloc: Global, refusal: KeysRefusal) -> Vec<u8> {
    refusal_line(alloc, refusal).expect(rt, "memory")
}

#[test]
fn refuses_each_fault(rt: HostRuntime) {
    for (file, wanted) in REFUSED {
        let refused = is_refused(&rt, rt.alloc(), file.as_bytes(), wanted);
        assert!(rt; refused, "{file}");
    }
}

#[test]
fn refuses_bytes_that_are_no_text(rt: HostRuntime) {
    let file = b"key=[]\n# \xff";
    assert!(rt; is_refused(&rt, rt.alloc(), file, "keys not-toml\n"));
}

#[test]
fn refuses_a_byte_too_many(rt: HostRuntime) {
    let file = vec![in rt.alloc(); b'\n'; 1_048_577].expect(&rt, "memory");
    assert!(rt; is_refused(&rt, rt.alloc(), &file, "keys too-long 1048577\n"));
}

/// A file of so many entries: the same one, again and again, and at last that of `comfort`.
fn keys_of(rt: &impl Abort, alloc: Global, count: u32) -> String {
    let mut file = String::new(alloc);
    for _ in 1..count {
        file.push_str(
            "[[key]]\nprocess='*'\nsha256='dddddddddddddddddddddddddddddddddddddddddddddddddddddddddddddddd'\n",
        ).expect(rt, "memory");
    }
    file.push_str(ONE_KEY).expect(rt, "memory");
    file
}

#[test]
fn refuses_an_entry_too_many(rt: HostRuntime) {
    let file = keys_of(&rt, rt.alloc(), 513);
    assert!(rt; is_refused(&rt, rt.alloc(), file.as_bytes(), "keys too-many 513\n"));
}

#[test]
fn the_last_of_as_many_as_there_may_be_is_right(rt: HostRuntime) {
    let file = keys_of(&rt, rt.alloc(), 512);
    let keys = KeyFile::read(rt.alloc(), file.as_bytes())
        .expect(&rt, "keys")
        .keys;
    let comfort = Name::new(b"comfort").expect(&rt, "a name");
    assert!(rt; keys.admits(&comfort, COMFORT.as_bytes()));
    assert!(rt; !keys.admits(&comfort, NEXT.as_bytes()));
}

/// Files that are accepted: the bounds of each key, and at the top of the file a key that means nothing here.
const ACCEPTED: &[&str] = &[
    "key=[]",
    "title='x'\nkey=[{process='*',sha256='dddddddddddddddddddddddddddddddddddddddddddddddddddddddddddddddd'}]",
    "key=[{process='*',sha256='dddddddddddddddddddddddddddddddddddddddddddddddddddddddddddddddd'}]\n[more]\nnote='all'",
    "key=[{process='a-._0',sha256='0123456789abcdef0123456789abcdef0123456789abcdef0123456789abcdef'}]",
    "key=[{process='xxxxxxxxxxxxxxxxxxxxxxxxxxxxxxxxxxxxxxxxxxxxxxxxxxxxxxxxxxxxxxxx',sha256='dddddddddddddddddddddddddddddddddddddddddddddddddddddddddddddddd'}]",
    "key=[{process='xxxxxxxxxxxxxxxxxxxxxxxxxxxxxxxxxxxxxxxxxxxxxxxxxxxxxxxxxxxxxxx*',sha256='dddddddddddddddddddddddddddddddddddddddddddddddddddddddddddddddd'}]",
    "key=[{process='*',sha256='dddddddddddddddddddddddddddddddddddddddddddddddddddddddddddddddd'},{process='*',sha256='dddddddddddddddddddddddddddddddddddddddddddddddddddddddddddddddd'}]",
];

#[test]
fn accepts_the_bounds(rt: HostRuntime) {
    for file in ACCEPTED {
        assert!(rt;
            KeyFile::read(rt.alloc(), file.as_bytes()).is_ok(),
            "{file}"
        );
    }
}

/// How many workers files keep: none where they tell no number, and each bound.
const RESERVES: &[(&str, u32)] = &[
    ("key=[]", 0),
    ("reserve=0\nkey=[]", 0),
    ("reserve=4\nkey=[]", 4),
    (
        "reserve = 4 # of 16\n\n[[key]]\nprocess='*'\nsha256='dddddddddddddddddddddddddddddddddddddddddddddddddddddddddddddddd'\n",
        4,
    ),
    ("key=[]\nreserve=+1_024", 1024),
    ("reserve=1024\nkey=[]", 1024),
    ("key=[]\n[more]\nreserve=4", 0),
];

#[test]
fn tells_how_many_workers_are_kept(rt: HostRuntime) {
    for (file, wanted) in RESERVES {
        let reserve = KeyFile::read(rt.alloc(), file.as_bytes())
            .expect(&rt, "keys")
            .reserve;
        assert_eq!(&rt; reserve, *wanted, "{file}");
    }
}

/// Files whose `reserve` is refused, or stands in the table of a key, or behind another fault.
const RESERVES_REFUSED: &[(&str, &str)] = &[
    ("reserve=1025\nkey=[]", "keys bad-reserve\n"),
    ("reserve=4294967296\nkey=[]", "keys bad-reserve\n"),
    ("reserve=-1\nkey=[]", "keys bad-reserve\n"),
    ("reserve='4'\nkey=[]", "keys bad-reserve\n"),
    ("reserve=4.0\nkey=[]", "keys bad-reserve\n"),
    ("reserve=true\nkey=[]", "keys bad-reserve\n"),
    ("reserve=[4]\nkey=[]", "keys bad-reserve\n"),
    ("key=[]\n[reserve]\nworkers=4", "keys bad-reserve\n"),
    (
        "[[key]]\nprocess='*'\nsha256='dddddddddddddddddddddddddddddddddddddddddddddddddddddddddddddddd'\nreserve=4",
        "keys bad-key 1\n",
    ),
    ("reserve=-1\nkey=[{}]", "keys bad-key 1\n"),
    ("reserve=-1", "keys missing\n"),
];

#[test]
fn refuses_each_faulty_reserve(rt: HostRuntime) {
    for (file, wanted) in RESERVES_REFUSED {
        let refused = is_refused(&rt, rt.alloc(), file.as_bytes(), wanted);
        assert!(rt; refused, "{file}");
    }
}

/// What is shown of a refusal.
const SAID: &[(KeysRefusal, &str)] = &[
    (
        KeysRefusal::TooLong { length: 1_048_577 },
        "the file of keys has 1048577 bytes, more than 1048576",
    ),
    (KeysRefusal::NotToml, "the file of keys is no TOML"),
    (
        KeysRefusal::Missing,
        "the file of keys has no array under the key key",
    ),
    (
        KeysRefusal::TooMany { count: 513 },
        "there are 513 keys, more than 512",
    ),
    (
        KeysRefusal::BadKey { place: 2 },
        "the key 2 is none: its process or sha256 is of another form, or it has another key",
    ),
    (
        KeysRefusal::BadReserve,
        "reserve is no whole number from 0 to 1024",
    ),
    (KeysRefusal::NoMemory, "out of memory"),
];

#[test]
fn shows_why_keys_are_refused(rt: HostRuntime) {
    for (refusal, wanted) in SAID {
        let shown = format!(in rt.alloc(); "{refusal}").expect(&rt, "memory");
        assert_eq!(&rt; shown.as_str(), *wanted);
    }
}
