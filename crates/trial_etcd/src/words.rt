use boss_places::{is_place, read_place};
use std::alloc::Global;
use std::process::Abort;
use std::test::Fail;

/// The members of a word and its key, with a space between each, where it means a place.
fn place_of(rt: &impl Abort, alloc: Global, word: &str) -> Option<String> {
    let place = read_place(alloc, word.as_bytes()).expect(rt, "memory")?;
    let key = place.key(alloc).expect(rt, "memory");
    let mut text = String::new(alloc);
    for member in place.members.slice() {
        text.push_str(str::from_utf8(member.slice()).expect(rt, "a text"))
            .expect(rt, "memory");
        text.push_str(" ").expect(rt, "memory");
    }
    text.push_str(str::from_utf8(key.slice()).expect(rt, "a text"))
        .expect(rt, "memory");
    Some(text)
}

#[test]
fn words_mean_places(rt: HostRuntime) -> Result<(), Fail> {
    let rows = [
        ("etcd:127.0.0.1:2379/plant", "127.0.0.1:2379 plant/a"),
        (
            "etcd:a:1,[::1]:65535/A.b-c_9.b",
            "a:1 [::1]:65535 A.b-c_9/b",
        ),
        (
            "etcd:a:1,b:2,c:3,d:4,e:5,f:6,g:7,h:8,i:9/x",
            "a:1 b:2 c:3 d:4 e:5 f:6 g:7 h:8 i:9 x/a",
        ),
    ];
    for (word, place) in rows {
        let found = place_of(&rt, rt.alloc(), word).expect(&rt, word);
        assert_eq!(&rt; found.as_str(), place);
    }
    Ok(())
}

#[test]
fn other_words_mean_none(rt: HostRuntime) -> Result<(), Fail> {
    let rows = [
        "etcd:",
        "etcd:a:1",
        "etcd:a:1/",
        "etcd:/x",
        "etcd:a/x",
        "etcd:a:/x",
        "etcd::1/x",
        "etcd:a:0/x",
        "etcd:a:01/x",
        "etcd:a:65536/x",
        "etcd:a:1,/x",
        "etcd:a:1;b:2/x",
        "etcd:::1:2/x",
        "etcd:[]:1/x",
        "etcd:[::1]1/x",
        "etcd:http://a:1/x",
        "etcd:a:1/x/y",
        "etcd:a:1/x y",
        "etcd:a:1/.b",
        "etcd:a:1/x.b.b",
        "etcd:a:1,b:2,c:3,d:4,e:5,f:6,g:7,h:8,i:9,j:10/x",
    ];
    for word in rows {
        assert!(&rt; is_place(word.as_bytes()));
        assert!(&rt; place_of(&rt, rt.alloc(), word).is_none());
    }
    assert!(&rt; !is_place(b"./etcd:a:1/x"));
    Ok(())
}
