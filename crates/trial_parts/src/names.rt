use boss_model::{Buffer, Items, Name};

/// Texts, and whether they are names: the bounds of their length, all kinds of characters, and some that are none.
const TEXTS: &[(&str, bool)] = &[
    ("a", true),
    ("ahu1.damper_2-b", true),
    (
        "xxxxxxxxxxxxxxxxxxxxxxxxxxxxxxxxxxxxxxxxxxxxxxxxxxxxxxxxxxxxxxxx",
        true,
    ),
    (
        "xxxxxxxxxxxxxxxxxxxxxxxxxxxxxxxxxxxxxxxxxxxxxxxxxxxxxxxxxxxxxxxxx",
        false,
    ),
    ("", false),
    ("Lamp", false),
    ("fan 1", false),
    ("fan\n", false),
];

/// 0 where a text is no name, 1 where it is one that has its bytes, and 2 where it is one that has others.
fn named(text: &[u8]) -> u8 {
    match Name::new(text) {
        None => 0,
        Some(name) => spelled(&name, text),
    }
}

/// 1 where a name and its copy have these bytes, and else 2.
fn spelled(name: &Name, text: &[u8]) -> u8 {
    if has_bytes(name, text) && has_bytes(&name.copied(), text) {
        1
    } else {
        2
    }
}

fn has_bytes(name: &Name, text: &[u8]) -> bool {
    name.bytes() == text
}

#[test]
fn a_name_is_its_bytes(rt: HostRuntime) {
    for text in TEXTS {
        let is_named = named(text.0.as_bytes()) == u8::from(text.1);
        assert!(rt; is_named, "{}", text.0);
    }
}

/// Whether a buffer has these bytes.
fn has(buffer: &Buffer, bytes: &[u8]) -> bool {
    buffer.bytes() == bytes
}

#[test]
fn a_buffer_and_a_list_take_what_they_are_given(rt: HostRuntime) {
    let mut buffer = Buffer::new(rt.alloc(), 2).expect(&rt, "memory");
    buffer.push(b'o');
    buffer.push(b'k');
    let pushed = has(&buffer, b"ok");
    buffer.clear();
    let cleared = has(&buffer, b"");
    buffer.extend(b"no");
    assert!(&rt; pushed && cleared && has(&buffer, b"no"));
}

#[test]
fn a_list_takes_what_it_is_given(rt: HostRuntime) {
    let mut items = Items::new(rt.alloc());
    let pushed = items.try_push(7u8).is_ok() && items.slice() == [7].as_slice();
    let taken = items.into_vec();
    assert!(&rt; pushed && taken.as_slice() == [7].as_slice());
}
