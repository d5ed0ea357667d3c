ghost use Rattle.std.specs.Prelude.{◌≡◌, Some};
ghost use Rattle.boss_model.specs.Effects.{event_of};

use boss_model::{Act, Buffer, Command, Effect, Event, ProcId};
use boss_records::read_event;
use boss_writing::{put_event, write_event};
use std::alloc::Global;
use std::test::Fail;

/// A step that makes this event.
fn step_of(event: Event) -> (Command, Effect)
    ensures { event_of result.0 result.1 ≡ Some event }
{
    let Event { moment, act } = event;
    match act {
        Act::Enrol { name } => (
            Command::Attach { name },
            Effect::Whole {
                moment,
                owner: ProcId(0),
            },
        ),
        Act::Submit {
            owner,
            policy,
            writes,
            seq,
        } => (
            Command::Submit {
                writes,
                policy,
                seq,
            },
            Effect::Whole { moment, owner },
        ),
        Act::Renew {
            owner,
            txn,
            length,
            points,
            seq,
        } => (
            Command::Renew {
                txn,
                length,
                points,
                seq,
            },
            Effect::Whole { moment, owner },
        ),
        Act::Cancel { owner, txn, seq } => (
            Command::Cancel { txn, seq },
            Effect::Whole { moment, owner },
        ),
        Act::Gone { owner } => (Command::Gone, Effect::Whole { moment, owner }),
        Act::Tick => (Command::Tick, Effect::Tick { moment }),
        Act::Fault { point } => (
            Command::Report {
                point,
                version: 1,
                ok: false,
            },
            Effect::Whole {
                moment,
                owner: ProcId(0),
            },
        ),
    }
}

/// The event as a text.
fn told(alloc: Global, event: &Event) -> Result<String, Fail> {
    match &event.act {
        Act::Enrol { name } => Ok(format!(in alloc; "{} enrol {name}", event.moment)?),
        act => Ok(format!(in alloc; "{} {act:?}", event.moment)?),
    }
}

/// The bytes spell this event and no more, and the event is written with these bytes, at hand or as what a step made.
fn spell(alloc: Global, bytes: &[u8], text: &str) -> Result<(), Fail> {
    let Some((event, used)) = read_event(alloc, bytes)? else {
        return Err("no event".into());
    };
    if used != bytes.len() || told(alloc, &event)?.as_str() != text {
        return Err("another event".into());
    }
    let mut alone = Buffer::new(alloc, 4_096)?;
    put_event(&mut alone, &event);
    let mut record = Buffer::new(alloc, 4_096)?;
    let (command, effect) = step_of(event);
    write_event(&mut record, &command, &effect);
    if alone.bytes() != bytes || record.bytes() != bytes {
        return Err("other bytes".into());
    }
    Ok(())
}

/// The bytes begin with no event.
fn are_none(alloc: Global, bytes: &[u8]) -> Result<bool, Fail> {
    Ok(read_event(alloc, bytes)?.is_none())
}

#[test]
fn each_kind_has_its_bytes(rt: HostRuntime) -> Result<(), Fail> {
    let alloc = rt.alloc();
    spell(alloc, b"\x01\0\0\0\0\0\0\0\0\x01a", "0 enrol a")?;
    spell(
        alloc,
        b"\x02\0\0\0\0\0\0\x03\xe8\0\0\0\x01\0\0\0\0\0\0\0\0\0\0\xaf\xc8\x08\0\0\xea\x60\0",
        "1000 Submit { owner: ProcId(0), policy: Abort, writes: Items { items: [Setting { point: PointId(0), value: 45000, priority: 8, lease: 60000, revert: Items { items: [] } }] }, seq: 0 }",
    )?;
    spell(
        alloc,
        b"\x03\0\0\0\0\0\0\x0b\xb8\0\0\0\0\0\0\0\0\0\x01\0\0\xea\x60\x02\0\0\0\x02\0\0\0\0",
        "3000 Renew { owner: ProcId(0), txn: Txn(1), length: 60000, points: Items { items: [PointId(2), PointId(0)] }, seq: 0 }",
    )?;
    spell(
        alloc,
        b"\x04\0\0\0\0\0\0\x0f\xa0\0\x01\0\0\0\0\0\0\x01\x02",
        "4000 Cancel { owner: ProcId(1), txn: Txn(258), seq: 0 }",
    )?;
    spell(
        alloc,
        b"\x05\0\0\0\0\0\0\x0f\xa0\0\xff",
        "4000 Gone { owner: ProcId(255) }",
    )?;
    spell(alloc, b"\x06\0\0\0\0\0\0\xee\x48", "61000 Tick")?;
    spell(
        alloc,
        b"\x07\0\0\0\0\0\0\x03\xe8\0\0\0\x03",
        "1000 Fault { point: PointId(3) }",
    )?;
    spell(
        alloc,
        b"\x08\0\0\0\0\0\0\x03\xe8\0\0\0\0\0\0\0\0\0\x05\x01\x01\0\0\x0f\xff\xff\xff\xff\xff\xff\xff\xff\xff\x10\x24\x0c\x84\0\x01\0\0\0\0\0\0\x75\x30\0\0\x13\x88",
        "1000 Submit { owner: ProcId(0), policy: Keep, writes: Items { items: [Setting { point: PointId(4095), value: -1, priority: 16, lease: 604800000, revert: Items { items: [Step { value: 30000, hold: 5000 }] } }] }, seq: 5 }",
    )?;
    spell(
        alloc,
        b"\x09\0\0\0\0\0\0\x0b\xb8\0\0\0\0\0\0\0\0\0\x06\0\0\0\0\0\0\0\x01\0\0\xea\x60\0",
        "3000 Renew { owner: ProcId(0), txn: Txn(1), length: 60000, points: Items { items: [] }, seq: 6 }",
    )?;
    spell(
        alloc,
        b"\x0a\0\0\0\0\0\0\x0f\xa0\0\0\x3f\xff\xff\xff\xff\xff\xff\xff\0\0\0\0\0\0\0\x01",
        "4000 Cancel { owner: ProcId(0), txn: Txn(1), seq: 4611686018427387903 }",
    )?;
    Ok(())
}

/// The longest event: a numbered submit by process 0, which aborts, of 32 writes, each with eight steps.
fn longest(alloc: Global) -> Result<Vec<u8>, Fail> {
    let mut bytes = Vec::new(alloc);
    bytes.extend_from_slice(b"\x08\0\0\0\0\0\0\x03\xe8\0\0\0\0\0\0\0\0\0\x05\0\x20")?;
    for point in 0..32u32 {
        bytes.extend_from_slice(&point.to_be_bytes())?;
        bytes.extend_from_slice(b"\0\0\0\0\0\0\xaf\xc8\x08\0\0\xea\x60\x08")?;
        for _ in 0..8 {
            bytes.extend_from_slice(b"\0\0\0\0\0\0\x75\x30\0\0\x13\x88")?;
        }
    }
    Ok(bytes)
}

#[test]
fn the_longest_event_has_3669_bytes(rt: HostRuntime) -> Result<(), Fail> {
    let alloc = rt.alloc();
    let bytes = longest(alloc)?;
    assert_eq!(rt; bytes.len(), 3_669);
    let Some((event, used)) = read_event(alloc, &bytes)? else {
        return Err("no event".into());
    };
    assert_eq!(rt; used, 3_669);
    let mut record = Buffer::new(alloc, 4_096)?;
    let (command, effect) = step_of(event);
    write_event(&mut record, &command, &effect);
    assert!(rt; record.bytes() == bytes.as_slice());
    let shorter = bytes.len().min(3_668);
    assert!(rt; are_none(alloc, &bytes[..shorter])?);
    Ok(())
}

#[test]
fn other_bytes_are_no_event(rt: HostRuntime) -> Result<(), Fail> {
    let alloc = rt.alloc();
    assert!(rt; are_none(alloc, b"")?);
    assert!(rt; are_none(alloc, b"\x0b\0\0\0\0\0\0\0\0")?);
    assert!(rt; are_none(alloc, b"\x06\0\0\0\0\0\0\xee")?);
    assert!(rt; are_none(alloc, b"\x06\x10\0\0\0\0\0\0\x01")?);
    assert!(rt; are_none(alloc, b"\x01\0\0\0\0\0\0\0\0\x01A")?);
    assert!(rt; are_none(alloc, b"\x02\0\0\0\0\0\0\x03\xe8\0\0\0\0")?);
    assert!(rt;
        are_none(
            alloc,
            b"\x0a\0\0\0\0\0\0\x0f\xa0\0\0\0\0\0\0\0\0\0\0\0\0\0\0\0\0\0\x01"
        )?
    );
    let after = read_event(alloc, b"\x06\0\0\0\0\0\0\xee\x48\x01")?;
    assert!(rt; matches!(&after, Some((_, 9))));
    Ok(())
}
