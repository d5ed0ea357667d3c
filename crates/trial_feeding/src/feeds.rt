// What a pair is told as, above which number.
use crate::bytes::*;
use crate::outside::told;
use boss_feeding::FeedFault;
use boss_pair_find::DurableRefusal;

const SHUT: Held = Held::Log { gate: 0 };

const SUMMED: Held = Held::SummedLog { gate: 0 };

/// A pair, the number above which it is told, and the lines.
const ROWS: [((Held, Held), u64, &[&str]); 14] = [
    ((Held::Nothing, Held::Nothing), 0, &[]),
    ((SHUT, Held::Nothing), 0, &[FIRST, SECOND]),
    ((SHUT, Held::Nothing), 1, &[SECOND]),
    ((SHUT, Held::Nothing), 2, &[]),
    ((SHUT, Held::Nothing), 9, &[]),
    // A kept state on either disk.
    ((SHUT, Held::Kept), 0, &[STATE, THIRD]),
    ((Held::Kept, Held::Nothing), 1, &[STATE, THIRD]),
    ((SHUT, Held::Kept), 2, &[THIRD]),
    ((SHUT, Held::Kept), 3, &[]),
    // As version 2 spells it.
    ((SHUT, Held::OldKept), 0, &[STATE, THIRD]),
    // Without the sums.
    ((SUMMED, Held::Nothing), 0, &[FIRST, SECOND]),
    ((SUMMED, Held::Nothing), 1, &[SECOND]),
    ((SUMMED, Held::SummedKept), 0, &[STATE, THIRD]),
    ((SHUT, Held::SummedKept), 2, &[THIRD]),
];

#[test]
fn each_pair_is_told_above_a_number(rt: HostRuntime) {
    let alloc = rt.alloc();
    for (pair, from, lines) in ROWS {
        let (sink, ended) = told(&rt, alloc, pair, from);
        assert!(rt; ended == Ok(()));
        let mut text = Vec::new(alloc);
        for line in lines {
            text.extend_from_slice(line.as_bytes())
                .expect(&rt, "memory");
        }
        assert_eq!(rt; sink.taken(), text.as_slice());
    }
}

#[test]
fn nothing_is_told_of_a_pair_that_is_refused(rt: HostRuntime) {
    let alloc = rt.alloc();
    let open = Held::Log { gate: 1 };
    let (sink, ended) = told(&rt, alloc, (open, Held::Nothing), 0);
    let damaged = DurableRefusal::Damaged { place: 93 };
    assert!(rt; ended == Err(FeedFault::Refused(damaged)));
    assert!(rt; sink.taken().is_empty());
    let open = Held::SummedLog { gate: 1 };
    let (sink, ended) = told(&rt, alloc, (open, Held::Nothing), 0);
    let damaged = DurableRefusal::Damaged { place: 109 };
    assert!(rt; ended == Err(FeedFault::Refused(damaged)));
    assert!(rt; sink.taken().is_empty());
}
