ghost use Rattle.std.specs.Prelude.{◌≡◌, length};
ghost use Rattle.boss_model.specs.Tellable.{IsTellable};

use boss_answers::{write_answer, write_device, write_notice};
use boss_model::{Answer, Basis, Buffer, Mark, Notice, PointId, Refusal, Spot, Txn, What};
use boss_points::Catalogue;
use std::alloc::Global;
use std::process::Abort;

/// A set-point that may be negative.
const FROST: &str = "drivers=['hall-2']
[[point]]
name='frost_limit'
driver='hall-2'
kind='analog'
min=-30000
max=30000
default=-5000
";

const FROST_LIMIT: PointId = PointId(0);

fn frost(rt: &impl Abort, alloc: Global) -> Catalogue
    ensures { length result.points ≡ 1 }
{
    let catalogue = Catalogue::read(alloc, FROST.as_bytes()).expect(rt, "a catalogue");
    if catalogue.count() != 1 {
        rt.panic("one point");
    }
    catalogue
}

/// Compares an answer with its text.
fn expect(rt: &impl Abort, alloc: Global, catalogue: &Catalogue, answer: &Answer, wanted: &str)
    requires { IsTellable catalogue.now answer.now }
{
    let mut text = Buffer::new(alloc, 32_768).expect(rt, "memory");
    write_answer(&mut text, catalogue, answer);
    assert!(rt; text.bytes() == wanted.as_bytes(), "{wanted}");
}

/// Compares the answers to drivers with their texts.
fn expect_each(rt: &impl Abort, alloc: Global, catalogue: &Catalogue)
    requires { length catalogue.now.points ≡ 1 }
{
    let want = Answer::Want {
        point: FROST_LIMIT,
        version: u64::MAX,
        value: i64::MIN,
    };
    expect(
        rt,
        alloc,
        catalogue,
        &want,
        r#"{"ok":"want","point":"frost_limit","version":18446744073709551615,"value":-9223372036854775808}"#,
    );
    expect(
        rt,
        alloc,
        catalogue,
        &Answer::Nothing,
        r#"{"ok":"nothing"}"#,
    );
    let noted = Answer::Noted { current: false };
    expect(rt, alloc, catalogue, &noted, r#"{"ok":"noted"}"#);
    let spent = Answer::Refused(Refusal::Spent);
    expect(rt, alloc, catalogue, &spent, r#"{"error":"spent"}"#);
}

/// What no line of a script is answered, or no script comes to.
#[test]
fn answers_to_drivers_have_their_texts(rt: HostRuntime) {
    let catalogue = frost(&rt, rt.alloc());
    expect_each(&rt, rt.alloc(), &catalogue);
}

/// Compares what is told of the catalogue, whose digest is what `sha256sum` says, and of the program with their texts.
fn expect_catalogue(rt: &impl Abort, alloc: Global, catalogue: &Catalogue) {
    expect(
        rt,
        alloc,
        catalogue,
        &Answer::Points { from: 0, max: 64 },
        r#"{"ok":"points","digest":"e1978847ff8f7b77b36874addcee6469e687d710bc26a9e1f8f82ce94430c34f","drivers":["hall-2"],"count":1,"next":1,"list":[{"point":"frost_limit","kind":"analog","min":-30000,"max":30000,"default":-5000,"driver":"hall-2"}]}"#,
    );
    expect(
        rt,
        alloc,
        catalogue,
        &Answer::Points { from: 1, max: 64 },
        r#"{"ok":"points","digest":"e1978847ff8f7b77b36874addcee6469e687d710bc26a9e1f8f82ce94430c34f","count":1,"next":1,"list":[]}"#,
    );
    expect(
        rt,
        alloc,
        catalogue,
        &Answer::Version,
        r#"{"ok":"version","program":"0.3.0","journal":3,"digest":"e1978847ff8f7b77b36874addcee6469e687d710bc26a9e1f8f82ce94430c34f","points":1,"drivers":1}"#,
    );
}

#[test]
fn the_catalogue_and_the_program_are_told(rt: HostRuntime) {
    let catalogue = frost(&rt, rt.alloc());
    expect_catalogue(&rt, rt.alloc(), &catalogue);
}

/// Compares the reading of a point whose device was found with another value, and the longest place at fault, with their texts.
fn expect_rare(rt: &impl Abort, alloc: Global, catalogue: &Catalogue)
    requires { length catalogue.now.points ≡ 1 }
{
    let reading = Answer::Reading {
        point: FROST_LIMIT,
        value: 0,
        basis: Basis::Default,
        mark: Mark::Settled,
        differed: u64::MAX,
        took: None,
    };
    expect(
        rt,
        alloc,
        catalogue,
        &reading,
        r#"{"ok":"read","point":"frost_limit","value":0,"from":"default","mark":"settled","differed":18446744073709551615}"#,
    );
    let spot = Spot::Half {
        write: 31,
        place: 18_446_744_073_709_551_615,
        half: 1,
    };
    let malformed = Answer::Refused(Refusal::Malformed { at: Some(spot) });
    expect(
        rt,
        alloc,
        catalogue,
        &malformed,
        r#"{"error":"malformed","key":"writes[31].revert[18446744073709551615][1]"}"#,
    );
}

#[test]
fn what_comes_rarely_has_its_text(rt: HostRuntime) {
    let catalogue = frost(&rt, rt.alloc());
    expect_rare(&rt, rt.alloc(), &catalogue);
}

#[test]
fn notices_and_writes_are_put_behind_what_is_there(rt: HostRuntime) {
    let catalogue = frost(&rt, rt.alloc());
    let notice = Notice {
        number: 5,
        at: 1_000,
        txn: Txn(1),
        what: What::Cut {
            point: FROST_LIMIT,
            by: Txn(9),
        },
    };
    let mut text = Buffer::new(rt.alloc(), 131_072).expect(&rt, "memory");
    write_notice(&mut text, &catalogue, &notice);
    text.push(b'\n');
    write_device(&mut text, &catalogue, FROST_LIMIT, -5_000, false);
    let wanted =
        b"{\"n\":5,\"at\":1000,\"txn\":1,\"kind\":\"cut\",\"point\":\"frost_limit\",\"by\":9}\nwrite hall-2 frost_limit -5000 failed";
    assert!(&rt; text.bytes() == wanted.as_slice())
}
