use crate::THREE_POINTS;
use boss_points::Catalogue;
use boss_requests::{Ask, Form, ReadRefusal, Request, RequestReader, is_blank, read_by};
use std::alloc::Global;
use std::process::Abort;

fn three_points(rt: &impl Abort, alloc: Global) -> Catalogue {
    Catalogue::read(alloc, THREE_POINTS.as_bytes()).expect(rt, "a catalogue")
}

/// What a line is read as, by a reader of its own and by one that has read others.
fn reading(
    rt: &impl Abort,
    alloc: Global,
    catalogue: &Catalogue,
    form: Form,
    line: &[u8],
    reader: &mut RequestReader,
) -> String {
    let alone = alone(rt, alloc, catalogue, form, line);
    let along = along(rt, alloc, catalogue, form, line, reader);
    expect_text(rt, along.as_str(), alone.as_str());
    along
}

fn alone(rt: &impl Abort, alloc: Global, catalogue: &Catalogue, form: Form, line: &[u8]) -> String {
    let mut reader = RequestReader::new(alloc);
    along(rt, alloc, catalogue, form, line, &mut reader)
}

fn along(
    rt: &impl Abort,
    alloc: Global,
    catalogue: &Catalogue,
    form: Form,
    line: &[u8],
    reader: &mut RequestReader,
) -> String {
    let read = read_by(alloc, catalogue, line, form, reader);
    told(rt, alloc, &read)
}

fn expect_text(rt: &impl Abort, text: &str, wanted: &str) {
    assert_eq!(rt; text, wanted);
}

/// The session, the moment and what is asked, or why a line is refused.
fn told(rt: &impl Abort, alloc: Global, read: &Result<Request, ReadRefusal>) -> String {
    match read {
        Ok(request) => asked(rt, alloc, request),
        Err(ReadRefusal::Refused(refusal)) => format!(in alloc; "{refusal:?}").expect(rt, "memory"),
        Err(ReadRefusal::NoMemory) => rt.panic("no memory"),
    }
}

fn asked(rt: &impl Abort, alloc: Global, request: &Request) -> String {
    let (on, at) = (request.on.0, request.at);
    match &request.ask {
        Ask::Command(command) => format!(in alloc; "{on} {at} {command:?}").expect(rt, "memory"),
        Ask::Watch { name, from } => {
            format!(in alloc; "{on} {at} watch {name} from {from}").expect(rt, "memory")
        }
    }
}

/// Lines of a script over the three points, each below a line `= ..` that says what it is read as. A `#` begins a comment.
const LINES: &str = r#"
# Lines of each kind but those that have names of processes.
= 1 0 Renew { txn: Txn(0), length: -5, points: Items { items: [] }, seq: 0 }
{"op":"renew","txn":0,"length":-5}
= 1 0 Renew { txn: Txn(7), length: 60000, points: Items { items: [PointId(2), PointId(1), PointId(2)] }, seq: 0 }
{"op":"renew","txn":7,"length":60000,"points":["fan","lamp","fan"]}
= 1 0 Cancel { txn: Txn(9223372036854775807), seq: 0 }
{"op":"cancel","txn":9223372036854775807}
= 1 0 Gone
{"op":"gone"}
= 1 0 Tick
{"op":"tick"}
= 1 0 Read { point: PointId(0) }
{"op":"read","point":"ahu1.damper"}
= 1 0 Array { point: PointId(1) }
{"op":"array","point":"lamp"}
= 1 0 Status { txn: Txn(3) }
{"op":"status","txn":3}
= 1 0 Notices { name: None, from: 1, max: 16 }
{"op":"notices"}
= 1 0 Notices { name: None, from: 9223372036854775807, max: 64 }
{"op":"notices","from":9223372036854775807,"max":64}
= 1 0 Points { from: 0, max: 64 }
{"op":"points"}
= 1 0 Points { from: 4611686018427387904, max: 1 }
{"op":"points","from":4611686018427387904,"max":1}
= 1 0 Version
{"op":"version"}

# Submits. What the machine refuses is a request all the same.
= 1 0 Submit { writes: Items { items: [Setting { point: PointId(0), value: 45000, priority: 16, lease: 60000, revert: Items { items: [] } }] }, policy: Abort, seq: 0 }
{"op":"submit","writes":[{"point":"ahu1.damper","value":45000,"lease":60000}]}
= 1 0 Submit { writes: Items { items: [Setting { point: PointId(1), value: 1, priority: 8, lease: 60000, revert: Items { items: [] } }] }, policy: Abort, seq: 0 }
{"op":"submit","policy":"abort","writes":[{"point":"lamp","value":1,"priority":8,"lease":60000,"revert":[]}]}
= 1 0 Submit { writes: Items { items: [Setting { point: PointId(2), value: 3, priority: 5, lease: 1, revert: Items { items: [Step { value: 2, hold: 30000 }, Step { value: 1, hold: 5 }] } }, Setting { point: PointId(1), value: 0, priority: 16, lease: 2, revert: Items { items: [] } }] }, policy: Keep, seq: 0 }
{"op":"submit","policy":"keep","writes":[{"point":"fan","value":3,"priority":5,"lease":1,"revert":[[2,30000],[1,5]]},{"point":"lamp","value":0,"lease":2}]}
= 1 0 Submit { writes: Items { items: [Setting { point: PointId(1), value: -9223372036854775808, priority: 17, lease: 0, revert: Items { items: [Step { value: 9223372036854775807, hold: -1 }, Step { value: 0, hold: 0 }, Step { value: 0, hold: 0 }, Step { value: 0, hold: 0 }, Step { value: 0, hold: 0 }, Step { value: 0, hold: 0 }, Step { value: 0, hold: 0 }, Step { value: 0, hold: 0 }, Step { value: 0, hold: 0 }] } }] }, policy: Abort, seq: 0 }
{"op":"submit","writes":[{"point":"lamp","value":-9223372036854775808,"priority":17,"lease":0,"revert":[[9223372036854775807,-1],[0,0],[0,0],[0,0],[0,0],[0,0],[0,0],[0,0],[0,0]]}]}

# Numbered requests, with the least number and the greatest, and the last of two.
= 1 0 Submit { writes: Items { items: [Setting { point: PointId(1), value: 1, priority: 16, lease: 60000, revert: Items { items: [] } }] }, policy: Abort, seq: 5 }
{"op":"submit","seq":5,"writes":[{"point":"lamp","value":1,"lease":60000}]}
= 1 0 Renew { txn: Txn(7), length: 60000, points: Items { items: [] }, seq: 1 }
{"op":"renew","txn":7,"length":60000,"seq":1}
= 1 0 Cancel { txn: Txn(7), seq: 4611686018427387903 }
{"op":"cancel","txn":7,"seq":4611686018427387903}
= 1 0 Cancel { txn: Txn(7), seq: 6 }
{"op":"cancel","txn":7,"seq":0,"seq":6}
# A key that means nothing to other commands.
= 1 0 Status { txn: Txn(3) }
{"op":"status","txn":3,"seq":0}
= 1 0 Gone
{"op":"gone","seq":"none"}

# Sessions and moments.
= 1 0 Gone
{"on":1,"at":0,"op":"gone"}
= 65535 1152921504606846976 Tick
{"on":65535,"at":1152921504606846976,"op":"tick"}
# Keys that mean nothing here, and escapes, which stand for what they spell.
= 1 0 Tick
{"op":"tick","process":7,"from":[1.5e300,null,{}],"op ":-0}
{"\u006fp":"ti\u0063k"}
# A long line with escapes before a short one.
{"x":"\\\"\/\b\f\n\r\t\u00e9\ud83d\ude00, and then some more of it, up to two blocks","op":"tick"}
{"op":"t\u0069ck"}
# Of two equal keys the last counts.
= 3 8 Tick
{"op":"dance","on":0,"at":"soon","op":"tick","on":3,"at":8}
= 1 8 Tick
{"at":7,"op":"tick","at":8}
# Also where one is written by an escape.
{"at":7,"op":"tick","\u0061t":8}
{"\u0061t":7,"op":"tick","at":8}
{"\u0061t":"soon","\u006fp":7,"a\u0074":8,"op":"tic\u006b"}
= 1 0 Gone
{"op":"tick","op":"gone"}
= 1 0 Renew { txn: Txn(8), length: 2, points: Items { items: [] }, seq: 0 }
{"op":"renew","txn":7,"length":1,"txn":8,"length":2}
= 1 0 Submit { writes: Items { items: [Setting { point: PointId(1), value: 1, priority: 16, lease: 2, revert: Items { items: [] } }] }, policy: Keep, seq: 0 }
{"op":"submit","policy":"abort","writes":[7],"policy":"keep","writes":[{"point":"fan","value":3,"lease":1,"point":"lamp","value":1,"lease":2}]}

# Escapes in a name, and in what is asked.
= 1 0 Read { point: PointId(1) }
{"op":"read","point":"l\u0061mp"}
{"op":"re\u0061d","point":"\u006c\u0061\u006D\u0070"}
= 1 0 Status { txn: Txn(3) }
{"op":"status","t\u0078n":3}

# Numbers of one digit, of 18 and of 19.
= 1 0 Cancel { txn: Txn(0), seq: 0 }
{"op":"cancel","txn":0}
= 1 0 Cancel { txn: Txn(99999999999999999), seq: 0 }
{"op":"cancel","txn":99999999999999999}
= 1 0 Cancel { txn: Txn(999999999999999999), seq: 0 }
{"op":"cancel","txn":999999999999999999}
= 1 0 Cancel { txn: Txn(1000000000000000000), seq: 0 }
{"op":"cancel","txn":1000000000000000000}
= 1 0 Renew { txn: Txn(7), length: -999999999999999999, points: Items { items: [] }, seq: 0 }
{"op":"renew","txn":7,"length":-999999999999999999}
= 1 0 Renew { txn: Txn(7), length: -1000000000000000000, points: Items { items: [] }, seq: 0 }
{"op":"renew","txn":7,"length":-1000000000000000000}
= 1 0 Renew { txn: Txn(7), length: -9223372036854775808, points: Items { items: [] }, seq: 0 }
{"op":"renew","txn":7,"length":-9223372036854775808}

# Values of each kind under keys that are not known.
= 1 8 Tick
{"op":"tick","at":8,"x":{},"y":[],"z":""}
{"x":[{}],"op":"tick","y":{"a":[]},"at":8}
{"x":true,"op":"tick","y":false,"at":8,"z":null}
{"x":-0,"op":"tick","y":0.5e-7,"at":8,"z":1E+2}
{"x":18446744073709551615,"op":"tick","y":99999999999999999999,"at":8,"z":-99999999999999999999}
{"x":{"op":"gone","at":9},"op":"tick","y":[{"at":"soon"}],"at":8}
{"":9,"o":"gone","opp":"gone","op":"tick","a":9,"att":9,"at":8}
# Arrays in arrays.
{"op":"tick","at":8,"x":[[[[[[[[]]]]]]]]}
{"op":"tick","at":8,"x":[[[[[[[[[]]]]]]]]]}
{"op":"tick","at":8,"x":[[[[[[[[[[]]]]]]]]]]}
{"x":[[[[[[[[7]]]]]]],[]],"op":"tick","at":8}
{"x":[[[[[[[[[{"at":[]}]]]]]]]]],"op":"tick","at":8}
{"x":[[[[[[[[[["]]"]]]]]]]]]],"op":"tick","at":8}
# Texts of more than ASCII has.
{"op":"tick","at":8,"x":"ü € 𝄞"}
{"ü":9,"op":"tick","at":8,"€":"𝄞"}
{"op":"tick","at":8,"x":"~ <> / '"}
# White space in each place.
 {"op":"tick","at":8}
{ "op":"tick","at":8}
{"op" :"tick","at":8}
{"op": "tick","at":8}
{"op":"tick" ,"at":8}
{"op":"tick", "at":8}
{"op":"tick","at" :8}
{"op":"tick","at": 8}
{"op":"tick","at":8 }
{"op":"tick","at":8,"x":[ ]}
{"op":"tick","at":8,"x":{ }}
  {  "op"  :  "tick"  ,  "at"  :  8  }
= 1 0 Renew { txn: Txn(7), length: 5, points: Items { items: [PointId(1), PointId(2)] }, seq: 0 }
{"op":"renew","txn":7,"length":5,"points":["lamp","fan"]}
{"op":"renew","txn":7,"length":5,"points": ["lamp","fan"]}
{"op":"renew","txn":7,"length":5,"points":[ "lamp","fan"]}
{"op":"renew","txn":7,"length":5,"points":["lamp" ,"fan"]}
{"op":"renew","txn":7,"length":5,"points":["lamp", "fan"]}
{"op":"renew","txn":7,"length":5,"points":["lamp","fan" ]}
{"op":"renew","txn":7,"length":5,"points":["lamp","fan"] }
# Keys in another order, and one more between them.
{"points":["lamp","fan"],"length":5,"txn":7,"op":"renew"}
{"length":5,"op":"renew","priority":"8","points":["lamp","fan"],"txn":7}
= 1 0 Submit { writes: Items { items: [Setting { point: PointId(2), value: 3, priority: 5, lease: 1, revert: Items { items: [Step { value: 2, hold: 30000 }] } }] }, policy: Keep, seq: 9 }
{"op":"submit","seq":9,"policy":"keep","writes":[{"point":"fan","value":3,"priority":5,"lease":1,"revert":[[2,30000]]}]}
{"writes":[{"revert":[[2,30000]],"lease":1,"priority":5,"value":3,"point":"fan"}],"policy":"keep","seq":9,"op":"submit"}
{"op":"submit","seq":9,"policy":"keep","writes":[ {"point":"fan","value":3,"priority":5,"lease":1,"revert":[[2,30000]]} ]}
{"op":"submit","seq":9,"policy":"keep","writes":[{ "point":"fan","value":3,"priority":5,"lease":1,"revert":[ [ 2 , 30000 ] ] }]}
{"op":"submit","seq":9,"policy":"keep","writes":[{"point":"fan","x":[],"value":3,"priority":5,"lease":1,"y":{},"revert":[[2,30000]]}]}

= Malformed { at: None }
# No JSON, or more than one value.
{
tick
{"op":"tick"
{"op":"tick",}
{'op':'tick'}
{"op":"tick"} {"op":"tick"}
{"op":"tick","name":"\ud800"}
# A text behind the value.
{"op":"tick"}x
{"op":"tick"}7
{"op":"tick"}}
{"op":"tick"}]
{"op":"tick"},
{"op":"tick"}""
{"op":"tick"}{}
# A comma too many, and one too few.
{"op":"tick","at":8,}
{"op":"tick",,"at":8}
{,"op":"tick"}
{"op":"tick","x":[1,]}
{"op":"tick","x":[,1]}
{"op":"tick","x":[1,,2]}
{"op":"tick","x":[1 2]}
{"op":"tick","x":{,}}
{"op":"tick" "at":8}
{"op":"tick""at":8}
{"op":"renew","txn":1,"length":1,"points":["lamp",]}
{"op":"renew","txn":1,"length":1,"points":["lamp",,"fan"]}
{"op":"submit","writes":[{"point":"lamp","value":1,"lease":1},]}
{"op":"submit","writes":[{"point":"lamp","value":1,"lease":1,}]}
{"op":"submit","writes":[{"point":"lamp","value":1,,"lease":1}]}
{"op":"submit","writes":[{"point":"lamp","value":1,"lease":1,"revert":[[0,1],]}]}
{"op":"submit","writes":[{"point":"lamp","value":1,"lease":1,"revert":[[0,1,]]}]}
# A colon too many, and one too few.
{"op"::"tick"}
{"op":"tick":8}
{"op" "tick"}
{"op"}
{"op":}
{"op":"tick","at"}
{"op":"tick","at":}
# A bracket that is missing, or another one.
{"op":"tick","x":[}
{"op":"tick","x":[}]
{"op":"tick","x":[]]}
{"op":"tick","x":{]}
{"op":"tick","x":[[[[[[[[]]]]]]]}
{"op":"tick","x":[[[[[[[[[]]]]]]]]}
{"op":"tick","x":[[[[[[[[[[]]]]]]]]]]]}
"op":"tick"}
["op":"tick"]
# Quotation marks that are missing.
{op:"tick"}
{"op:"tick"}
{"op":"tick}
{"op":tick}
{"op":"tick","x":"a"b"}
{"op":"tick","x":"\"}
# Escapes that are none.
{"op":"tick","x":"\x"}
{"op":"tick","x":"\u12"}
{"op":"tick","x":"\u12g4"}
{"\op":"tick"}
# Words and numbers that are none.
{"op":"tick","x":01}
{"op":"tick","x":-01}
{"op":"tick","x":00}
{"op":"tick","x":-}
{"op":"tick","x":+1}
{"op":"tick","x":.5}
{"op":"tick","x":1.}
{"op":"tick","x":1.e5}
{"op":"tick","x":1e}
{"op":"tick","x":1e+}
{"op":"tick","x":- 1}
{"op":"tick","x":1 0}
{"op":"tick","x":0x1}
{"op":"tick","x":1_000}
{"op":"tick","x":tru}
{"op":"tick","x":True}
{"op":"tick","x":nullx}
{"op":"tick","x":NaN}
{"op":"tick","x":-Infinity}
{"op":"tick","at":01}
{"op":"tick","at":00}
{"op":"tick","at":8x}
{"op":"cancel","txn":01}
{"op":"cancel","txn":007}
{"op":"renew","txn":7,"length":-01}
{"op":"submit","writes":[{"point":"lamp","value":01,"lease":1}]}
{"op":"submit","writes":[{"point":"lamp","value":1,"lease":060000}]}
{"op":"submit","writes":[{"point":"lamp","value":1,"lease":1,"revert":[[0,01]]}]}
# A number that is too great for JSON's reader, also beside what is not known.
{"op":"tick","x":1e400}
{"op":"dance","x":1e400}
= Malformed { at: Some(Line { key: Op }) }
# No object.
null
7
"tick"
["tick"]
[{"op":"tick"}]
[]
[[[[[[[[]]]]]]]]
# An `op` that is missing or no text.
{}
{ }
{"OP":"tick"}
{"op":null}
{"op":7}
{"op":["tick"]}
{"op":{"op":"tick"}}
= Malformed { at: Some(Line { key: Process }) }
# A key that is missing.
{"op":"attach"}
= Malformed { at: Some(Line { key: Writes }) }
{"op":"submit"}
= Malformed { at: Some(Line { key: Length }) }
{"op":"renew","txn":1}
= Malformed { at: Some(Line { key: Txn }) }
{"op":"renew","length":1}
{"op":"cancel"}
= Malformed { at: Some(Line { key: Point }) }
{"op":"read"}
{"op":"array"}
= Malformed { at: Some(Line { key: Txn }) }
{"op":"status"}
= Malformed { at: Some(Write { place: 0, key: Point }) }
{"op":"submit","writes":[{"value":1,"lease":1}]}
= Malformed { at: Some(Write { place: 0, key: Value }) }
{"op":"submit","writes":[{"point":"lamp","lease":1}]}
= Malformed { at: Some(Write { place: 0, key: Lease }) }
{"op":"submit","writes":[{"point":"lamp","value":1}]}
= Malformed { at: Some(Line { key: Process }) }
# A key of another kind.
{"op":"attach","process":7}
{"op":"notices","process":null}
= Malformed { at: Some(Line { key: From }) }
{"op":"notices","from":"1"}
= Malformed { at: Some(Line { key: Max }) }
{"op":"notices","max":[1]}
= Malformed { at: Some(Line { key: Txn }) }
{"op":"cancel","txn":"1"}
{"op":"status","txn":null}
= Malformed { at: Some(Line { key: Point }) }
{"op":"read","point":0}
{"op":"array","point":["lamp"]}
= Malformed { at: Some(Line { key: Length }) }
{"op":"renew","txn":1,"length":"1"}
= Malformed { at: Some(Line { key: Points }) }
{"op":"renew","txn":1,"length":1,"points":"lamp"}
= Malformed { at: Some(Named { place: 1 }) }
{"op":"renew","txn":1,"length":1,"points":["lamp",7]}
= Malformed { at: Some(Line { key: Points }) }
{"op":"renew","txn":1,"length":1,"points":null}
= Malformed { at: Some(Line { key: Writes }) }
{"op":"submit","writes":{"point":"lamp","value":1,"lease":1}}
= Malformed { at: Some(Write { place: 0, key: Point }) }
{"op":"submit","writes":[7]}
{"op":"submit","writes":[["lamp",1,1]]}
{"op":"submit","writes":[{"point":7,"value":1,"lease":1}]}
= Malformed { at: Some(Write { place: 0, key: Value }) }
{"op":"submit","writes":[{"point":"lamp","value":true,"lease":1}]}
= Malformed { at: Some(Write { place: 0, key: Priority }) }
{"op":"submit","writes":[{"point":"lamp","value":1,"lease":1,"priority":"8"}]}
{"op":"submit","writes":[{"point":"lamp","value":1,"lease":1,"priority":null}]}
= Malformed { at: Some(Line { key: On }) }
{"op":"tick","on":"1"}
= Malformed { at: Some(Line { key: At }) }
{"op":"tick","at":null}
= Malformed { at: Some(Line { key: Policy }) }
# A policy that is none.
{"op":"submit","writes":[{"point":"lamp","value":1,"lease":1}],"policy":"stop"}
{"op":"submit","writes":[{"point":"lamp","value":1,"lease":1}],"policy":null}
= Malformed { at: Some(Write { place: 0, key: Revert }) }
# A reversion that is no array of pairs.
{"op":"submit","writes":[{"point":"lamp","value":1,"lease":1,"revert":{}}]}
= Malformed { at: Some(Step { write: 0, place: 0 }) }
{"op":"submit","writes":[{"point":"lamp","value":1,"lease":1,"revert":[0,1]}]}
{"op":"submit","writes":[{"point":"lamp","value":1,"lease":1,"revert":[[0]]}]}
{"op":"submit","writes":[{"point":"lamp","value":1,"lease":1,"revert":[[0,1,2]]}]}
= Malformed { at: Some(Half { write: 0, place: 1, half: 1 }) }
{"op":"submit","writes":[{"point":"lamp","value":1,"lease":1,"revert":[[0,1],[0,"1"]]}]}
= Malformed { at: Some(Line { key: Txn }) }
# A fraction, an exponent, minus zero, and numbers past 64 bits.
{"op":"cancel","txn":1.0}
{"op":"cancel","txn":1e3}
{"op":"cancel","txn":-0}
= Malformed { at: Some(Line { key: At }) }
{"op":"tick","at":-0}
{"op":"tick","at":1.0}
{"op":"tick","at":18446744073709551616}
= Malformed { at: Some(Line { key: Txn }) }
{"op":"cancel","txn":9223372036854775808}
{"op":"cancel","txn":9999999999999999999}
{"op":"cancel","txn":10000000000000000000}
{"op":"cancel","txn":18446744073709551615}
{"op":"cancel","txn":18446744073709551616}
{"op":"cancel","txn":99999999999999999999}
{"op":"cancel","txn":100000000000000000000}
= Malformed { at: Some(Line { key: Length }) }
{"op":"renew","txn":7,"length":-9223372036854775809}
{"op":"renew","txn":7,"length":-10000000000000000000}
{"op":"renew","txn":7,"length":-0}
= Malformed { at: Some(Write { place: 0, key: Value }) }
{"op":"submit","writes":[{"point":"lamp","value":-0,"lease":1}]}
= Malformed { at: Some(Half { write: 0, place: 0, half: 0 }) }
{"op":"submit","writes":[{"point":"lamp","value":1,"lease":1,"revert":[[-0,1]]}]}
= Malformed { at: Some(Write { place: 0, key: Value }) }
{"op":"submit","writes":[{"point":"lamp","value":-9223372036854775809,"lease":1}]}
{"op":"submit","writes":[{"point":"lamp","value":9223372036854775808,"lease":1}]}
= Malformed { at: Some(Line { key: Txn }) }
# A number below 0, and others out of their bounds.
{"op":"cancel","txn":-1}
= Malformed { at: Some(Line { key: On }) }
{"op":"tick","on":0}
{"op":"tick","on":-1}
{"op":"tick","on":65536}
= Malformed { at: Some(Line { key: At }) }
{"op":"tick","at":-1}
{"op":"tick","at":1152921504606846977}
= Malformed { at: Some(Line { key: From }) }
{"op":"notices","from":0}
{"op":"points","from":-1}
{"op":"points","from":4611686018427387905,"max":0}
= Malformed { at: Some(Line { key: Max }) }
{"op":"notices","max":0}
{"op":"notices","max":65}
{"op":"points","max":0}
{"op":"points","max":65}
= Malformed { at: Some(Line { key: Seq }) }
# A number for the request that is none.
{"op":"cancel","txn":1,"seq":0}
{"op":"cancel","txn":1,"seq":-1}
{"op":"cancel","txn":1,"seq":4611686018427387904}
{"op":"cancel","txn":1,"seq":9223372036854775808}
{"op":"cancel","txn":1,"seq":5.0}
{"op":"cancel","txn":1,"seq":"5"}
{"op":"cancel","txn":1,"seq":null}
{"op":"renew","txn":1,"length":1,"seq":0}
{"op":"submit","seq":0,"writes":[{"point":"lamp","value":1,"lease":1}]}
= Malformed { at: Some(Line { key: Writes }) }
# An array without an item, and an item that has nothing.
{"op":"submit","writes":[]}
{"op":"submit","writes":[ ]}
= Malformed { at: Some(Line { key: Points }) }
{"op":"renew","txn":1,"length":1,"points":[]}
= Malformed { at: Some(Write { place: 0, key: Point }) }
{"op":"submit","writes":[{}]}
{"op":"submit","writes":[[]]}
= Malformed { at: Some(Write { place: 1, key: Point }) }
{"op":"submit","writes":[{"point":"lamp","value":1,"lease":1},{}]}
= Malformed { at: Some(Step { write: 0, place: 0 }) }
{"op":"submit","writes":[{"point":"lamp","value":1,"lease":1,"revert":[[]]}]}
= Malformed { at: Some(Line { key: Process }) }
# A process that has no name.
{"op":"attach","process":""}
{"op":"attach","process":"A"}
{"op":"attach","process":"a b"}
{"op":"attach","process":"ü"}
{"op":"attach","process":"xxxxxxxxxxxxxxxxxxxxxxxxxxxxxxxxxxxxxxxxxxxxxxxxxxxxxxxxxxxxxxxxx"}
{"op":"notices","process":"a/b"}
= Malformed { at: Some(Line { key: On }) }
# Malformed, and of a point that is not known as well.
{"on":0,"op":"read","point":"door"}
= Malformed { at: Some(Write { place: 1, key: Value }) }
{"op":"submit","writes":[{"point":"door","value":1,"lease":1},{"point":"lamp"}]}
= Malformed { at: Some(Line { key: Policy }) }
{"op":"submit","writes":[{"point":"door","value":1,"lease":1}],"policy":"stop"}
= Malformed { at: Some(Named { place: 1 }) }
{"op":"renew","txn":1,"length":1,"points":["door",7]}
= Malformed { at: Some(Line { key: Txn }) }
{"op":"renew","txn":-1,"length":1,"points":["door"]}
= Malformed { at: Some(Line { key: Seq }) }
{"op":"renew","txn":1,"length":1,"points":["door"],"seq":0}
{"op":"submit","seq":0,"writes":[{"point":"door","value":1,"lease":1}]}
= Malformed { at: Some(Line { key: Op }) }
# Of two equal keys the last counts.
{"op":"tick","op":7}
{"op":"tick","\u006fp":7}
= Malformed { at: Some(Line { key: Txn }) }
{"op":"cancel","txn":1,"txn":"1"}
{"op":"cancel","txn":1,"t\u0078n":"1"}
= Malformed { at: Some(Line { key: Points }) }
{"op":"renew","txn":1,"length":1,"points":["lamp"],"points":[]}

= UnknownOp
# Nothing that is known.
{"op":""}
{"op":"dance"}
{"op":"Tick"}
{"op":"tick "}
{"op":"t\u0069ck "}
{"op":"tıck"}
{"op":"ü"}
{"op":"next","driver":0}
{"op":"report"}
{"op":"watch","process":"a"}
# What else the line has does not matter.
{"op":"dance","on":0,"at":-1}
{"op":"watch"}
{"op":"tick","op":"dance"}
{"op":"tick","o\u0070":"dance"}

# A name that no point has, and its place.
= UnknownPoint { index: 0 }
{"op":"read","point":"door"}
{"op":"array","point":"door"}
# The least place.
= UnknownPoint { index: 1 }
{"op":"submit","writes":[{"point":"lamp","value":1,"lease":1},{"point":"door","value":1,"lease":1},{"point":"gate","value":1,"lease":1}]}
= UnknownPoint { index: 2 }
{"op":"renew","txn":1,"length":1,"points":["lamp","fan","door","lamp","gate"]}
# Texts that could never be a name.
= UnknownPoint { index: 0 }
{"op":"read","point":""}
{"op":"read","point":"Lamp"}
{"op":"read","point":"lamp "}
{"op":"read","point":"l\u0061mp\u0020"}
{"op":"read","point":"lämp"}
{"op":"read","point":"\\u006camp"}
{"op":"read","point":"xxxxxxxxxxxxxxxxxxxxxxxxxxxxxxxxxxxxxxxxxxxxxxxxxxxxxxxxxxxxxxxxx"}
# What the machine would refuse as well.
= UnknownPoint { index: 1 }
{"op":"submit","writes":[{"point":"lamp","value":1,"lease":1,"priority":17},{"point":"door","value":1,"lease":0}]}
"#;

/// First lines of connections.
const FIRST_LINES: &str = r#"
= 0 0 watch schedule from 1
{"op":"watch","process":"schedule"}
= 0 0 watch night.shift_2-b from 9223372036854775807
{"op":"watch","from":9223372036854775807,"process":"night.shift_2-b","max":7}
{"op":"watch","from":1,"process":"schedule","\u0066rom":9223372036854775807,"process":"night.shift_2-b"}
= 0 0 Status { txn: Txn(3) }
{"op":"status","txn":3}
# Which session asks, and when, is passed over.
{"on":7,"at":1000,"op":"status","txn":3}
{"on":0,"at":"soon","op":"status","txn":3}
= Malformed { at: Some(Line { key: Process }) }
{"op":"watch"}
{"op":"watch","process":7}
{"op":"watch","process":"Schedule"}
{"op":"watch","process":null,"from":1}
= Malformed { at: Some(Line { key: From }) }
{"op":"watch","process":"schedule","from":0}
{"op":"watch","process":"schedule","from":"1"}
= Malformed { at: None }
{"op":"watch","process":"schedule","from":01}
{"op":"watch","process":"schedule",}
{"op":"watch","process":"schedule"}}
= Malformed { at: Some(Line { key: From }) }
{"op":"watch","process":"schedule","from":9223372036854775808}
= UnknownOp
{"op":"tick"}
{"op":"gone"}
{"op":"next","driver":0}
"#;

/// Later lines of connections.
const LATER_LINES: &str = r#"
= UnknownOp
{"op":"watch","process":"schedule"}
{"op":"watch"}
{"op":"tick"}
{"op":"gone"}
= 0 0 Notices { name: None, from: 1, max: 16 }
{"on":65536,"at":-1,"op":"notices"}
"#;

/// What a line is told that is no JSON.
const NO_JSON: &str = "Malformed { at: None }";

/// Lines of a script that are no text, or have blanks at their ends, and what they are read as.
const ENDS: &[(&[u8], &str)] = &[
    (b"", NO_JSON),
    // No UTF-8: a byte that no text has, one alone of a letter, a letter cut short, one of too many bytes, half of a pair, one past the last.
    (b"{\"op\":\"tick\",\"x\":\"\xff\"}", NO_JSON),
    (b"{\"op\":\"tick\",\"x\":\"\x80\"}", NO_JSON),
    (b"{\"op\":\"tick\",\"x\":\"\xc3\"}", NO_JSON),
    (b"{\"op\":\"tick\",\"x\":\"\xe2\x82\"}", NO_JSON),
    (b"{\"op\":\"tick\",\"x\":\"\xc1\xbf\"}", NO_JSON),
    (b"{\"op\":\"tick\",\"x\":\"\xed\xa0\x80\"}", NO_JSON),
    (b"{\"op\":\"tick\",\"x\":\"\xf4\x90\x80\x80\"}", NO_JSON),
    (b"{\"\xff\":7,\"op\":\"tick\"}", NO_JSON),
    (b"{\"op\":\"t\xefck\"}", NO_JSON),
    (b"{\"op\":\"read\",\"point\":\"lamp\xff\"}", NO_JSON),
    (b"{\"op\":\"tick\"}\xff", NO_JSON),
    (b"\xef\xbb\xbf{\"op\":\"tick\"}", NO_JSON),
    // The same letters as they are to be.
    (
        b"{\"op\":\"tick\",\"x\":\"\xc3\xbf \xe2\x82\xac \xf4\x8f\xbf\xbf \x7f\"}",
        "1 0 Tick",
    ),
    (b"{\"op\":\"t\xc3\xafck\"}", "UnknownOp"),
    (
        b"{\"op\":\"read\",\"point\":\"lamp\xc3\xbf\"}",
        "UnknownPoint { index: 0 }",
    ),
    // A text has no control character, and only four of all characters are blanks.
    (b"{\"op\":\"tick\",\"x\":\"\0\"}", NO_JSON),
    (b"{\"op\":\"tick\",\"x\":\"\x1f\"}", NO_JSON),
    (b"{\"op\":\"tick\",\"x\":\"a\nb\"}", NO_JSON),
    (b"{\"op\":\"tick\",\"x\":\"a\tb\"}", NO_JSON),
    (b"{\"o\tp\":\"tick\"}", NO_JSON),
    (b"{\"op\":\"tick\"}\0", NO_JSON),
    (b"{\"op\":\x0b\"tick\"}", NO_JSON),
    (b"{\x0c\"op\":\"tick\"}", NO_JSON),
    (b"{\"op\":\xc2\xa0\"tick\"}", NO_JSON),
    (b"{\r\n\"op\"\t:\r\"tick\"\n}\n", "1 0 Tick"),
    (b"{\"op\":\"tick\",\"at\":8} ", "1 8 Tick"),
    (
        b"\t{\t\"op\"\t:\t\"tick\"\t,\t\"at\"\t:\t8\t}\t",
        "1 8 Tick",
    ),
    (
        b"{\"op\":\"tick\",\"at\":8,\"x\":[\t[\r]\n,{\t}\r]}\r\n",
        "1 8 Tick",
    ),
    (b" {\"op\" : \"tick\"}\r", "1 0 Tick"),
];

/// Reads a line, which has to be read as this.
fn expect_line(
    rt: &impl Abort,
    alloc: Global,
    catalogue: &Catalogue,
    form: Form,
    line: &[u8],
    wanted: &str,
    reader: &mut RequestReader,
) {
    let read = reading(rt, alloc, catalogue, form, line, reader);
    expect_text(rt, read.as_str(), wanted);
}

fn is_asked(line: &str) -> bool {
    !line.is_empty() && !line.starts_with('#')
}

/// Reads the lines of a group, which have to be read as its first line says.
fn expect_group(
    rt: &impl Abort,
    alloc: Global,
    catalogue: &Catalogue,
    form: Form,
    group: &str,
    reader: &mut RequestReader,
) {
    let (wanted, lines) = group.split_once('\n').expect(rt, "a group");
    for line in lines.split('\n') {
        if is_asked(line) {
            expect_line(rt, alloc, catalogue, form, line.as_bytes(), wanted, reader);
        }
    }
}

fn expect_groups(
    rt: &impl Abort,
    alloc: Global,
    catalogue: &Catalogue,
    form: Form,
    table: &str,
    reader: &mut RequestReader,
) {
    for group in table.split("\n= ").skip(1) {
        expect_group(rt, alloc, catalogue, form, group, reader);
    }
}

#[test]
fn a_line_is_read_as_its_request(rt: HostRuntime) {
    let alloc = rt.alloc();
    let catalogue = three_points(&rt, alloc);
    let mut reader = RequestReader::new(alloc);
    expect_groups(&rt, alloc, &catalogue, Form::Script, LINES, &mut reader);
    expect_groups(
        &rt,
        alloc,
        &catalogue,
        Form::FirstLine,
        FIRST_LINES,
        &mut reader,
    );
    expect_groups(
        &rt,
        alloc,
        &catalogue,
        Form::LaterLine,
        LATER_LINES,
        &mut reader,
    );
    expect_ends(&rt, alloc, &catalogue, ENDS, &mut reader);
}

/// Reads these lines of a script, each of which has to be read so.
fn expect_ends(
    rt: &impl Abort,
    alloc: Global,
    catalogue: &Catalogue,
    ends: &[(&[u8], &str)],
    reader: &mut RequestReader,
) {
    for end in ends {
        let (line, wanted) = (end.0, end.1);
        expect_line(rt, alloc, catalogue, Form::Script, line, wanted, reader);
    }
}

type Longest = (&'static str, &'static str, &'static str, &'static str, u32);

/// Lines of as many parts as there may be: what stands in front, a part, what answers each part behind them all, what stands
/// behind, and how many parts there are.
const LONGEST: &[Longest] = &[
    // 32 writes.
    (
        r#"{"op":"submit","writes":[{"point":"lamp","value":1,"lease":1}"#,
        r#",{"point":"lamp","value":1,"lease":1}"#,
        "",
        "]}",
        31,
    ),
    // 32 points.
    (
        r#"{"op":"renew","txn":1,"length":1,"points":["lamp""#,
        r#","lamp""#,
        "",
        "]}",
        31,
    ),
    // 127 levels, the object's own among them.
    (r#"{"op":"tick","x":"#, "[", "]", "}", 126),
];

/// A line of so many parts.
fn line_of(rt: &impl Abort, alloc: Global, row: &Longest, count: u32) -> String {
    let (front, part, other, back, _) = row;
    let mut line = String::from_str(alloc, front).expect(rt, "memory");
    push_often(rt, &mut line, part, count);
    push_often(rt, &mut line, other, count);
    line.push_str(back).expect(rt, "memory");
    line
}

fn push_often(rt: &impl Abort, line: &mut String, part: &str, count: u32) {
    for _ in 0..count {
        line.push_str(part).expect(rt, "memory");
    }
}

/// Reads a line of so many parts, which has to be read as what begins so.
fn expect_bound(
    rt: &impl Abort,
    alloc: Global,
    catalogue: &Catalogue,
    row: &Longest,
    count: u32,
    wanted: &str,
    reader: &mut RequestReader,
) {
    let line = line_of(rt, alloc, row, count);
    let read = reading(rt, alloc, catalogue, Form::Script, line.as_bytes(), reader);
    expect_start(rt, read.as_str(), wanted);
}

fn expect_start(rt: &impl Abort, text: &str, start: &str) {
    assert!(rt; text.starts_with(start), "{text}");
}

#[test]
fn a_line_has_its_bounds(rt: HostRuntime) {
    let alloc = rt.alloc();
    let catalogue = three_points(&rt, alloc);
    let mut reader = RequestReader::new(alloc);
    for row in LONGEST {
        let most = row.4;
        expect_bound(&rt, alloc, &catalogue, row, most, "1 0 ", &mut reader);
        let more = most.saturating_add(1);
        expect_bound(&rt, alloc, &catalogue, row, more, "Malformed", &mut reader);
    }
}

const BLANK: &[&str] = &["", " ", "\t", "\r", " \t \r"];

const NOT_BLANK: &[&str] = &["{}", " {}", "\t.\t", "\u{b}", "\u{c}", "\0", "\u{a0}"];

#[test]
fn a_blank_line_has_nothing_but_blanks(rt: HostRuntime) {
    for line in BLANK {
        assert!(rt; is_blank(line.as_bytes()), "{line:?}");
    }
    for line in NOT_BLANK {
        assert!(rt; !is_blank(line.as_bytes()), "{line:?}");
    }
}
