ghost use Rattle.std.specs.Prelude.{drop, IfSome};
ghost use Rattle.httparse.specs.Spans.{IsResponseOf, IsResponseWithin};
ghost use Rattle.boss_http.specs.Responses.{BeginsWith};

use http1::fields::KnownFields;
use http1::framing::{Framing, MethodKind, response_framing};
use httparse::spans::{HeaderSpan, ResponseSpans};

/// How the body of a response with this head ends. A response that is not the last one, or whose body ends with the connection, is none.
#[tactic(auto, using(crate::proofs::Bodies::begins))]
pub fn framing_of(bytes: &[u8], spans: &[HeaderSpan], head: &ResponseSpans) -> Option<Framing>
    requires within { IsResponseWithin bytes.now spans.now head.now }
    requires is { IsResponseOf bytes.now spans.now head.now }
    ensures { IfSome result (λ framing. BeginsWith bytes.now head.now.code framing (drop head.now.len bytes.now)) }
{
    if head.code < 200 {
        return None;
    }
    let known = KnownFields::from_spans(bytes, &spans[..head.headers]);
    match response_framing(MethodKind::Other, head.code, head.version, &known) {
        Ok(Framing::UntilClose) => None,
        Ok(framing) => Some(framing),
        Err(_) => None,
    }
}
