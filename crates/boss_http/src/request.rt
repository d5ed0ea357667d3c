ghost use Rattle.std.specs.Prelude.{◌≡◌, IfOk};
ghost use Rattle.boss_http.specs.Requests.{post_text};

use boss_model::NoMemory;
use std::alloc::Global;

/// A request that posts a body to a path of a host.
#[tactic(auto, unfolding(crate::specs::Requests::post_text))]
pub fn post(alloc: Global, path: &[u8], host: &[u8], body: &[u8]) -> Result<Vec<u8>, NoMemory>
    ensures { IfOk result (λ request. request.items ≡ post_text path.now host.now body.now) }
{
    let mut request = Vec::from_slice(alloc, b"POST ")?;
    request.extend_from_slice(path)?;
    request.extend_from_slice(b" HTTP/1.1\r\nHost: ")?;
    request.extend_from_slice(host)?;
    request.extend_from_slice(b"\r\nContent-Length: ")?;
    request.extend_from_slice(itoa::Buffer::new().format(body.len()).as_bytes())?;
    request.extend_from_slice(b"\r\n\r\n")?;
    request.extend_from_slice(body)?;
    Ok(request)
}
