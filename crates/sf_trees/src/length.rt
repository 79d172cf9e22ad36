//! The length of a request.

ghost use Rattle.std.specs.Prelude.{◌≡◌, ◌<◌, ◌≤◌, ◌-◌, ◌^◌, min, length, true, false};
ghost use Rattle.sf_request.specs.Requests.{request_body};
ghost use Rattle.sf_trees.specs.Lengths.{id, strings_of, most_strings};

use sf_request::WireRequest;

/// The most bytes that the strings of a request may have, for a packet that a session accepts.
const MOST_STRINGS: usize = 262080;

/// The number of bytes in the strings of a request.
fn strings_of(request: &WireRequest) -> usize
    ensures { result ≡ min (strings_of request.now) (2 ^ 64 - 1) }
{
    match request {
        WireRequest::OnPath(_, text)
        | WireRequest::ByHandle(_, text)
        | WireRequest::LStat(text)
        | WireRequest::RealPath(text) => text.len(),
        WireRequest::OnPaths(_, old, new) => old.len().saturating_add(new.len()),
        WireRequest::Write { handle, data, .. } => handle.len().saturating_add(data.len()),
    }
}

/// Whether a request's packet would be longer than a session accepts (262144 bytes). Such a request
/// isn't sent.
pub fn is_too_long(request: &WireRequest) -> bool
    ensures yes { result ≡ true → most_strings < strings_of request.now }
    ensures no { result ≡ false → length (request_body id request.now) ≤ 262144 }
{
    strings_of(request) > MOST_STRINGS
}
