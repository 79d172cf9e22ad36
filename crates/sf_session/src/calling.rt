//! The file-system calls of requests.

ghost use Rattle.std.specs.Prelude.{◌≡◌, IfOk};
ghost use Rattle.sf_request.specs.declared.request.WireRequest.TheVariants.{OnPath, Write};
ghost use Rattle.sf_session.specs.Asking.{path_at, handle_number, paths_at, call_of};

use sf_call::Request;
use sf_field::{ByteString, PathOp};
use sf_path::{Path, PathFault};
use sf_request::WireRequest;
use std::alloc::{AllocError, Global};

/// The path that a text denotes, if it has no fault.
pub(crate) fn path_of(alloc: Global, text: &[u8]) -> Result<Option<Path>, AllocError>
    ensures { IfOk result (λ found. found ≡ path_at text.now) }
{
    match Path::parse(alloc, text) {
        Ok(path) => Ok(Some(path)),
        Err(PathFault::OutOfMemory) => Err(AllocError),
        Err(PathFault::TooLong | PathFault::NameTooLong | PathFault::NulByte) => Ok(None),
    }
}

/// The number of a handle, if it has 8 bytes.
fn handle_of(bytes: &[u8]) -> Option<u64>
    ensures { result ≡ handle_number bytes.now }
{
    let bytes: [u8; 8] = bytes.try_into().ok()?;
    Some(u64::from_be_bytes(bytes))
}

/// The request's call, if its paths and its handle are valid. REALPATH has none.
pub(crate) fn call_of(
    alloc: Global,
    request: WireRequest<'_>,
) -> Result<Option<Request>, AllocError>
    ensures { IfOk result (λ call. call ≡ call_of request.entry) }
{
    match request {
        WireRequest::OnPath(op, path) => on_path(alloc, op, path.as_slice()),
        WireRequest::LStat(path) => on_path(alloc, PathOp::Stat, path.as_slice()),
        WireRequest::OnPaths(op, old, new) => {
            let paths = paths_of(alloc, old.as_slice(), new.as_slice())?;
            Ok(paths.map(|(old, new)| Request::OnPaths(op, old, new)))
        }
        WireRequest::ByHandle(op, handle) => {
            Ok(handle_of(handle.as_slice()).map(|handle| Request::ByHandle(op, handle)))
        }
        WireRequest::Write {
            handle,
            offset,
            data,
        } => write_call(alloc, handle.as_slice(), offset, data.as_slice()),
        WireRequest::RealPath(_) => Ok(None),
    }
}

fn on_path(alloc: Global, op: PathOp, text: &[u8]) -> Result<Option<Request>, AllocError>
    ensures { IfOk result (λ call. call ≡ call_of (OnPath op text.now)) }
{
    Ok(path_of(alloc, text)?.map(|path| Request::OnPath(op, path)))
}

/// Copies the data, the only copy of it.
fn write_call(
    alloc: Global,
    handle: &[u8],
    offset: u64,
    bytes: &[u8],
) -> Result<Option<Request>, AllocError>
    ensures { IfOk result (λ call. call ≡ call_of (Write handle.now offset bytes.now)) }
{
    let Some(handle) = handle_of(handle) else {
        return Ok(None);
    };
    let data = ByteString::from_slice(alloc, bytes)?;
    Ok(Some(Request::Write {
        handle,
        offset,
        data,
    }))
}

/// The two paths of a rename, if both are valid.
fn paths_of(alloc: Global, old: &[u8], new: &[u8]) -> Result<Option<(Path, Path)>, AllocError>
    ensures { IfOk result (λ found. found ≡ paths_at old.now new.now) }
{
    let Some(old) = path_of(alloc, old)? else {
        return Ok(None);
    };
    match path_of(alloc, new)? {
        Some(new) => Ok(Some((old, new))),
        None => Ok(None),
    }
}
