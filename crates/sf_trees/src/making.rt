//! Making directories, files and links.

ghost use Rattle.std.specs.Prelude.{◌≡◌, ◌≤◌, ◌<◌, ◌+◌, ◌*◌, ◌^◌, length};
ghost use Rattle.sf_field.specs.declared.operation.PathOp.TheVariants as path_op;
ghost use Rattle.sf_request.specs.declared.request.WireRequest.TheVariants as request;
ghost use Rattle.sf_trees.specs.Operations.{Does, IsAsked, request_place};
ghost use Rattle.sf_trees.specs.Makings.{is_of_name, goes_on_by, ends_name, is_directory_attrs, finds_by, Mkdirs, MakesOne, MakesAt, MakesWay, piece, pieces_in, piece_at, WritesPiece, WritesPieces, ClosesHandle, WritesContents, OpensFile, Fills, MakesDirectory, WritesMore, WritesFile, LinksAlone, LinksOn, Links};

use crate::fault::{Place, Refused, TreeFault};
use crate::server::{Server, begin, open, refusal_of, succeed};
use sf_field::{Attrs, HandleOp, NO_ATTRS, OpenFlags, PairOp, PathOp};
use sf_reply::{Reply, StatusCode};
use sf_request::{ByteStr, WireRequest};

/// The most bytes that one WRITE sends.
const PIECE: usize = 131072;

/// WRITE, CREAT and TRUNC.
const TO_WRITE: OpenFlags = OpenFlags {
    read: false,
    write: true,
    append: false,
    create: true,
    truncate: true,
    exclusive: false,
};

/// Whether this is a byte of a name: there is one, and it is no slash.
fn is_of_name(byte: Option<u8>) -> bool
    ensures { result ≡ is_of_name byte }
{
    match byte {
        Some(byte) => byte != b'/',
        None => false,
    }
}

/// Whether this is a slash, or the end if `whole`.
fn goes_on_by(whole: bool, byte: Option<u8>) -> bool
    ensures { result ≡ goes_on_by whole byte }
{
    match byte {
        Some(byte) => byte == b'/',
        None => whole,
    }
}

/// Whether the byte at this index is the last one of a name: before a slash or, if `whole`, at the
/// end.
fn ends_name(whole: bool, path: &[u8], at: usize) -> bool
    requires { at + 1 ≤ length path.now }
    ensures { result ≡ ends_name whole path.now at }
{
    is_of_name(path.get(at).copied()) && goes_on_by(whole, path.get(at + 1).copied())
}

/// Whether these permissions are a directory's.
fn is_directory(attrs: &Attrs) -> bool
    ensures { result ≡ is_directory_attrs attrs.now }
{
    match attrs.permissions {
        Some(mode) => mode / 0o10000 == 4,
        None => false,
    }
}

/// Whether the reply to STAT is a directory's attributes.
fn finds_by(place: Place, outcome: &Result<Reply, TreeFault>) -> Result<bool, Refused>
    ensures { result ≡ finds_by place outcome.now }
{
    match outcome {
        Ok(Reply::Attrs(attrs)) => Ok(is_directory(attrs)),
        Ok(Reply::Status(StatusCode::NoSuchFile)) => Ok(false),
        Ok(reply) => Err(Refused {
            fault: refusal_of(reply),
            place,
        }),
        Err(fault) => Err(Refused {
            fault: *fault,
            place,
        }),
    }
}

/// Whether a path leads to a directory.
fn finds<S: Server>(server: &mut S, session: u64, path: &[u8]) -> Result<bool, Refused>
    ensures { Does S.reaches server.old server.new
        (IsAsked session (request.OnPath path_op.Stat path.now)
        (finds_by (request_place 17 (length path.now)))) result }
{
    let length = path.len();
    let request = WireRequest::OnPath(PathOp::Stat, ByteStr::new(path));
    let outcome = server.ask(session, &request);
    finds_by(Place { kind: 17, length }, &outcome)
}

/// Makes a directory.
fn mkdir<S: Server>(server: &mut S, session: u64, path: &[u8]) -> Result<(), Refused>
    ensures { Does S.reaches server.old server.new (Mkdirs session path.now) result }
{
    let length = path.len();
    let request = WireRequest::OnPath(PathOp::Mkdir(NO_ATTRS), ByteStr::new(path));
    succeed(server, session, &request, Place { kind: 14, length })
}

/// Makes a directory unless it exists.
fn make_one<S: Server>(server: &mut S, session: u64, path: &[u8]) -> Result<(), Refused>
    ensures { Does S.reaches server.old server.new (MakesOne session path.now) result }
{
    if finds(server, session, path)? {
        return Ok(());
    }
    mkdir(server, session, path)
}

/// As `make_one`, if a name ends at this index.
fn make_if<S: Server>(
    server: &mut S,
    session: u64,
    whole: bool,
    path: &[u8],
    at: usize,
) -> Result<(), Refused>
    requires { at < length path.now }
    ensures { Does S.reaches server.old server.new (MakesAt session whole path.now at) result }
{
    if ends_name(whole, path, at) {
        return make_one(server, session, &path[..at + 1]);
    }
    Ok(())
}

/// Makes the missing parents of a path, and its own directory if `whole`.
fn make_way<S: Server>(
    server: &mut S,
    session: u64,
    whole: bool,
    path: &[u8],
) -> Result<(), Refused>
    ensures { Does S.reaches server.old server.new (MakesWay session whole path.now) result }
{
    for at in 0..path.len() {
        make_if(server, session, whole, path, at)?;
    }
    Ok(())
}

/// The chunk of contents at an offset, of at most one WRITE.
fn piece_at(contents: &[u8], at: usize) -> &[u8]
    requires { at ≤ length contents.now }
    ensures is { result.now ≡ piece_at contents.now at }
    ensures few { length result.now ≤ piece }
{
    let rest = &contents[at..];
    let count = rest.len().min(PIECE);
    &rest[..count]
}

/// Writes one chunk of contents.
fn write_piece<S: Server>(
    server: &mut S,
    session: u64,
    named: usize,
    contents: &[u8],
    handle: u64,
    at: usize,
) -> Result<(), Refused>
    requires { at * piece ≤ length contents.now }
    ensures { Does S.reaches server.old server.new
        (WritesPiece session handle (request_place 6 named) contents.now at) result }
{
    let text = handle.to_be_bytes();
    let request = WireRequest::Write {
        handle: ByteStr::new(&text),
        offset: (at * PIECE) as u64,
        data: ByteStr::new(piece_at(contents, at * PIECE)),
    };
    succeed(
        server,
        session,
        &request,
        Place {
            kind: 6,
            length: named,
        },
    )
}

/// The number of chunks of contents with this length.
fn pieces_in(count: usize) -> usize
    requires { count < 2 ^ 63 }
    ensures { result ≡ pieces_in count }
{
    (count + (PIECE - 1)) / PIECE
}

/// Writes contents, chunk by chunk.
fn write_pieces<S: Server>(
    server: &mut S,
    session: u64,
    named: usize,
    contents: &[u8],
    handle: u64,
) -> Result<(), Refused>
    requires { length contents.now < 2 ^ 63 }
    ensures { Does S.reaches server.old server.new
        (WritesPieces session handle named contents.now) result }
{
    for at in 0..pieces_in(contents.len()) {
        write_piece(server, session, named, contents, handle, at)?;
    }
    Ok(())
}

/// Closes a handle.
fn close<S: Server>(server: &mut S, session: u64, named: usize, handle: u64) -> Result<(), Refused>
    ensures { Does S.reaches server.old server.new (ClosesHandle session handle named) result }
{
    let text = handle.to_be_bytes();
    let request = WireRequest::ByHandle(HandleOp::Close, ByteStr::new(&text));
    succeed(
        server,
        session,
        &request,
        Place {
            kind: 4,
            length: named,
        },
    )
}

/// Writes contents, and closes the handle.
fn write_all<S: Server>(
    server: &mut S,
    session: u64,
    named: usize,
    contents: &[u8],
    handle: u64,
) -> Result<(), Refused>
    requires { length contents.now < 2 ^ 63 }
    ensures { Does S.reaches server.old server.new
        (WritesContents session named contents.now handle) result }
{
    write_pieces(server, session, named, contents, handle)?;
    close(server, session, named, handle)
}

/// Opens a file.
fn open_file<S: Server>(
    server: &mut S,
    session: u64,
    path: &[u8],
    flags: OpenFlags,
    named: usize,
) -> Result<u64, Refused>
    ensures { Does S.reaches server.old server.new
        (OpensFile session path.now flags named) result }
{
    let request = WireRequest::OnPath(PathOp::Open(flags, NO_ATTRS), ByteStr::new(path));
    open(
        server,
        session,
        &request,
        Place {
            kind: 3,
            length: named,
        },
    )
}

/// Opens a file for writing and truncates it, writes its contents and closes it.
fn fill<S: Server>(
    server: &mut S,
    session: u64,
    path: &[u8],
    contents: &[u8],
) -> Result<(), Refused>
    requires { length contents.now < 2 ^ 63 }
    ensures { Does S.reaches server.old server.new (Fills session path.now contents.now) result }
{
    let named = path.len();
    let handle = open_file(server, session, path, TO_WRITE, named)?;
    write_all(server, session, named, contents, handle)
}

/// Makes a file and its missing parents.
fn write_on<S: Server>(
    server: &mut S,
    session: u64,
    path: &[u8],
    contents: &[u8],
) -> Result<(), Refused>
    requires { length contents.now < 2 ^ 63 }
    ensures { Does S.reaches server.old server.new
        (WritesMore path.now contents.now session) result }
{
    make_way(server, session, false, path)?;
    fill(server, session, path, contents)
}

/// Adds a link to a file.
fn link_alone<S: Server>(
    server: &mut S,
    session: u64,
    old: &[u8],
    new: &[u8],
) -> Result<(), Refused>
    ensures { Does S.reaches server.old server.new (LinksAlone session old.now new.now) result }
{
    let length = new.len();
    let request = WireRequest::OnPaths(PairOp::Link, ByteStr::new(old), ByteStr::new(new));
    succeed(server, session, &request, Place { kind: 202, length })
}

/// Adds a link to a file, and makes the missing parents of the new path.
fn link_on<S: Server>(server: &mut S, session: u64, old: &[u8], new: &[u8]) -> Result<(), Refused>
    ensures { Does S.reaches server.old server.new (LinksOn old.now new.now session) result }
{
    make_way(server, session, false, new)?;
    link_alone(server, session, old, new)
}

/// Makes the directory of a path, and its missing parents.
pub fn make_directory<S: Server>(server: &mut S, path: &[u8]) -> Result<(), Refused>
    ensures { Does S.reaches server.old server.new (MakesDirectory path.now) result }
{
    let session = begin(server)?;
    let made = make_way(server, session, true, path);
    server.finish(session);
    made
}

/// Makes a file, or replaces its contents. Makes its missing parents.
pub fn write_file<S: Server>(server: &mut S, path: &[u8], contents: &[u8]) -> Result<(), Refused>
    requires { length contents.now < 2 ^ 63 }
    ensures { Does S.reaches server.old server.new (WritesFile path.now contents.now) result }
{
    let session = begin(server)?;
    let made = write_on(server, session, path, contents);
    server.finish(session);
    made
}

/// Adds the new path as a link to the file of the old path. Makes the new path's missing parents.
pub fn link<S: Server>(server: &mut S, old: &[u8], new: &[u8]) -> Result<(), Refused>
    ensures { Does S.reaches server.old server.new (Links old.now new.now) result }
{
    let session = begin(server)?;
    let made = link_on(server, session, old, new);
    server.finish(session);
    made
}
