//! Requests in a line.

ghost use Rattle.std.specs.Prelude.{◌≡◌};
ghost use Rattle.std.specs.Fmt.{WritesOnOk};
ghost use Rattle.sf_log.specs.Lines.{logged_size, logged_owner, logged_mode, logged_times, flag_text, access_text, making_text, has_access};

use crate::path::QuotedPath;
use sf_call::Request;
use sf_field::{Attrs, HandleOp, OpenFlags, Owner, PairOp, PathOp, Times};
use std::fmt;

/// The attributes that are present, each after a space.
#[derive(Clone, Copy)]
pub(crate) struct AttrsText<'a>(pub(crate) &'a Attrs);

/// The flags that are set, after the word `flags`.
#[derive(Clone, Copy)]
struct FlagsText(OpenFlags);

/// A request's name, and its paths and numbers.
#[derive(Clone, Copy)]
pub(crate) struct RequestText<'a>(pub(crate) &'a Request);

fn write_size<W: fmt::Write>(f: &mut fmt::Formatter<W>, size: Option<u64>) -> fmt::Result
    ensures { WritesOnOk W.write_str_gives f.old result (logged_size size) f.new }
{
    match size {
        Some(size) => write!(f, " size {size}"),
        None => f.write_str(""),
    }
}

fn write_owner<W: fmt::Write>(f: &mut fmt::Formatter<W>, owner: Option<Owner>) -> fmt::Result
    ensures { WritesOnOk W.write_str_gives f.old result (logged_owner owner) f.new }
{
    match owner {
        Some(Owner { uid, gid }) => write!(f, " uid {uid} gid {gid}"),
        None => f.write_str(""),
    }
}

fn write_mode<W: fmt::Write>(f: &mut fmt::Formatter<W>, permissions: Option<u32>) -> fmt::Result
    ensures { WritesOnOk W.write_str_gives f.old result (logged_mode permissions) f.new }
{
    match permissions {
        Some(permissions) => write!(f, " mode 0{permissions:o}"),
        None => f.write_str(""),
    }
}

fn write_times<W: fmt::Write>(f: &mut fmt::Formatter<W>, times: Option<Times>) -> fmt::Result
    ensures { WritesOnOk W.write_str_gives f.old result (logged_times times) f.new }
{
    match times {
        Some(Times { atime, mtime }) => write!(f, " atime {atime} mtime {mtime}"),
        None => f.write_str(""),
    }
}

impl fmt::Display for AttrsText<'_> {
    ghost use Rattle.std.specs.Prelude.{Some};
    ghost use Rattle.sf_log.specs.Lines.{logged_attrs};

    ghost output = { λ attrs. Some (logged_attrs attrs.0.now) };

    fn fmt<W: fmt::Write>(&self, f: &mut fmt::Formatter<W>) -> fmt::Result {
        let attrs = *self.0;
        write_size(f, attrs.size)?;
        write_owner(f, attrs.owner)?;
        write_mode(f, attrs.permissions)?;
        write_times(f, attrs.times)
    }
}

/// A flag's name if it is set, after a comma if it `follows` another.
fn write_flag<W: fmt::Write>(
    f: &mut fmt::Formatter<W>,
    is_set: bool,
    follows: bool,
    name: &str,
) -> fmt::Result
    ensures { WritesOnOk W.write_str_gives f.old result (flag_text is_set follows name.now) f.new }
{
    if !is_set {
        return f.write_str("");
    }
    if follows {
        f.write_str(",")?;
    }
    f.write_str(name)
}

/// The flags READ, WRITE and APPEND.
fn write_access<W: fmt::Write>(f: &mut fmt::Formatter<W>, flags: OpenFlags) -> fmt::Result
    ensures { WritesOnOk W.write_str_gives f.old result (access_text flags) f.new }
{
    write_flag(f, flags.read, false, "READ")?;
    write_flag(f, flags.write, flags.read, "WRITE")?;
    write_flag(f, flags.append, flags.read || flags.write, "APPEND")
}

/// The flags CREATE, TRUNCATE and EXCL.
fn write_making<W: fmt::Write>(
    f: &mut fmt::Formatter<W>,
    follows: bool,
    flags: OpenFlags,
) -> fmt::Result
    ensures { WritesOnOk W.write_str_gives f.old result (making_text follows flags) f.new }
{
    write_flag(f, flags.create, follows, "CREATE")?;
    write_flag(f, flags.truncate, follows || flags.create, "TRUNCATE")?;
    let follows = follows || flags.create || flags.truncate;
    write_flag(f, flags.exclusive, follows, "EXCL")
}

/// Whether READ, WRITE or APPEND is set.
fn has_access(flags: OpenFlags) -> bool
    ensures { result ≡ has_access flags }
{
    flags.read || flags.write || flags.append
}

impl fmt::Display for FlagsText {
    ghost use Rattle.std.specs.Prelude.{Some};
    ghost use Rattle.sf_log.specs.Lines.{flags_text};

    ghost output = { λ flags. Some (flags_text flags.0) };

    fn fmt<W: fmt::Write>(&self, f: &mut fmt::Formatter<W>) -> fmt::Result {
        let flags = self.0;
        f.write_str(" flags ")?;
        write_access(f, flags)?;
        write_making(f, has_access(flags), flags)
    }
}

impl fmt::Display for RequestText<'_> {
    ghost use Rattle.std.specs.Prelude.{Some};
    ghost use Rattle.sf_log.specs.Lines.{request_text};

    ghost output = { λ request. Some (request_text request.0.now) };

    fn fmt<W: fmt::Write>(&self, f: &mut fmt::Formatter<W>) -> fmt::Result {
        match self.0 {
            Request::OnPath(PathOp::Stat, path) => write!(f, "stat {}", QuotedPath(path)),
            Request::OnPath(PathOp::SetStat(attrs), path) => {
                write!(f, "setstat {}{}", QuotedPath(path), AttrsText(attrs))
            }
            Request::OnPath(PathOp::Mkdir(attrs), path) => {
                write!(f, "mkdir {}{}", QuotedPath(path), AttrsText(attrs))
            }
            Request::OnPath(PathOp::Rmdir, path) => write!(f, "rmdir {}", QuotedPath(path)),
            Request::OnPath(PathOp::Remove, path) => write!(f, "remove {}", QuotedPath(path)),
            Request::OnPath(PathOp::OpenDir, path) => write!(f, "opendir {}", QuotedPath(path)),
            Request::OnPath(PathOp::Open(flags, attrs), path) => write!(
                f,
                "open {}{}{}",
                QuotedPath(path),
                FlagsText(*flags),
                AttrsText(attrs)
            ),
            Request::ByHandle(HandleOp::Close, handle) => write!(f, "close handle {handle}"),
            Request::ByHandle(HandleOp::FStat, handle) => write!(f, "fstat handle {handle}"),
            Request::ByHandle(HandleOp::FSetStat(attrs), handle) => {
                write!(f, "fsetstat handle {handle}{}", AttrsText(attrs))
            }
            Request::ByHandle(HandleOp::Read { offset, len }, handle) => {
                write!(f, "read handle {handle} offset {offset} length {len}")
            }
            Request::Write {
                handle,
                offset,
                data,
            } => {
                let len = data.len();
                write!(f, "write handle {handle} offset {offset} length {len}")
            }
            Request::ByHandle(HandleOp::ReadDir, handle) => write!(f, "readdir handle {handle}"),
            Request::OnPaths(PairOp::Rename, old, new) => {
                write!(f, "rename {} {}", QuotedPath(old), QuotedPath(new))
            }
            Request::OnPaths(PairOp::PosixRename, old, new) => {
                write!(f, "posix-rename {} {}", QuotedPath(old), QuotedPath(new))
            }
            Request::OnPaths(PairOp::Link, old, new) => {
                write!(f, "hardlink {} {}", QuotedPath(old), QuotedPath(new))
            }
        }
    }
}
