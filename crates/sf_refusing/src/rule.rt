//! Rules: which requests are refused.

ghost use Rattle.std.specs.Prelude.{◌≡◌, ◌++◌, IfOk, OnOk};
ghost use Rattle.sf_refusing.specs.Rules.{kind_asked, paths_of, path_in, names_path, fits};

use sf_field::{HandleOp, PairOp, PathOp};
use sf_path::{Path, PathFault};
use sf_reply::StatusCode;
use sf_request::WireRequest;
use std::alloc::{AllocError, Global};

/// The kind of a request, without its fields.
#[derive(Clone, Copy, Debug, PartialEq, Eq)]
pub enum RequestKind {
    Open,
    Close,
    Read,
    Write,
    LStat,
    FStat,
    SetStat,
    FSetStat,
    OpenDir,
    ReadDir,
    Remove,
    Mkdir,
    Rmdir,
    RealPath,
    Stat,
    Rename,
    PosixRename,
    Link,
}

/// Which requests are refused, how many, and with which status. A missing session, kind or path
/// matches any.
#[derive(Debug, Drop)]
pub struct Rule {
    pub session: Option<u64>,
    pub kind: Option<RequestKind>,
    /// A request matches if it names this path, in any spelling. A request by a handle names none.
    pub path: Option<Path>,
    /// The number of matching requests that pass first.
    pub pass: u64,
    /// The number of matching requests that are refused after these. Later ones pass.
    pub refuse: u64,
    /// The status code of the reply, with that code's own message.
    pub code: StatusCode,
}

/// The parts of a request that rules examine.
#[derive(Debug, Drop)]
pub(crate) struct Subject {
    pub session: u64,
    pub kind: RequestKind,
    pub paths: Vec<Path>,
}

/// The kind of a request.
fn kind_asked(request: &WireRequest) -> RequestKind
    ensures { result ≡ kind_asked request.now }
{
    match request {
        WireRequest::OnPath(PathOp::Open(..), _) => RequestKind::Open,
        WireRequest::ByHandle(HandleOp::Close, _) => RequestKind::Close,
        WireRequest::ByHandle(HandleOp::Read { .. }, _) => RequestKind::Read,
        WireRequest::Write { .. } => RequestKind::Write,
        WireRequest::LStat(_) => RequestKind::LStat,
        WireRequest::ByHandle(HandleOp::FStat, _) => RequestKind::FStat,
        WireRequest::OnPath(PathOp::SetStat(_), _) => RequestKind::SetStat,
        WireRequest::ByHandle(HandleOp::FSetStat(_), _) => RequestKind::FSetStat,
        WireRequest::OnPath(PathOp::OpenDir, _) => RequestKind::OpenDir,
        WireRequest::ByHandle(HandleOp::ReadDir, _) => RequestKind::ReadDir,
        WireRequest::OnPath(PathOp::Remove, _) => RequestKind::Remove,
        WireRequest::OnPath(PathOp::Mkdir(_), _) => RequestKind::Mkdir,
        WireRequest::OnPath(PathOp::Rmdir, _) => RequestKind::Rmdir,
        WireRequest::RealPath(_) => RequestKind::RealPath,
        WireRequest::OnPath(PathOp::Stat, _) => RequestKind::Stat,
        WireRequest::OnPaths(PairOp::Rename, _, _) => RequestKind::Rename,
        WireRequest::OnPaths(PairOp::PosixRename, _, _) => RequestKind::PosixRename,
        WireRequest::OnPaths(PairOp::Link, _, _) => RequestKind::Link,
    }
}

/// Adds the path of a text, if it is valid.
fn push_path(alloc: Global, text: &[u8], paths: &mut Vec<Path>) -> Result<(), AllocError>
    ensures { OnOk result (paths.new.items ≡ paths.old.items ++ path_in text.now) }
{
    match Path::parse(alloc, text) {
        Ok(path) => Ok(paths.push(path)?),
        Err(PathFault::OutOfMemory) => Err(AllocError),
        Err(PathFault::TooLong | PathFault::NameTooLong | PathFault::NulByte) => Ok(()),
    }
}

/// The paths that a request names.
fn paths_of(alloc: Global, request: &WireRequest) -> Result<Vec<Path>, AllocError>
    ensures { IfOk result (λ paths. paths.items ≡ paths_of request.now) }
{
    let mut paths = Vec::new(alloc);
    match request {
        WireRequest::OnPath(_, path) | WireRequest::LStat(path) | WireRequest::RealPath(path) =>
            push_path(alloc, path.as_slice(), &mut paths)?,
        WireRequest::OnPaths(_, old, new) => {
            push_path(alloc, old.as_slice(), &mut paths)?;
            push_path(alloc, new.as_slice(), &mut paths)?;
        }
        WireRequest::ByHandle(_, _) | WireRequest::Write { .. } => {}
    }
    Ok(paths)
}

impl Subject {
    /// The subject of a session's request.
    pub(crate) fn of(
        alloc: Global,
        session: u64,
        request: &WireRequest,
    ) -> Result<Subject, AllocError>
        ensures session { IfOk result (λ subject. subject.session ≡ session) }
        ensures kind { IfOk result (λ subject. subject.kind ≡ kind_asked request.now) }
        ensures paths { IfOk result (λ subject. subject.paths.items ≡ paths_of request.now) }
    {
        let paths = paths_of(alloc, request)?;
        Ok(Subject {
            session,
            kind: kind_asked(request),
            paths,
        })
    }

    /// Whether a path is among the named ones.
    fn names(&self, path: &Path) -> bool
        ensures { result ≡ names_path self.now.paths.items path.now }
    {
        self.paths.iter().any(|named| named == path)
    }
}

impl Rule {
    /// Whether the rule matches this request.
    pub(crate) fn fits(&self, subject: &Subject) -> bool
        ensures { result ≡ fits self.now subject.now.session subject.now.kind
            subject.now.paths.items }
    {
        if let Some(session) = self.session
            && session != subject.session
        {
            return false;
        }
        if let Some(kind) = self.kind
            && kind != subject.kind
        {
            return false;
        }
        match &self.path {
            Some(path) => subject.names(path),
            None => true,
        }
    }
}
