//! Loads a local folder into the tree before the first client is served.

ghost use Rattle.std.specs.Prelude.{◌<◌, IfOk};
ghost use Rattle.sf_program.specs.Loading.{IsLoaded};

use crate::reporting::report_out_of_memory;
use sf_asking::Asker;
use sf_clock::SystemClock;
use sf_engine::Engine;
use sf_folder::{LocalFolder, shown};
use sf_loading::{Folder, FolderFault, LoadFault, load};
use sf_session::Clock;
use sf_trees::{Server, TreeFault};
use std::alloc::Global;
use std::io::Write;

/// The folder was not loaded, and the reason was reported on standard error.
#[derive(Clone, Copy, Debug, PartialEq, Eq)]
pub struct NotLoaded;

/// Reports why a folder was not loaded, unless `LocalFolder` has reported it.
fn report_fault(rt: &HostRuntime, folder: &LocalFolder<'_>, fault: LoadFault) -> NotLoaded {
    let _ = match fault {
        LoadFault::Folder(FolderFault::Unreadable) => Ok(()),
        LoadFault::Server(TreeFault::OutOfMemory) | LoadFault::Folder(_) | LoadFault::TooMany => {
            report_out_of_memory(rt)
        }
        LoadFault::Server(why) => match shown(rt.alloc(), folder.path()) {
            Ok(path) => writeln!(rt.stderr(), "sftpd: cannot make: {path}: {why}"),
            Err(_) => report_out_of_memory(rt),
        },
    };
    NotLoaded
}

/// Opens the folder, or reports why it can't be read.
fn open_folder<'a>(
    rt: &'a HostRuntime,
    path: &'a str,
    is_strict: bool,
) -> Result<LocalFolder<'a>, NotLoaded> {
    match LocalFolder::open(rt, path, is_strict) {
        Ok(folder) => Ok(folder),
        Err(fault) => {
            if fault != FolderFault::Unreadable {
                let _ = report_out_of_memory(rt);
            }
            Err(NotLoaded)
        }
    }
}

/// Loads a folder into a server's tree, or reports why it can't. If `is_strict`, a change of the
/// folder while it is read is an error.
pub fn load_folder<S: Server>(
    rt: &HostRuntime,
    path: &str,
    is_strict: bool,
    server: &mut S,
) -> Result<(), NotLoaded> {
    let mut folder = open_folder(rt, path, is_strict)?;
    match load(&mut folder, server) {
        Ok(()) => Ok(()),
        Err(fault) => Err(report_fault(rt, &folder, fault)),
    }
}

/// A new engine that keeps the last `keep` records, with all that the folder has. One session
/// creates it, with this timestamp.
pub fn load_engine<F: Folder>(
    alloc: Global,
    keep: usize,
    moment: u32,
    folder: &mut F,
) -> Result<Box<Engine>, LoadFault>
    requires { 0 < keep }
    ensures { IfOk result (λ engine. IsLoaded keep moment (F.items folder.old) (F.items folder.new)
        engine.value) }
{
    let Ok(engine) = Engine::with_keep(alloc, keep) else {
        return Err(LoadFault::Server(TreeFault::OutOfMemory));
    };
    let Ok(engine) = Box::new(alloc, engine) else {
        return Err(LoadFault::Server(TreeFault::OutOfMemory));
    };
    let mut asker = Asker::new(engine, alloc, moment);
    match load(folder, &mut asker) {
        Ok(()) => Ok(asker.into_engine()),
        Err(fault) => Err(fault),
    }
}

/// `load_engine` of a local folder, at the system's time. Reports why there is no engine.
pub fn engine_of_folder(
    rt: &HostRuntime,
    keep: usize,
    path: &str,
    is_strict: bool,
) -> Result<Box<Engine>, NotLoaded>
    requires { 0 < keep }
{
    let mut folder = open_folder(rt, path, is_strict)?;
    let moment = SystemClock::new(rt).now();
    match load_engine(rt.alloc(), keep, moment, &mut folder) {
        Ok(engine) => Ok(engine),
        Err(fault) => Err(report_fault(rt, &folder, fault)),
    }
}
