//! Building trees, by requests of sessions that are opened for it.

ghost use Rattle.std.specs.Prelude.{◌≡◌, ◌<◌, ◌^◌, length};
ghost use Rattle.sf_trees.specs.Makings.{MakesDirectory, WritesFile, Links};
ghost use Rattle.sf_c.specs.Making.{tree_fault_number, DoesIn, TellsMade};

use sf_asking::Asker;
use sf_engine::Engine;
use sf_trees::{Refused, TreeFault, link, make_directory, write_file};
use std::alloc::Global;

/// The request that failed, and the length in bytes of the prefix of the given path that it was
/// about.
#[repr(C)]
#[derive(Clone, Copy, Debug)]
pub struct At {
    pub length: u64,
    pub kind: u32,
}

/// The number of an error.
fn tree_fault_number(fault: TreeFault) -> i64
    ensures { result ≡ tree_fault_number fault }
{
    match fault {
        TreeFault::OutOfMemory => -1,
        TreeFault::Sessions => -3,
        TreeFault::NumbersSpent => -5,
        TreeFault::Blocked => -8,
        TreeFault::Path => -10,
        TreeFault::Reply => -11,
        TreeFault::Status(code) => -100 - i64::from(code.number()),
    }
}

/// The number of the result, and where it failed.
pub fn tell_made(made: Result<(), Refused>, at: &mut At) -> i64
    ensures { TellsMade made result at.new }
{
    match made {
        Ok(()) => {
            *at = At { length: 0, kind: 0 };
            0
        }
        Err(Refused { fault, place }) => {
            *at = At {
                length: place.length as u64,
                kind: place.kind,
            };
            tree_fault_number(fault)
        }
    }
}

/// Makes the directory of a path.
pub fn make_directory_in(
    engine: Box<Engine, Global>,
    alloc: Global,
    moment: u32,
    path: &[u8],
) -> (Box<Engine, Global>, Result<(), Refused>)
    ensures { DoesIn moment (MakesDirectory path.now) engine.value result.1 result.0.value }
{
    let mut asker = Asker::new(engine, alloc, moment);
    let made = make_directory(&mut asker, path);
    (asker.into_engine(), made)
}

/// Makes a file, or replaces its contents.
pub fn write_file_in(
    engine: Box<Engine, Global>,
    alloc: Global,
    moment: u32,
    path: &[u8],
    contents: &[u8],
) -> (Box<Engine, Global>, Result<(), Refused>)
    requires { length contents.now < 2 ^ 63 }
    ensures { DoesIn moment (WritesFile path.now contents.now) engine.value result.1
        result.0.value }
{
    let mut asker = Asker::new(engine, alloc, moment);
    let made = write_file(&mut asker, path, contents);
    (asker.into_engine(), made)
}

/// Adds a link to a file.
pub fn link_in(
    engine: Box<Engine, Global>,
    alloc: Global,
    moment: u32,
    old: &[u8],
    new: &[u8],
) -> (Box<Engine, Global>, Result<(), Refused>)
    ensures { DoesIn moment (Links old.now new.now) engine.value result.1 result.0.value }
{
    let mut asker = Asker::new(engine, alloc, moment);
    let made = link(&mut asker, old, new);
    (asker.into_engine(), made)
}
