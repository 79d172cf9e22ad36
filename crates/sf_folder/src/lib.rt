//! Reads a local folder, as the contents of a new tree.
//!
//! Start with `LocalFolder` in `walk.rt`, which walks a folder in the order of its names. It opens
//! each name (`opening.rt`), and what was opened decides what it is (`stat.rt`). `names.rt` lists a
//! directory, and `file.rt` reads a file. The system's calls are the trait `Descriptor` of
//! `system.rt`: whatever it returns, all names are listed once and in order, and all bytes are
//! read. That the system's files are as it says is tested, not proved. On standard error it reports
//! what it leaves out, what it can't read, what changed meanwhile and, on a terminal, its progress.
#![tactic(auto)]

mod file;
mod names;
mod opening;
mod stat;
mod system;
mod telling;
mod walk;

pub use telling::shown;
pub use walk::LocalFolder;
