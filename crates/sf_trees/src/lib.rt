//! Builds directory trees on an SFTP server, by ordinary requests.
//!
//! Start with `write_file`. `specs/Makings.antt` defines what each function does on a `Server`, as
//! a list of operations (`specs/Operations.antt`).
#![tactic(auto)]

mod fault;
mod length;
mod making;
mod server;

pub use fault::{Place, Refused, TreeFault};
pub use length::is_too_long;
pub use making::{link, make_directory, write_file};
pub use server::Server;
