//! `sftpd`, an SFTP server with its tree in memory.
//!
//! `running.rt` begins what the words of the command line ask for (`sf_words`) on the system's
//! streams. What each command does is in `sf_program`.
#![tactic(auto)]

mod running;

use std::process::ExitCode;

fn main(rt: HostRuntime) -> ExitCode {
    ExitCode::from(running::run(&rt, &rt))
}
