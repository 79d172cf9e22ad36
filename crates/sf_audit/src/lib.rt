//! A run-time check of a server: do the replies that sessions received match the core's history?
//!
//! Start with `audit` in `audits.rt`. A `Transcript` contains the calls of one session and their
//! replies, and `audit` compares transcripts with the retained history (`specs/Audits.antt`).
//! `Totals` has the number of a core's calls.
#![tactic(auto)]

mod audits;
mod same;
mod totals;
mod transcript;

pub use audits::{AuditFault, audit};
pub use totals::Totals;
pub use transcript::{AnsweredCall, Transcript};
