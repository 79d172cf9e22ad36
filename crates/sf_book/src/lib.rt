//! The history of all calls, in memory reserved in advance.
//!
//! Start with `Book`. Space is reserved first; adding a record then allocates nothing and can't
//! fail. A book retains all records or the last N, and counts the calls among the dropped ones.
//! `specs/Books.antt` defines its value in contracts; read the contracts of `reserve` and `put`.
#![tactic(auto)]

mod book;

pub use book::Book;
