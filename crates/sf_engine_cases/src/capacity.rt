//! The room of a history that is trimmed.

use sf_book::Book;
use sf_call::{Record, Request};
use sf_field::HandleOp;
use sf_reply::{Reply, StatusCode};
use std::test::*;

/// The record of a call of this number.
fn close(number: u64) -> Record {
    Record::Did {
        number,
        session: 1,
        moment: 100,
        request: Request::ByHandle(HandleOp::Close, 9),
        reply: Reply::Status(StatusCode::Success),
    }
}

/// The room doesn't grow with the records that were dropped.
#[test]
fn room_stays_small(rt: HostRuntime) -> Result<(), Fail> {
    let mut book = Book::with_keep(rt.alloc(), 2);
    for number in 1..1000 {
        book.reserve(2)?;
        book.put(close(number));
        assert!(rt; book.room() <= 16, "after {number}");
    }
    Ok(())
}
