//! Types that cross threads.

use sf_call::Record;
use sf_noted::{NotedCore, NotedLane, Page, Visit};
use sf_pool::{EndedLane, TranscriptLane, WaitQueue};
use sf_roll::{Keeper, Log, NewRoll, Seen, Ticket};
use std::marker::Brand;
use std::test::*;

fn crosses<T: Send>() {}

fn is_shared<T: Sync>() {}

#[test]
fn all_may_cross_threads() {
    crosses::<NewRoll<Page, Record>>();
    crosses::<Keeper<Page, Brand>>();
    crosses::<Ticket<Page, Brand>>();
    crosses::<Log<Record, Brand>>();
    crosses::<Seen<Record, Brand>>();
    crosses::<NotedCore<Brand>>();
    crosses::<NotedLane<Brand>>();
    crosses::<Visit<Brand>>();
    crosses::<TranscriptLane<Brand>>();
    crosses::<EndedLane<Brand>>();
    is_shared::<WaitQueue>();
}
