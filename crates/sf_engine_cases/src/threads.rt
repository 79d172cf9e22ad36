//! What may cross threads.

use sf_call::Leaf;
use sf_engine::{Engine, Event};
use sf_plain::PlainTree;
use std::test::*;

fn crosses<T: Send>() {}

#[test]
fn all_may_cross_threads() {
    crosses::<Engine>();
    crosses::<Event>();
    crosses::<Leaf>();
    crosses::<PlainTree>();
}
