//! The events that add records to a core's history.

use sf_call::Record;
use sf_core::{Core, Lane, Step};
use sf_roll::LogGrowth;
use std::snapshot::Snapshot;

/// A step of a call: core and lane before it, its result, core and lane after it. It has no bytes.
#[derive(Drop)]
pub struct CoreStep {
    pub before: Snapshot<Core>,
    pub lane_before: Snapshot<Lane>,
    pub made: Snapshot<Step>,
    pub after: Snapshot<Core>,
    pub lane_after: Snapshot<Lane>,
}

/// A step, or the end of the session with this number.
#[derive(Drop)]
pub enum HistoryGrowth {
    Steps(CoreStep),
    Leaves(u64),
}

impl LogGrowth<Record> for HistoryGrowth {
    ghost use Rattle.sf_noted.specs.Growth.{MayAdd};

    ghost may_add = { MayAdd };
}
