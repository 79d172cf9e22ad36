//! Laws of the sequential specification: what a reader expects of a file server, stated without the
//! cases of each request. It also has worked examples.
//!
//! The definitions are those of `sf_call`. Each function does nothing: its contract is the law.
//! Start with `left_alone` and `own_changes` in `change_laws.rt` (what a request may change), then
//! `listed_all` (a listing is complete) and `limits_hold`. Their terms are in `specs/Own.antt` and
//! `specs/LeftAlone.antt`. `cases.rt` has single cases, on the small trees of
//! `specs/Examples.antt`. No code depends on the laws. Two proofs do: that of `sf_core`, on what a
//! request leaves alone, and the example of `sf_engine`.
#![tactic(auto)]

mod cases;
mod change_laws;
mod handle_laws;
mod history_laws;
mod listing_laws;

pub use cases::{
    file_cases, handle_cases, history_cases, link_cases, listing_cases, mkdir_cases, move_cases,
    open_cases, packet_cases, path_cases, rename_cases, rmdir_cases, stat_cases,
};
pub use change_laws::{
    directory_links, idle_calls, kinds_stay, left_alone, linked_files, moving_renames,
    names_of_one_file, nothing_unused, own_changes, parents_stay, refusals_change_nothing,
    removed_names, still_moves,
};
pub use handle_laws::{limits_hold, new_handles, open_handles};
pub use history_laws::equal_replies;
pub use listing_laws::{listed_all, listed_in_order};
