//! The deterministic SFTP engine as a library for C.
//!
//! Start with `lucernetick_turn`. Each function takes an engine as an `EngineHandle` (`handle.rt`),
//! makes one event, and returns the engine and a number; `specs/Numbers.antt` defines the numbers.
//! Bytes and turns pass through the engine's fault injection, a `RefusalsHandle`:
//! `specs/Journals.antt` says what they add to the journal of both, and `specs/Rules.antt` what a
//! rule is. Sessions open and close on the engine itself (`sf_refusing::events_apart`), and so do
//! those that build trees (`specs/Making.antt`). A snapshot of the tree is a `TreeHandle`
//! (`specs/Trees.antt`).
//!
//! `bindings/c/lucernetick.c` implements the functions of `include/lucernetick.h` by calling these.
#![tactic(auto)]

ghost use Rattle.std.specs.Prelude.{◌≡◌, ◌++◌, length, take, drop, None, IsSome, IfOk, IfSome};
ghost use Rattle.sf_engine.specs.declared.event.Event.TheVariants as event;
ghost use Rattle.sf_trees.specs.Makings.{MakesDirectory, WritesFile, Links};
ghost use Rattle.sf_c.specs.Records.{TellsRecord};
ghost use Rattle.sf_c.specs.Journals.{InBoth, OfBoth, FeedsBytes, SendsBytes, TurnsOnce, Settles, SaysItWaits, Outputs};
ghost use Rattle.sf_c.specs.Rules.{TakesRule, TellsRefused};
ghost use Rattle.sf_c.specs.Making.{AnswersMade};
ghost use Rattle.sf_c.specs.Trees.{TakesTree, TellsLeaf, ReadsLeaf, TellsGap};
ghost use Rattle.sf_c.specs.Numbers.{AnswersNumber, KeepsLastRecords, RunsAll, IsFresh, IsNewEngine};

mod handle;
mod leaves;
mod making;
mod number;
mod record_parts;
mod rules;
mod turns;

use handle::{EngineHandle, RefusalsHandle, TreeHandle};
use leaves::{LeafParts, copy_leaf, gap_at, read_leaf, tree_of};
use making::{At, link_in, make_directory_in, tell_made, write_file_in};
use record_parts::{RecordParts, recount};
use rules::{RuleParts, give_rule, tell_refused};
use sf_engine::{Engine, Event};
use sf_refusing::Refusals;
use std::alloc::{AllocError, Global};
use turns::{apply, feed, sent, settle_at, turn};

/// Makes an engine that retains the last `keep` records, or all of them for 0.
fn new_engine(alloc: Global, keep: u64) -> Result<Engine, AllocError>
    ensures { IfOk result (λ engine. IsFresh keep engine) }
{
    if keep == 0 {
        return Engine::new(alloc);
    }
    Engine::with_keep(alloc, keep as usize)
}

/// Makes an engine and its refusals, in empty handles. Returns 0, or -1 if memory runs out; the
/// handles are then empty.
#[unsafe(no_mangle)]
pub extern "C" fn lucernetick_new(
    alloc: Global,
    held: &mut EngineHandle,
    refusing: &mut RefusalsHandle,
    keep: u64,
) -> i64
    requires engine { held.old.engine ≡ None }
    requires refusals { refusing.old.refusals ≡ None }
    ensures { IsNewEngine keep result held.new.engine refusing.new.refusals }
{
    let Ok(engine) = new_engine(alloc, keep) else {
        return -1;
    };
    let Ok(engine) = Box::new(alloc, engine) else {
        return -1;
    };
    let Ok(refusals) = Box::new(alloc, Refusals::new(alloc)) else {
        return -1;
    };
    held.put(engine);
    refusing.put(refusals);
    0
}

/// Drops an engine and its refusals.
#[unsafe(no_mangle)]
pub extern "C" fn lucernetick_free(
    alloc: Global,
    held: &mut EngineHandle,
    refusing: &mut RefusalsHandle,
)
    requires engine { IsSome held.old.engine }
    requires refusals { IsSome refusing.old.refusals }
    ensures engine { held.new.engine ≡ None }
    ensures refusals { refusing.new.refusals ≡ None }
{
    let _engine = held.take(alloc);
    let _refusals = refusing.take(alloc);
}

/// Applies an event, and returns its number.
fn answer(alloc: Global, held: &mut EngineHandle, event: &Event) -> i64
    requires { IsSome held.old.engine }
    ensures { AnswersNumber held.old.engine event.now result held.new.engine }
{
    let mut engine = held.take(alloc);
    let number = apply(&mut engine, event);
    held.put(engine);
    number
}

/// Opens a session.
#[unsafe(no_mangle)]
pub extern "C" fn lucernetick_open(alloc: Global, held: &mut EngineHandle) -> i64
    requires { IsSome held.old.engine }
    ensures { AnswersNumber held.old.engine event.Open result held.new.engine }
{
    answer(alloc, held, &Event::Open)
}

/// Feeds bytes to a session.
#[unsafe(no_mangle)]
pub extern "C" fn lucernetick_feed(
    alloc: Global,
    held: &mut EngineHandle,
    refusing: &mut RefusalsHandle,
    session: u64,
    bytes: &[u8],
) -> i64
    requires engine { IsSome held.old.engine }
    requires refusals { IsSome refusing.old.refusals }
    ensures { InBoth held.old.engine refusing.old.refusals (FeedsBytes session bytes.now result)
        held.new.engine refusing.new.refusals }
{
    let mut engine = held.take(alloc);
    let mut refusals = refusing.take(alloc);
    let number = feed(&mut engine, &mut refusals, session, bytes);
    held.put(engine);
    refusing.put(refusals);
    number
}

/// Takes one turn of a session, at the timestamp `moment` in seconds since 1970.
#[unsafe(no_mangle)]
pub extern "C" fn lucernetick_turn(
    alloc: Global,
    held: &mut EngineHandle,
    refusing: &mut RefusalsHandle,
    session: u64,
    moment: u32,
) -> i64
    requires engine { IsSome held.old.engine }
    requires refusals { IsSome refusing.old.refusals }
    ensures { InBoth held.old.engine refusing.old.refusals (TurnsOnce session moment result)
        held.new.engine refusing.new.refusals }
{
    let mut engine = held.take(alloc);
    let mut refusals = refusing.take(alloc);
    let number = turn(&mut engine, &mut refusals, session, moment);
    held.put(engine);
    refusing.put(refusals);
    number
}

/// Takes turns of a session, until one makes no progress or `most` replies are written. Reports
/// whether anything progressed.
#[unsafe(no_mangle)]
pub extern "C" fn lucernetick_settle(
    alloc: Global,
    held: &mut EngineHandle,
    refusing: &mut RefusalsHandle,
    session: u64,
    moment: u32,
    most: u64,
    moved: &mut bool,
) -> i64
    requires engine { IsSome held.old.engine }
    requires refusals { IsSome refusing.old.refusals }
    ensures { InBoth held.old.engine refusing.old.refusals
        (Settles most session moment result moved.new) held.new.engine refusing.new.refusals }
{
    let mut engine = held.take(alloc);
    let mut refusals = refusing.take(alloc);
    let number = settle_at(&mut engine, &mut refusals, session, moment, most, moved);
    held.put(engine);
    refusing.put(refusals);
    number
}

/// Takes rounds of turns, until no call is unanswered. Returns the number of rounds.
#[unsafe(no_mangle)]
pub extern "C" fn lucernetick_run_all(alloc: Global, held: &mut EngineHandle) -> u64
    requires { IsSome held.old.engine }
    ensures { RunsAll held.old.engine result held.new.engine }
{
    let mut engine = held.take(alloc);
    let rounds = engine.run_all();
    held.put(engine);
    rounds
}

/// Closes a session.
#[unsafe(no_mangle)]
pub extern "C" fn lucernetick_close(alloc: Global, held: &mut EngineHandle, session: u64) -> i64
    requires { IsSome held.old.engine }
    ensures { AnswersNumber held.old.engine (event.Close session) result held.new.engine }
{
    answer(alloc, held, &Event::Close(session))
}

/// Removes the first bytes of a session's output, which were sent.
#[unsafe(no_mangle)]
pub extern "C" fn lucernetick_sent(
    alloc: Global,
    held: &mut EngineHandle,
    refusing: &mut RefusalsHandle,
    session: u64,
    count: usize,
) -> i64
    requires engine { IsSome held.old.engine }
    requires refusals { IsSome refusing.old.refusals }
    ensures { InBoth held.old.engine refusing.old.refusals (SendsBytes session count result)
        held.new.engine refusing.new.refusals }
{
    let mut engine = held.take(alloc);
    let mut refusals = refusing.take(alloc);
    let number = sent(&mut engine, &mut refusals, session, count);
    held.put(engine);
    refusing.put(refusals);
    number
}

/// Whether a session needs input: it is idle, and no whole packet is buffered. False for a number
/// without a session.
#[unsafe(no_mangle)]
pub extern "C" fn lucernetick_wants_bytes(
    alloc: Global,
    held: &mut EngineHandle,
    refusing: &mut RefusalsHandle,
    session: u64,
) -> bool
    requires engine { IsSome held.old.engine }
    requires refusals { IsSome refusing.old.refusals }
    ensures same { held.new.engine ≡ held.old.engine }
    ensures unchanged { refusing.new.refusals ≡ refusing.old.refusals }
    ensures wants { OfBoth held.old.engine refusing.old.refusals
        (λ e r. SaysItWaits e r session result) }
{
    let engine = held.take(alloc);
    let refusals = refusing.take(alloc);
    let wants = wants_bytes(&engine, &refusals, session);
    held.put(engine);
    refusing.put(refusals);
    wants
}

/// Whether a session needs input.
fn wants_bytes(engine: &Engine, refusals: &Refusals, session: u64) -> bool
    ensures { SaysItWaits engine.now refusals.now session result }
{
    refusals.wants_bytes(engine, session)
}

/// Copies bytes, as many as fit into `room`.
fn copy_front(room: &mut [u8], bytes: &[u8])
    ensures { room.new ≡ take (length room.old) bytes.now ++ drop (length bytes.now) room.old }
{
    let count = bytes.len().min(room.len());
    room[..count].copy_from_slice(&bytes[..count]);
}

/// Copies the first bytes of a session's output, and returns its length, or -2 without such a
/// session.
fn copy_output(engine: &Engine, refusals: &Refusals, session: u64, room: &mut [u8]) -> i64
    ensures { Outputs engine.now refusals.now session room.old result room.new }
{
    let Some(output) = refusals.output(engine, session) else {
        return -2;
    };
    copy_front(room, output);
    output.len() as i64
}

/// Copies the first bytes of a session's output into `room`. Returns the output's length.
#[unsafe(no_mangle)]
pub extern "C" fn lucernetick_output(
    alloc: Global,
    held: &mut EngineHandle,
    refusing: &mut RefusalsHandle,
    session: u64,
    room: &mut [u8],
) -> i64
    requires engine { IsSome held.old.engine }
    requires refusals { IsSome refusing.old.refusals }
    ensures same { held.new.engine ≡ held.old.engine }
    ensures unchanged { refusing.new.refusals ≡ refusing.old.refusals }
    ensures copied { OfBoth held.old.engine refusing.old.refusals
        (λ e r. Outputs e r session room.old result room.new) }
{
    let engine = held.take(alloc);
    let refusals = refusing.take(alloc);
    let number = copy_output(&engine, &refusals, session, room);
    held.put(engine);
    refusing.put(refusals);
    number
}

/// Adds a rule, with the text of its path if it has one. Returns its number.
#[unsafe(no_mangle)]
pub extern "C" fn lucernetick_refuse(
    alloc: Global,
    refusing: &mut RefusalsHandle,
    parts: &RuleParts,
    text: &[u8],
) -> i64
    requires { IsSome refusing.old.refusals }
    ensures { TakesRule refusing.old.refusals parts.now text.now result refusing.new.refusals }
{
    let mut refusals = refusing.take(alloc);
    let number = give_rule(alloc, &mut refusals, parts, text);
    refusing.put(refusals);
    number
}

/// Returns the number of requests that a rule has refused.
#[unsafe(no_mangle)]
pub extern "C" fn lucernetick_refused(
    alloc: Global,
    refusing: &mut RefusalsHandle,
    number: u64,
) -> i64
    requires { IsSome refusing.old.refusals }
    ensures same { refusing.new.refusals ≡ refusing.old.refusals }
    ensures tells { IfSome refusing.old.refusals (λ r. TellsRefused r number result) }
{
    let refusals = refusing.take(alloc);
    let count = tell_refused(&refusals, number);
    refusing.put(refusals);
    count
}

/// Copies the numbers of the record at an index, and as many of its bytes as fit into `room`.
fn copy_record(
    alloc: Global,
    engine: &Engine,
    at: u64,
    parts: &mut RecordParts,
    room: &mut [u8],
) -> i64
    ensures { TellsRecord engine.now at parts.old room.old result parts.new room.new }
{
    let records = engine.core().history();
    let Some(record) = records.get(at as usize) else {
        return records.len() as i64;
    };
    let Ok(recounted) = recount(alloc, record) else {
        return -1;
    };
    *parts = recounted.parts;
    copy_front(room, &recounted.bytes);
    records.len() as i64
}

/// Copies a retained record; the oldest has the index 0. Returns the number of retained records.
#[unsafe(no_mangle)]
pub extern "C" fn lucernetick_call(
    alloc: Global,
    held: &mut EngineHandle,
    at: u64,
    parts: &mut RecordParts,
    room: &mut [u8],
) -> i64
    requires { IsSome held.old.engine }
    ensures same { held.new.engine ≡ held.old.engine }
    ensures tells { IfSome held.old.engine
        (λ e. TellsRecord e at parts.old room.old result parts.new room.new) }
    ensures last { IfSome held.old.engine KeepsLastRecords }
{
    let engine = held.take(alloc);
    let number = copy_record(alloc, &engine, at, parts, room);
    held.put(engine);
    number
}

/// Makes the directory of a path, and its missing parents.
#[unsafe(no_mangle)]
pub extern "C" fn lucernetick_make_directory(
    alloc: Global,
    held: &mut EngineHandle,
    path: &[u8],
    moment: u32,
    at: &mut At,
) -> i64
    requires { IsSome held.old.engine }
    ensures { AnswersMade held.old.engine moment (MakesDirectory path.now) result at.new
        held.new.engine }
{
    let (engine, made) = make_directory_in(held.take(alloc), alloc, moment, path);
    held.put(engine);
    tell_made(made, at)
}

/// Makes a file or replaces its contents. Makes its missing parents.
#[unsafe(no_mangle)]
pub extern "C" fn lucernetick_write_file(
    alloc: Global,
    held: &mut EngineHandle,
    path: &[u8],
    contents: &[u8],
    moment: u32,
    at: &mut At,
) -> i64
    requires { IsSome held.old.engine }
    ensures { AnswersMade held.old.engine moment (WritesFile path.now contents.now) result at.new
        held.new.engine }
{
    let (engine, made) = write_file_in(held.take(alloc), alloc, moment, path, contents);
    held.put(engine);
    tell_made(made, at)
}

/// Adds the new path as a link to the file of the old path. Makes its missing parents.
#[unsafe(no_mangle)]
pub extern "C" fn lucernetick_link(
    alloc: Global,
    held: &mut EngineHandle,
    old: &[u8],
    new: &[u8],
    moment: u32,
    at: &mut At,
) -> i64
    requires { IsSome held.old.engine }
    ensures { AnswersMade held.old.engine moment (Links old.now new.now) result at.new
        held.new.engine }
{
    let (engine, made) = link_in(held.take(alloc), alloc, moment, old, new);
    held.put(engine);
    tell_made(made, at)
}

/// Takes a snapshot of an engine's tree, into an empty handle. Returns 0, or -1 if memory runs out;
/// the handle is then empty.
#[unsafe(no_mangle)]
pub extern "C" fn lucernetick_tree(
    alloc: Global,
    held: &mut EngineHandle,
    kept: &mut TreeHandle,
) -> i64
    requires engine { IsSome held.old.engine }
    requires none { kept.old.tree ≡ None }
    ensures same { held.new.engine ≡ held.old.engine }
    ensures taken { IfSome held.old.engine (λ e. TakesTree e result kept.new.tree) }
{
    let engine = held.take(alloc);
    let taken = tree_of(&engine, alloc);
    held.put(engine);
    let Ok(leaves) = taken else {
        return -1;
    };
    kept.put(leaves);
    0
}

/// Copies the leaf at an index: its numbers, and as much of its path's text as fits into `room`.
/// Returns the number of leaves.
#[unsafe(no_mangle)]
pub extern "C" fn lucernetick_tree_leaf(
    alloc: Global,
    kept: &mut TreeHandle,
    at: u64,
    parts: &mut LeafParts,
    room: &mut [u8],
) -> i64
    requires { IsSome kept.old.tree }
    ensures same { kept.new.tree ≡ kept.old.tree }
    ensures tells { IfSome kept.old.tree
        (λ t. TellsLeaf t at parts.old room.old result parts.new room.new) }
{
    let leaves = kept.take(alloc);
    let number = copy_leaf(alloc, &leaves, at, parts, room);
    kept.put(leaves);
    number
}

/// Copies bytes of a leaf from an offset, as many as fit into `room`. Returns their number, or -1
/// if memory runs out. A directory has no bytes, nor has an index without a leaf.
#[unsafe(no_mangle)]
pub extern "C" fn lucernetick_tree_read(
    alloc: Global,
    kept: &mut TreeHandle,
    at: u64,
    offset: u64,
    room: &mut [u8],
) -> i64
    requires { IsSome kept.old.tree }
    ensures same { kept.new.tree ≡ kept.old.tree }
    ensures read { IfSome kept.old.tree (λ t. ReadsLeaf t at offset room.old result room.new) }
{
    let leaves = kept.take(alloc);
    let number = read_leaf(alloc, &leaves, at, offset, room);
    kept.put(leaves);
    number
}

/// Returns the length of the hole at an offset of a leaf: zeros that take no memory.
#[unsafe(no_mangle)]
pub extern "C" fn lucernetick_tree_gap(
    alloc: Global,
    kept: &mut TreeHandle,
    at: u64,
    offset: u64,
) -> i64
    requires { IsSome kept.old.tree }
    ensures same { kept.new.tree ≡ kept.old.tree }
    ensures gap { IfSome kept.old.tree (λ t. TellsGap t at offset result) }
{
    let leaves = kept.take(alloc);
    let number = gap_at(&leaves, at, offset);
    kept.put(leaves);
    number
}

/// Drops a snapshot.
#[unsafe(no_mangle)]
pub extern "C" fn lucernetick_tree_free(alloc: Global, kept: &mut TreeHandle)
    requires { IsSome kept.old.tree }
    ensures { kept.new.tree ≡ None }
{
    let _leaves = kept.take(alloc);
}
