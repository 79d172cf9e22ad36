//! The texts of errors.

use sf_call::{BeginFault, JoinFault};
use sf_path::PathFault;
use sf_session::SessionFault;
use std::test::*;

#[test]
fn texts_of_path_faults(rt: HostRuntime) -> Result<(), Fail> {
    for (fault, words) in [
        (PathFault::TooLong, "path above 4096 bytes"),
        (PathFault::NameTooLong, "name above 255 bytes"),
        (PathFault::NulByte, "byte 0 in a path"),
        (PathFault::OutOfMemory, "out of memory"),
    ] {
        assert_eq!(rt; format!(in rt.alloc(); "{fault}")?.as_str(), words);
    }
    Ok(())
}

#[test]
fn texts_of_core_faults(rt: HostRuntime) -> Result<(), Fail> {
    for (fault, words) in [
        (JoinFault::OutOfMemory, "out of memory"),
        (JoinFault::Sessions, "too many sessions"),
        (JoinFault::NumbersSpent, "numbers spent"),
    ] {
        assert_eq!(rt; format!(in rt.alloc(); "{fault}")?.as_str(), words);
    }
    for (fault, words) in [
        (BeginFault::OutOfMemory, "out of memory"),
        (BeginFault::NumbersSpent, "numbers spent"),
    ] {
        assert_eq!(rt; format!(in rt.alloc(); "{fault}")?.as_str(), words);
    }
    Ok(())
}

#[test]
fn texts_of_session_faults(rt: HostRuntime) -> Result<(), Fail> {
    for (fault, words) in [
        (SessionFault::OutOfMemory, "out of memory"),
        (SessionFault::Ended, "the session has ended"),
    ] {
        assert_eq!(rt; format!(in rt.alloc(); "{fault}")?.as_str(), words);
    }
    Ok(())
}
