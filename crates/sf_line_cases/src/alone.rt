//! A session with an engine of its own, over a line and a clock whose bytes and times contracts
//! know.

ghost use Rattle.std.specs.Prelude.{◌≡◌, ◌++◌, ◌∷◌, []};

use sf_alone::serve_alone;
use sf_hex::hex_packets;
use sf_line::{MemoryLine, Pieces};
use sf_session::{Cause, Clock};
use std::process::Abort;
use std::test::*;

/// A clock that gives the time 1000, and keeps what it gave.
#[derive(Drop)]
struct KeepingClock<'a, R: Abort> {
    rt: &'a R,
    given: Vec<u32>,
}

impl<R: Abort> KeepingClock<'_, R> {
    fn give(&mut self, time: u32) -> u32
        ensures time { result ≡ time }
        ensures given { self.new.given.items ≡ self.old.given.items ++ time ∷ [] }
    {
        if self.given.push(time).is_err() {
            panic!(self.rt; "no memory");
        }
        time
    }
}

impl<R: Abort> Clock for KeepingClock<'_, R> {
    ghost use Rattle.std.specs.Prelude.{Some};

    ghost moments = { λ c. Some c.given.items };

    fn now(&mut self) -> u32 {
        self.give(1000)
    }
}

/// MKDIR and STAT of `/a`.
#[test]
fn a_session_of_two_calls(rt: HostRuntime) -> Result<(), Fail> {
    let alloc = rt.alloc();
    let requests = [
        "00000005 01 00000003",
        "0000000f 0e 00000001 00000002 2f61 00000000",
        "0000000b 11 00000002 00000002 2f61",
    ];
    let replies = [
        "00000095 02 00000003 00000018 706f7369782d72656e616d65406f70656e7373682e636f6d 00000001 31",
        "00000014 686172646c696e6b406f70656e7373682e636f6d 00000001 31",
        "00000011 6673796e63406f70656e7373682e636f6d 00000001 31",
        "00000014 6c73657473746174406f70656e7373682e636f6d 00000001 31",
        "00000012 6c696d697473406f70656e7373682e636f6d 00000001 31",
        "00000018 65 00000001 00000000 00000007 53756363657373 00000000",
        "00000025 69 00000002 0000000f 0000000000000000 00000000 00000000 000041ed 000003e8 000003e8",
    ];
    let input = hex_packets(alloc, &requests)?;
    let all = Pieces::new(usize::MAX, usize::MAX);
    let line = MemoryLine::new(alloc, &input, all, all);
    let mut clock = KeepingClock {
        rt: &rt,
        given: Vec::new(alloc),
    };
    let (outcome, line) = serve_alone(alloc, 256, line, &mut clock);
    assert_eq!(rt; outcome, Ok(Cause::Closed));
    assert_eq!(rt; line.output(), hex_packets(alloc, &replies)?.as_slice());
    Ok(())
}
