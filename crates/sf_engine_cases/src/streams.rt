//! A line over streams that fail. Contracts see a stream's bytes, and no interruption.

use sf_line::{Line, LineFault, StreamLine};
use std::io::{self, ErrorKind, Read, Write};
use std::test::*;

/// Is interrupted once, moves one byte, and fails from then on.
#[derive(Drop)]
struct Failing {
    calls: u32,
}

impl Read for Failing {
    fn read(&mut self, buf: &mut [u8]) -> io::Result<usize> {
        self.calls = self.calls.saturating_add(1);
        match self.calls {
            1 => Err(ErrorKind::Interrupted.into()),
            2 if !buf.is_empty() => {
                buf[0] = b'x';
                Ok(1)
            }
            _ => Err(ErrorKind::ConnectionReset.into()),
        }
    }
}

impl Write for Failing {
    fn write(&mut self, buf: &[u8]) -> io::Result<usize> {
        self.calls = self.calls.saturating_add(1);
        match self.calls {
            1 => Err(ErrorKind::Interrupted.into()),
            2 if !buf.is_empty() => Ok(1),
            _ => Err(ErrorKind::ConnectionReset.into()),
        }
    }

    fn flush(&mut self) -> io::Result<()> {
        Ok(())
    }
}

/// An interrupted call is made again. Another error is one failure after one call.
#[test]
fn failing_streams(rt: HostRuntime) {
    let mut writer = Failing { calls: 0 };
    let mut line = StreamLine::new(Failing { calls: 0 }, &mut writer);
    let mut buffer = [0u8; 2];
    assert!(rt; line.read(&mut buffer) == Ok(1));
    assert!(rt; buffer[0] == b'x');
    assert!(rt; line.write(&buffer) == Ok(1));
    assert_eq!(rt; line.failures(), 0);
    assert!(rt; line.read(&mut buffer) == Err(LineFault));
    assert_eq!(rt; line.failures(), 1);
    assert!(rt; line.write(&buffer) == Err(LineFault));
    assert_eq!(rt; line.failures(), 2);
    assert_eq!(rt; writer.calls, 3);
}
