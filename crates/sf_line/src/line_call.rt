//! Logged calls of a transport.

/// A successful call and the number of bytes that it transferred.
#[derive(Clone, Copy, Debug, PartialEq, Eq)]
pub enum LineCall {
    /// 0 only at the end of input or for an empty buffer.
    Read(usize),
    Write(usize),
}
