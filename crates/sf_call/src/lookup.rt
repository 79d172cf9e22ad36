//! Results of lookups.

/// The result of a lookup.
#[derive(Clone, Copy, Debug, PartialEq, Eq)]
pub enum Lookup {
    /// A component before the last is absent or no directory.
    NoWay,
    /// The path is absent.
    Absent,
    /// The inode number at the path.
    At(u64),
}
