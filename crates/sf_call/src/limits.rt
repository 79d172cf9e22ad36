//! Limits of the file system.

/// The largest size of a file in bytes: 1 TiB.
pub const MAX_FILE_SIZE: u64 = 1_099_511_627_776;

/// The most bytes that one READ returns.
pub const MAX_READ: u32 = 261_120;

/// The most open handles of a session.
pub const MAX_HANDLES: usize = 128;

/// The most links of a file.
pub const MAX_LINKS: u64 = 1024;

/// The most entries that one READDIR returns.
pub const MAX_ENTRIES: usize = 32;
