//! Flags of `SSH_FXP_OPEN` (draft-ietf-secsh-filexfer-02, section 6.3).

ghost use Rattle.std.specs.Prelude.{◌≡◌};
ghost use Rattle.sf_field.specs.OpenFlags.{open_flags, bit_of, bits_of};

const READ: u32 = 0x1;

const WRITE: u32 = 0x2;

const APPEND: u32 = 0x4;

const CREATE: u32 = 0x8;

const TRUNCATE: u32 = 0x10;

const EXCLUSIVE: u32 = 0x20;

/// The bits of a request's `pflags`. Unknown bits are ignored.
#[derive(Clone, Copy, Debug, PartialEq, Eq)]
pub struct OpenFlags {
    pub read: bool,
    pub write: bool,
    pub append: bool,
    pub create: bool,
    pub truncate: bool,
    pub exclusive: bool,
}

impl OpenFlags {
    /// Decodes `pflags`.
    pub fn from_bits(bits: u32) -> OpenFlags
        ensures { result ≡ open_flags bits }
    {
        OpenFlags {
            read: bits & READ != 0,
            write: bits & WRITE != 0,
            append: bits & APPEND != 0,
            create: bits & CREATE != 0,
            truncate: bits & TRUNCATE != 0,
            exclusive: bits & EXCLUSIVE != 0,
        }
    }
    /// Encodes the flags.
    pub fn bits(self) -> u32
        ensures { result ≡ bits_of self }
    {
        bit(READ, self.read)
            + bit(WRITE, self.write)
            + bit(APPEND, self.append)
            + bit(CREATE, self.create)
            + bit(TRUNCATE, self.truncate)
            + bit(EXCLUSIVE, self.exclusive)
    }
}

fn bit(flag: u32, is_set: bool) -> u32
    ensures { result ≡ bit_of flag is_set }
{
    if is_set { flag } else { 0 }
}
