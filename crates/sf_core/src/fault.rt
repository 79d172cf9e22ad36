//! The error of a core.

use sf_call::BeginFault;

/// Why `Core::begin` or `Core::call` began no call.
#[derive(Clone, Copy, Debug, PartialEq, Eq)]
pub enum CoreFault {
    Refused(BeginFault),
    /// The lane's session isn't joined to this core, or it isn't idle.
    Stranger,
}
