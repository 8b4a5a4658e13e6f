//! The fault of bytes that are known to spell a file: they are refused for want of memory alone.

ghost use Rattle.std.specs.Prelude.{◌≡◌};

use ofx_types::{FileFault, OutOfMemory};

/// The want of memory that a fault is.
pub(crate) fn want_of_memory(_fault: FileFault) -> OutOfMemory
    requires { _fault ≡ FileFault.OutOfMemory }
{
    OutOfMemory
}
