//! A fault of the outside. Which system error it was is not kept: the object's count says that there was one.
ghost use Rattle.std.specs.Prelude.{◌≡◌};
ghost use Rattle.io_faults.specs.Faults.{Rose, raised};

use thiserror::Error;

/// An object of the outside could not do what it was asked, and has counted it.
#[derive(Clone, Copy, Debug, PartialEq, Eq, Error)]
#[error("the call failed")]
pub struct Failed;

/// Counts a fault. At its greatest value the count stays.
pub fn raise(count: &mut u64)
    ensures value { count.new ≡ raised count.old }
    ensures rose { Rose count.old count.new }
{
    *count = count.saturating_add(1);
}
