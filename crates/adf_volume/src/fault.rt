// Faults.

ghost use Rattle.std.specs.Prelude.{◌≡◌};
ghost use Rattle.adf_volume.specs.Fault.{fault};

use adf_base::NoMemory;
use adf_blocks::Cause;
use std::alloc::AllocFailed;
use std::error::Error;
use std::fmt;

/// Why an image is refused, and the block of the fault.
#[derive(Clone, Copy, Debug, PartialEq, Eq)]
pub struct Fault {
    pub block: u32,
    pub cause: Cause,
}

impl fmt::Display for Fault {
    ghost use Rattle.std.specs.Prelude.{Some};
    ghost use Rattle.adf_volume.specs.Fault.{fault_text};

    ghost output = { λ f. Some (fault_text f) };

    fn fmt<W: fmt::Write>(&self, f: &mut fmt::Formatter<W>) -> fmt::Result {
        let block = self.block;
        let cause = self.cause;
        write!(f, "block {block}: {cause}")
    }
}

impl Error for Fault {}

impl From<NoMemory> for Fault {
    ghost use Rattle.adf_blocks.specs.declared.cause.Cause.TheVariants.{NoMemory};

    ghost from_gives = { λ _ f. f ≡ fault 0 NoMemory };

    fn from(_error: NoMemory) -> Fault {
        no_memory()
    }
}

impl<T: Drop> From<AllocFailed<T>> for Fault {
    ghost use Rattle.adf_blocks.specs.declared.cause.Cause.TheVariants.{NoMemory};

    ghost from_gives = { λ _ f. f ≡ fault 0 NoMemory };

    fn from(_error: AllocFailed<T>) -> Fault {
        no_memory()
    }
}

/// A fault at a block.
pub fn fault_at(block: u32, cause: Cause) -> Fault
    ensures { result ≡ fault block cause }
{
    Fault { block, cause }
}

/// The fault `NoMemory`, reported at block 0.
pub fn no_memory() -> Fault
    ensures { result ≡ fault 0 Cause.NoMemory }
{
    fault_at(0, Cause::NoMemory)
}
