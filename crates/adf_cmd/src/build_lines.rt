// The lines of what is not built.

ghost use Rattle.std.specs.Prelude.{◌≡◌, ◌++◌, OnOk, string_bytes};
ghost use Rattle.adf_cmd.specs.BuildLines.{full_line, manifest_fault_line};

use adf_build::BuildFault;
use adf_manifest::ManifestFault;
use std::alloc::AllocError;
use std::fmt;

/// Appends the line of a tree that needs more blocks than the volume has.
pub fn push_full(text: &mut String, need: u64, have: u64) -> Result<(), AllocError>
    ensures { OnOk result (string_bytes text.new ≡ string_bytes text.old ++ full_line need have) }
{
    let fault = BuildFault::Full { need, have };
    write!(text, "{fault}\n")
}

/// Appends the line of a manifest's fault.
pub fn push_manifest_fault(text: &mut String, fault: ManifestFault) -> Result<(), AllocError>
    ensures { OnOk result
        (string_bytes text.new ≡ string_bytes text.old ++ manifest_fault_line fault) }
{
    write!(text, "{fault}\n")
}
