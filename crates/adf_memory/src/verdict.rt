// The verdict on an image.

ghost use Rattle.adf_memory.specs.CheckCalls.{ChecksImage};

use adf_check::check_types;
use adf_names::type_number;
use adf_volume::Types;
use std::alloc::Global;

/// The counts of an accepted image, or the block of the first fault. Fields that do not apply are 0.
#[repr(C)]
#[derive(Clone, Copy)]
pub struct Verdict {
    /// The number of the type: 0 or 2 for OFS, 1 or 3 for FFS.
    pub kind: u32,
    /// All blocks, including the two boot blocks.
    pub blocks: u32,
    /// Blocks that the volume owns, excluding the two boot blocks.
    pub used: u32,
    /// Blocks from 2 on that nothing owns.
    pub free: u32,
    /// Directories, excluding the root.
    pub dirs: usize,
    pub files: usize,
    /// The block that has the fault.
    pub block: u32,
}

/// Checks an image as a volume of these types, by its letters, and fills in the verdict. Returns 0 if the image is accepted,
/// otherwise the number of a cause: that of the first fault, or `NoMemory` if memory ran out.
pub fn check_image(alloc: Global, types: Types, image: &[u8], verdict: &mut Verdict) -> u8
    ensures { ChecksImage types image.now verdict.new result }
{
    match check_types(alloc, types, image) {
        Ok(volume) => {
            let counts = volume.counts();
            *verdict = Verdict {
                kind: u32::from(type_number(volume.letters(), counts.kind)),
                blocks: counts.blocks,
                used: counts.used,
                free: counts.free,
                dirs: counts.dirs,
                files: counts.files,
                block: 0,
            };
            0
        }
        Err(fault) => {
            *verdict = Verdict {
                kind: 0,
                blocks: 0,
                used: 0,
                free: 0,
                dirs: 0,
                files: 0,
                block: fault.block,
            };
            fault.cause.number()
        }
    }
}
