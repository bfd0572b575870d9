// The cylinder of a plan.

ghost use Rattle.std.specs.Prelude.{◌≤◌};

use adf_partitions::FoundVolume;

/// The most blocks of a cylinder, 1 MiB.
const MOST_CYLINDER: u64 = 2_048;

// Whether so many blocks divide each volume.
fn divide_all(volumes: &[FoundVolume], blocks: u64) -> bool
    requires { 1 ≤ blocks }
{
    volumes
        .iter()
        .all(|volume| volume.place.blocks % blocks == 0)
}

/// The blocks of a cylinder of the plan of volumes: the most, up to 2,048, that divide each volume.
pub fn found_cylinder(volumes: &[FoundVolume]) -> u64
    ensures { 1 ≤ result }
{
    let mut cylinder = 1;
    for blocks in 0..MOST_CYLINDER {
        if divide_all(volumes, blocks + 1) {
            cylinder = blocks + 1;
        }
    }
    cylinder.max(1)
}
