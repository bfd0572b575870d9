// New, empty volumes.

ghost use Rattle.std.specs.Prelude.{◌≡◌, ◌≤◌, ◌*◌, [], IfOk, length, take, true};
ghost use Rattle.adf_blocks.specs.Sizes.{is_allowed};
ghost use Rattle.adf_build.specs.Laid.{volume};
ghost use Rattle.adf_cache_laying.specs.LaidCaches.{HasCaches};
ghost use Rattle.adf_disk_cmd.specs.Builds.{IsNewVolume, IsWithCaches, empty_tree};

use crate::host_volumes::boot_type;
use adf_build::{BuildFault, build_types};
use adf_cache_laying::lay_caches;
use adf_cached_files::kept_in_place;
use adf_partitions::{FileSystem, PartitionPlan};
use adf_tree::{Label, NO_STAMPS, Tree};
use adf_uncached::is_cached;
use adf_volume::Types;
use std::alloc::{AllocError, Global};

/// The bytes of a volume that boot blocks have.
const BOOT_LEN: usize = 1024;

// A new volume of so many blocks, without directory caches, of a tree without entries.
fn new_without_caches(alloc: Global, tree: &Tree, blocks: u32) -> Result<Vec<u8>, AllocError>
    requires size { is_allowed blocks ≡ true }
    requires empty { tree.now.entries ≡ [] }
    ensures { IfOk result (λ bytes. bytes.items ≡ volume tree.now blocks) }
{
    match build_types(alloc, Types::WithInternational, tree, blocks) {
        Ok(bytes) => Ok(bytes),
        Err(BuildFault::BadSize) => unreachable!(),
        Err(BuildFault::Full { .. }) => unreachable!(),
        Err(BuildFault::NoMemory) => Err(AllocError),
    }
}

// Whether an image is read in place as a volume with directory caches of this type.
fn is_read_in_place(alloc: Global, image: &[u8], planned: u32) -> bool
    ensures { result ≡ true → 512 ≤ length image.now → IsWithCaches planned image.now }
{
    is_cached(image) && boot_type(image) == planned && kept_in_place(alloc, image).is_ok()
}

// A volume with a directory cache for each of its directories, of this type. `AllocError` if an allocation fails, or if what is
// laid is not read so.
fn with_caches(alloc: Global, volume: &[u8], planned: u32) -> Result<Vec<u8>, AllocError>
    requires { 1024 ≤ length volume.now }
    ensures { IfOk result (λ image. HasCaches volume.now (take 1024 volume.now) image.items × IsWithCaches planned image.items) }
{
    match lay_caches(alloc, volume, &volume[..BOOT_LEN]) {
        Ok(Some(image)) if is_read_in_place(alloc, &image, planned) => Ok(image),
        _ => Err(AllocError),
    }
}

// A new volume of so many blocks, of the planned file system but without directory caches, with the drive's name as its label.
fn plain_volume(
    alloc: Global,
    partition: &PartitionPlan,
    blocks: u32,
) -> Result<Vec<u8>, AllocError>
    requires size { is_allowed blocks ≡ true }
    requires label { length partition.now.name ≤ 30 }
    ensures { IfOk result (λ bytes. bytes.items ≡ volume (empty_tree partition.now.system partition.now.name) blocks) }
{
    let label = Label::new(partition.name.bytes()).unwrap();
    let (kind, letters) = (partition.system.kind(), partition.system.letters());
    let tree = Tree::with_letters(alloc, kind, letters, label, NO_STAMPS);
    new_without_caches(alloc, &tree, blocks)
}

/// A new volume of so many blocks, of the planned file system, with the drive's name as its label. `AllocError` if an allocation
/// fails, or if what is laid of directory caches is not right.
pub fn new_volume(
    alloc: Global,
    partition: &PartitionPlan,
    blocks: u32,
) -> Result<Vec<u8>, AllocError>
    requires size { is_allowed blocks ≡ true }
    requires label { length partition.now.name ≤ 30 }
    ensures long { IfOk result (λ bytes. length bytes.items ≡ blocks * 512) }
    ensures new { IfOk result (λ bytes. IsNewVolume partition.now.system partition.now.name bytes.items) }
{
    let volume = plain_volume(alloc, partition, blocks)?;
    match partition.system {
        FileSystem::WithoutCaches(_, _) => Ok(volume),
        FileSystem::WithCaches(_) => with_caches(alloc, &volume, partition.system.planned_type()),
    }
}
