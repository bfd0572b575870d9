// The facts that a check keeps of the blocks it has read.

ghost use Rattle.std.specs.Prelude.{IfOk};
ghost use Rattle.adf_blocks.specs.Sizes.{blocks};
ghost use Rattle.adf_volume.specs.Image.{root_of};
ghost use Rattle.adf_check.specs.{Reading.IsBeforePage, Store.store_value};

use adf_base::NoMemory;
use adf_volume::{Image, KeptHeader, KeptOwner, NodeStart, OwnerClass, OwnerTable};
use std::alloc::Global;

/// The state of a check: the owner of each block, the header of each entry, how many of them are of directories, and for
/// each node, including the root, the positions of its first blocks in the lists of all extension blocks and of all data
/// blocks.
#[derive(Drop)]
pub struct Store {
    pub owners: OwnerTable,
    pub headers: Vec<KeptHeader>,
    pub dirs: usize,
    pub starts: Vec<NodeStart>,
    pub exts: Vec<u32>,
    pub datas: Vec<u32>,
}

impl Store {
    // The state before anything but the root is read.
    pub fn begin(alloc: Global, image: &Image<'_>) -> Result<Store, NoMemory>
        ensures state { IfOk result (λ s.
            IsBeforePage image.now (store_value s) 0 (root_of image.now)) }
    {
        let mut owners = OwnerTable::new(alloc, image.blocks())?;
        let owner = KeptOwner {
            class: OwnerClass::Root,
            place: 0,
        };
        owners.claim(image.root(), owner).unwrap();
        Ok(Store {
            owners,
            headers: Vec::new(alloc),
            dirs: 0,
            starts: Vec::new(alloc),
            exts: Vec::new(alloc),
            datas: Vec::new(alloc),
        })
    }
}
