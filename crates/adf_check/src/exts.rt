// The extension blocks of files.

ghost use Rattle.adf_check.specs.{Own.IsOwnFault, Progress.left, Datas.ext_link, Store.store_value};
ghost use Rattle.std.specs.Prelude.{◌≢◌, ◌<◌, OnOk, IfOk, IfErr};
ghost use Rattle.adf_check.specs.Reading.{IsInDatas, IsInExts};

use crate::claims::{Link, claim_named};
use crate::file::File;
use crate::store::Store;
use adf_blocks::read_ext;
use adf_volume::{Fault, Image, KeptOwner, OwnerClass, fault_at};

// Claims and reads the extension block that a link of the file points to, and appends it to the table, which has the
// header and the earlier extension blocks; returns the next link, of a block 0 at the end.
fn read_ext_block(
    image: &Image<'_>,
    store: &mut Store,
    table: &mut Vec<u32>,
    file: &File,
    link: Link,
) -> Result<Link, Fault>
    requires some { link.block ≢ 0 }
    requires state { IsInExts image.now (store_value store.old) file.now table.old.items link }
    ensures state { IfOk result (IsInExts image.now (store_value store.new) file.now table.new.items) }
    ensures less { OnOk result (left store.new < left store.old) }
    ensures fault { IfErr result (IsOwnFault image.now) }
{
    let b = link.block;
    let place = store.exts.len() as u32;
    let owner = KeptOwner {
        class: OwnerClass::Ext,
        place,
    };
    claim_named(&mut store.owners, link.holder, b, owner)?;
    let ext = match read_ext(image.block(b), b, file.head) {
        Ok(ext) => ext,
        Err(cause) => return Err(fault_at(b, cause)),
    };
    table.push(b)?;
    store.exts.push(b)?;
    Ok(Link {
        holder: b,
        block: ext.next(),
    })
}

/// Reads the extension blocks of a file, and appends them to the table, which has the header.
pub fn read_exts(
    image: &Image<'_>,
    store: &mut Store,
    table: &mut Vec<u32>,
    file: &File,
) -> Result<(), Fault>
    requires state { IsInExts image.now
        (store_value store.old) file.now table.old.items (ext_link file.now) }
    ensures state { OnOk result
        (IsInDatas image.now (store_value store.new) file.now table.new.items 0) }
    ensures fault { IfErr result (IsOwnFault image.now) }
{
    let mut link = Link {
        holder: file.head,
        block: file.ext,
    };
    while link.block != 0 {
        link = read_ext_block(image, store, table, file, link)?;
    }
    Ok(())
}
