// The data blocks of files.

ghost use Rattle.adf_blocks.specs.{declared.layout.TheConstants.POINTERS, Sizes.blocks, Sizes.chunk};
ghost use Rattle.adf_check.specs.{Own.IsOwnFault, Reading.IsAtNode, Reading.IsInDatas, Store.store_value};
ghost use Rattle.std.specs.Prelude.{◌≡◌, ◌≤◌, ◌<◌, ◌+◌, ◌*◌, ◌/◌, min, OnOk, IfErr, length, slice_index, ℕ};
ghost use Rattle.adf_volume.specs.{Demands.AllHold, Demands.FirstFails, Image.held, Image.table_word, Image.word_in};
ghost use Rattle.adf_check.specs.Datas.{AreDatas, IsDataLink, data_asked, next_of};

use crate::claims::{Link, claim_named};
use crate::file::File;
use crate::store::Store;
use adf_blocks::{Cause, POINTERS, Table, read_data};
use adf_tree::Kind;
use adf_volume::{Fault, Image, KeptOwner, OwnerClass, count_of, fault_at, held_in};

/// The data blocks of a file: the file, its table, which is its header and its extension blocks, and their number.
#[derive(Drop)]
struct Datas<'a> {
    file: File,
    table: &'a [u32],
    count: u32,
}

// The pointer to data block `k + 1` in the table.
fn pointer(image: &Image<'_>, table: &[u32], k: u32) -> u32
    requires inside { k < POINTERS * length table.now }
    requires blocks { (i : ℕ) → i < length table.now → slice_index table.now i < blocks image.now }
    ensures exact { result
        ≡ word_in image.now (slice_index table.now (k / POINTERS)) (table_word k) }
{
    Table::over(image.block(table[k as usize / POINTERS])).pointer(k as usize % POINTERS)
}

// The pointer to data block `k + 1` in the table, or 0 past the last.
fn next_pointer(image: &Image<'_>, table: &[u32], count: u32, k: u32) -> u32
    requires enough { count ≤ POINTERS * length table.now }
    requires blocks { (i : ℕ) → i < length table.now → slice_index table.now i < blocks image.now }
    ensures exact { result ≡ next_of image.now table.now count k }
{
    if k < count {
        pointer(image, table, k)
    } else {
        0
    }
}

// Checks block `b` as data block `k + 1` of a file; an FFS data block is always accepted.
#[tactic(auto, unfolding(adf_blocks::specs::Sizes::chunk))]
fn check_data(image: &Image<'_>, datas: &Datas<'_>, b: u32, k: u32) -> Result<(), Cause>
    requires inside { b < blocks image.now }
    requires count { k < datas.now.count }
    requires enough { datas.now.count ≤ POINTERS * length datas.now.table.now }
    requires blocks { (i : ℕ) → i < length datas.now.table.now
        → slice_index datas.now.table.now i < blocks image.now }
    ensures ok { OnOk result (AllHold (data_asked image.now datas.now b k)) }
    ensures fault { IfErr result (FirstFails (data_asked image.now datas.now b k) b) }
{
    match image.kind() {
        Kind::Ffs => Ok(()),
        Kind::Ofs => {
            let next = next_pointer(image, datas.table, datas.count, k + 1);
            let held = held_in(Kind::Ofs, datas.file.size, k + 1);
            match read_data(image.block(b), datas.file.head, k + 1, held, next) {
                Ok(_) => Ok(()),
                Err(cause) => Err(cause),
            }
        }
    }
}

// Claims and checks data block `k + 1` of a file, which a link of its table points to.
fn read_data_block(
    image: &Image<'_>,
    store: &mut Store,
    datas: &Datas<'_>,
    link: Link,
    k: u32,
) -> Result<(), Fault>
    requires datas { AreDatas image.now datas.now }
    requires inside { k < datas.now.count }
    requires link { IsDataLink image.now datas.now.table.now k link }
    requires state { IsInDatas image.now
        (store_value store.old) datas.now.file datas.now.table.now k }
    ensures state { OnOk result
        (IsInDatas image.now (store_value store.new) datas.now.file datas.now.table.now (k + 1)) }
    ensures fault { IfErr result (IsOwnFault image.now) }
{
    let b = link.block;
    let place = store.datas.len() as u32;
    let owner = KeptOwner {
        class: OwnerClass::Data,
        place,
    };
    claim_named(&mut store.owners, link.holder, b, owner)?;
    if let Err(cause) = check_data(image, datas, b, k) {
        return Err(fault_at(b, cause));
    }
    store.datas.push(b)?;
    Ok(())
}

// Reads the data blocks that block `m` of the table points to.
fn read_named(image: &Image<'_>, store: &mut Store, datas: &Datas<'_>, m: u32) -> Result<(), Fault>
    requires datas { AreDatas image.now datas.now }
    requires inside { POINTERS * m < datas.now.count }
    requires state { IsInDatas image.now
        (store_value store.old) datas.now.file datas.now.table.now (POINTERS * m) }
    ensures state { OnOk result
        (IsInDatas image.now (store_value store.new) datas.now.file datas.now.table.now
        (min (POINTERS * (m + 1)) datas.now.count)) }
    ensures fault { IfErr result (IsOwnFault image.now) }
{
    let count = datas.count;
    let holder = datas.table[m as usize];
    let names = Table::over(image.block(holder));
    let first = POINTERS as u32 * m;
    let len = (count - first).min(POINTERS as u32);
    for k in first..first + len {
        let block = names.pointer((k - first) as usize);
        read_data_block(image, store, datas, Link { holder, block }, k)?;
    }
    Ok(())
}

/// Reads the data blocks of a file. The table is its header and its extension blocks.
pub fn read_datas(
    image: &Image<'_>,
    store: &mut Store,
    table: &[u32],
    file: &File,
) -> Result<(), Fault>
    requires state { IsInDatas image.now (store_value store.old) file.now table.now 0 }
    ensures state { OnOk result (IsAtNode image.now (store_value store.new) (file.now.node + 1)) }
    ensures fault { IfErr result (IsOwnFault image.now) }
{
    let count = count_of(image.kind(), file.size);
    let tables = count.div_ceil(POINTERS as u32);
    if tables as usize > table.len() {
        return Err(fault_at(file.head, Cause::ShortFile));
    }
    let datas = Datas {
        file: *file,
        table,
        count,
    };
    for m in 0..tables {
        read_named(image, store, &datas, m)?;
    }
    Ok(())
}
