// The tables of files.

ghost use Rattle.std.specs.Prelude.{◌≡◌, ◌-◌, ◌*◌, ◌/◌, ◌<◌, ◌↔◌, ◌⊎◌, ◌++◌, ℕ, List, [], IfOk, IfSome, IfNone, IsTrue};
ghost use Rattle.adf_blocks.specs.declared.layout.TheConstants.{POINTERS};
ghost use Rattle.adf_blocks.specs.Sizes.{blocks};
ghost use Rattle.adf_keep.specs.{Marks.AreClaimed, File.HasExts, File.IsExtOf, File.IsHeld, File.firsts, File.named_at, File.table_at};
ghost use Rattle.adf_keep.specs.Reasons.{IsDataFault, IsTableFault};

use crate::claims::claim;
use crate::held::Held;
use crate::proposal::Why;
use adf_base::NoMemory;
use adf_blocks::{EXTENSION, FIRST_POINTER, POINTERS, read_ext};

// Whether a block is held, and has the form of an extension block of the file with its header at block `head`.
fn is_ext(image: &Held<'_>, own: u32, head: u32) -> bool
    ensures { IsTrue result ↔ IsExtOf image.now head own }
{
    if own < 2 {
        return false;
    }
    match image.block(own) {
        Some(block) => read_ext(block, own, head).is_ok(),
        None => false,
    }
}

// Whether a block may be block `m` of a table: the header, or an extension block.
fn may_be_table(image: &Held<'_>, own: u32, head: u32, m: usize) -> bool
    ensures { IsTrue result ↔ ((m ≡ 0) ⊎ IsExtOf image.now head own) }
{
    m == 0 || is_ext(image, own, head)
}

/// Claims the first `count` blocks of a table, the header and then its extension blocks, until one cannot be claimed; then says
/// why.
pub fn claim_tables(
    image: &Held<'_>,
    head: u32,
    count: usize,
    marks: &mut Vec<bool>,
    tables: &mut Vec<u32>,
) -> Result<Option<Why>, NoMemory>
    requires held { IsHeld image.now head }
    requires none { tables.old.items ≡ [] }
    ensures claims { (n : ℕ) (bs : List ℕ) → AreClaimed n marks.old.items bs
        → IfOk result (λ _. AreClaimed n marks.new.items (bs ++ tables.new.items)) }
    ensures exts { IfOk result (λ r. IfNone r (HasExts image.now head count)) }
    ensures fault { (bs : List ℕ) → AreClaimed (blocks image.now) marks.old.items bs
        → IfOk result (λ r. IfSome r (IsTableFault image.now bs head count)) }
    ensures named { IfOk result (λ r. IfNone r (tables.new.items ≡ firsts (table_at image.now head) count)) }
{
    let mut own = head;
    for m in 0..count {
        if !may_be_table(image, own, head, m) {
            return Ok(Some(Why::BadTable));
        }
        match claim(marks, own) {
            Ok(()) => tables.push(own)?,
            Err(why) => return Ok(Some(why)),
        }
        own = image.word(own, EXTENSION);
    }
    Ok(None)
}

// The block of the table that points to data block `k`, counted from 0, by the one that points to the data block before.
fn table_of(image: &Held<'_>, before: u32, k: usize) -> u32
    ensures { (h : ℕ) → before ≡ table_at image.now h ((k - 1) / POINTERS) → result ≡ table_at image.now h (k / POINTERS) }
{
    if k == 0 || k % POINTERS != 0 {
        before
    } else {
        image.word(before, EXTENSION)
    }
}

/// Claims the first `count` data blocks that the table of a file names, until one cannot be claimed; then says why.
pub fn claim_named(
    image: &Held<'_>,
    head: u32,
    count: usize,
    marks: &mut Vec<bool>,
    datas: &mut Vec<u32>,
) -> Result<Option<Why>, NoMemory>
    requires { datas.old.items ≡ [] }
    ensures claims { (n : ℕ) (bs : List ℕ) → AreClaimed n marks.old.items bs
        → IfOk result (λ _. AreClaimed n marks.new.items (bs ++ datas.new.items)) }
    ensures fault { (bs : List ℕ) → AreClaimed (blocks image.now) marks.old.items bs
        → IfOk result (λ r. IfSome r (IsDataFault image.now bs head count)) }
    ensures named { IfOk result (λ r. IfNone r (datas.new.items ≡ firsts (named_at image.now head) count)) }
{
    let mut table = head;
    for k in 0..count {
        table = table_of(image, table, k);
        let b = image.word(table, FIRST_POINTER - k % POINTERS);
        match claim(marks, b) {
            Ok(()) => datas.push(b)?,
            Err(why) => return Ok(Some(why)),
        }
    }
    Ok(None)
}
