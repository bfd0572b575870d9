// The course of a walk: the pages of the bitmap, then the nodes in order; for a directory its chains, for a file its
// extension blocks, then its data blocks.

ghost use Rattle.std.specs.Prelude.{◌≡◌, ◌<◌, ◌≤◌, ◌+◌, ◌*◌, ◌^◌, IfOk, IfSome, IsTrue, OnOk, Some, length};
ghost use Rattle.adf_names.specs.declared.kind.Kind.TheVariants.{Ffs};
ghost use Rattle.adf_blocks.specs.declared.layout.TheConstants.{POINTERS, SLOTS};
ghost use Rattle.adf_blocks.specs.Sizes.{blocks, pages_needed};
ghost use Rattle.adf_volume.specs.{Image.kind_of, Image.root_of, Image.table_word, Parts.role_of};
ghost use Rattle.adf_volume.specs.Positions.{before_node, position_of, word_of_map_ext, word_of_page};
ghost use Rattle.adf_findings.specs.{Survey.Course, Found.IsFinished, Courses.next_in, Courses.noted, Courses.table_block_in};
ghost use Rattle.adf_findings.specs.Courses.{HasReached, HasReachedData, HasReachedFile, HasReachedPage, HasReachedPart};
ghost use Rattle.adf_findings.specs.Courses.{HasReachedNamed, HasReachedSlot, Holds, IsGoneOn, IsJudged, IsNamed};
ghost use Rattle.adf_findings.specs.Courses.{IsNextReference, IsOutcome, IsPageNamed, KeepsNameBy, due_below, due_in, end_in};

use crate::finding::Finding;
use crate::forms::Context;
use crate::image::SizedImage;
use crate::judge::{Facts, Judgement, judge};
use crate::progress::{Progress, note};
use adf_base::NoMemory;
use adf_blocks::{
    Cause, EXTENSION, FIRST_MAP_EXT, FIRST_PAGE, FIRST_POINTER, FIRST_SLOT, MAP_EXT_NEXT,
    MAP_EXT_PAGES, NEXT_IN_CHAIN, POINTERS, ROOT_PAGES, SECONDARY_TYPE, SLOTS, ST_DIR, ST_FILE,
    page_count,
};
use adf_tree::Kind;
use adf_volume::Part;

/// A part that is due, a header with any number; its context; and whether its file has enough extension blocks, which
/// is asked with its first data block.
#[derive(Clone, Copy, PartialEq, Eq, Drop)]
pub struct Due {
    pub part: Part,
    pub context: Context,
    pub is_enough: bool,
}

/// A part that is due; the block that points to it; and its own block.
#[derive(Clone, Copy, PartialEq, Eq, Drop)]
pub struct Reference {
    pub due: Due,
    pub holder: u32,
    pub block: u32,
}

/// The table of a file: the file's node, its header's block, how many data blocks it has, and for how many there is
/// room in the header and the extension blocks found.
#[derive(Clone, Copy, PartialEq, Eq, Drop)]
pub struct FileTable {
    pub node: u32,
    pub head: u32,
    pub count: u32,
    pub room: u32,
}

/// A block of the table of a file: its number in the table, 0 for the header; and the block.
#[derive(Clone, Copy, PartialEq, Eq, Drop)]
pub struct Member {
    pub number: u32,
    pub block: u32,
}

impl Due {
    // A part in the directory or the file with its header at block `up`; for the bitmap's parts any block serves.
    fn below(part: Part, up: u32) -> Due
        ensures { result ≡ due_below part up }
    {
        Due {
            part,
            context: Context { up, next: 0 },
            is_enough: true,
        }
    }
}

// A finding of a part.
fn of_part(part: Part, block: u32, cause: Cause) -> Finding
    ensures { result ≡ record { part = Some part; block = block; cause = cause } }
{
    Finding {
        part: Some(part),
        block,
        cause,
    }
}

// Judges the part that is next. The name of a header that is to be taken is kept.
#[inline(always)]
fn judge_named(
    image: &SizedImage<'_>,
    progress: &mut Progress,
    part: Part,
    reference: &Reference,
) -> Result<Judgement, NoMemory>
    ensures judged { IfOk result (λ j. IsJudged image.now progress.old reference.now part j) }
    ensures names { IfOk result (λ j. KeepsNameBy image.now part
        reference.now.block j progress.old.found.names progress.new.found.names) }
    ensures rest { progress.new ≡ record progress.old {
      found = record progress.old.found { names = progress.new.found.names };
    } }
{
    let b = reference.block;
    let facts = Facts {
        is_enough: reference.due.is_enough,
        is_absent: progress.found.is_absent(b),
        context: reference.due.context,
    };
    match judge(image, part, reference.holder, b, &facts) {
        Judgement::Clean => {
            if progress.found.keep_name(image, part, b)? {
                Ok(Judgement::Clean)
            } else {
                Ok(Judgement::Reported(b, Cause::SameName))
            }
        }
        Judgement::Reported(at, cause) => {
            progress.found.keep_name(image, part, b)?;
            Ok(Judgement::Reported(at, cause))
        }
        Judgement::Skipped(at, cause) => Ok(Judgement::Skipped(at, cause)),
    }
}

// Judges the part that is next and tells its cause. Returns the part if it is to be taken, `None` if skipped.
#[inline(always)]
fn judge_next(
    image: &SizedImage<'_>,
    progress: &mut Progress,
    reference: &Reference,
) -> Result<Option<Part>, NoMemory>
    requires { length progress.old.found.nodes.items < 2 ^ 32 }
    ensures { IfOk result (λ o. (s : Course)
        → Holds image.now progress.old (position_of (role_of reference.now.due.part)) s
        → IsNextReference image.now s reference.now
        → IsOutcome image.now s reference.now progress.old progress.new o) }
{
    let part = reference
        .due
        .part
        .numbered(progress.found.nodes.len() as u32);
    match judge_named(image, progress, part, reference)? {
        Judgement::Clean => Ok(Some(part)),
        Judgement::Reported(at, cause) => {
            note(&mut progress.findings, of_part(part, at, cause))?;
            Ok(Some(part))
        }
        Judgement::Skipped(at, cause) => {
            note(&mut progress.findings, of_part(part, at, cause))?;
            progress.found.skip(reference.block)?;
            Ok(None)
        }
    }
}

// Judges and takes a part that word `i` of block `holder` points to; returns its block, `None` if it is skipped.
#[inline(always)]
fn go_on(
    image: &SizedImage<'_>,
    progress: &mut Progress,
    due: Due,
    holder: u32,
    i: usize,
) -> Result<Option<u32>, NoMemory>
    requires word { i < 128 }
    requires due { HasReachedPart image.now progress.old due holder i }
    ensures gone { IfOk result (λ o. (s : Course) → IsNamed image.now progress.old due holder i s
        → IsGoneOn image.now s due.part holder i progress.new o) }
    ensures left { IfOk result (λ o. IfSome o (λ b. progress.new.found.left < progress.old.found.left)) }
{
    let reference = Reference {
        due,
        holder,
        block: image.word(holder, i),
    };
    match judge_next(image, progress, &reference)? {
        Some(part) => {
            progress.found.take(part, reference.block)?;
            Ok(Some(reference.block))
        }
        None => Ok(None),
    }
}

// The word that points to a page, in the root or in a bitmap extension block.
fn page_word(page: u32) -> usize
    ensures named { result ≡ word_of_page page }
    ensures inside { result < 128 }
{
    let page = page as usize;
    if page < ROOT_PAGES {
        FIRST_PAGE + page
    } else {
        (page - ROOT_PAGES) % MAP_EXT_PAGES
    }
}

// The word that points to the bitmap extension block before a page, in the root or in the extension block before.
fn map_ext_word(page: u32) -> usize
    ensures named { result ≡ word_of_map_ext page }
    ensures inside { result < 128 }
{
    if page as usize == ROOT_PAGES {
        FIRST_MAP_EXT
    } else {
        MAP_EXT_NEXT
    }
}

// The block that points to a page: the one that points to the page before, or the next bitmap extension block; `None`
// if that is skipped.
#[tactic(auto, using(crate::proofs::MapPlaces::map_ext_named, crate::proofs::MapPlaces::map_ext_on))]
fn holder_of(
    image: &SizedImage<'_>,
    progress: &mut Progress,
    page: u32,
    before: u32,
) -> Result<Option<u32>, NoMemory>
    requires some { page < pages_needed (blocks image.now) }
    requires at { HasReachedPage image.now progress.old page before }
    ensures { IfOk result (λ o. IsPageNamed image.now progress.new page o) }
{
    let first = ROOT_PAGES as u32;
    let pages = MAP_EXT_PAGES as u32;
    if page < first || (page - first) % pages != 0 {
        return Ok(Some(before));
    }
    let due = Due::below(Part::MapExt((page - first) / pages), before);
    let holder = go_on(image, progress, due, before, map_ext_word(page))?;
    Ok(holder)
}

// Visits the pages of the bitmap and the bitmap extension blocks.
fn go_through_map(image: &SizedImage<'_>, progress: &mut Progress) -> Result<(), NoMemory>
    requires { HasReachedPage image.now progress.old 0 (root_of image.now) }
    ensures { OnOk result (HasReached image.now progress.new (before_node 0)) }
{
    let mut holder = image.root();
    for page in 0..page_count(image.blocks()) {
        match holder_of(image, progress, page, holder)? {
            Some(at) => holder = at,
            None => return Ok(()),
        }
        let due = Due::below(Part::Page(page), holder);
        go_on(image, progress, due, holder, page_word(page))?;
    }
    Ok(())
}

// Visits the chain of a slot of a directory.
fn go_through_chain(
    image: &SizedImage<'_>,
    progress: &mut Progress,
    parent: u32,
    slot: u8,
    b: u32,
) -> Result<(), NoMemory>
    requires slot { slot < SLOTS }
    requires at { HasReachedSlot image.now progress.old parent slot b }
    ensures { OnOk result (HasReachedSlot image.now progress.new parent (slot + 1) b) }
{
    let mut holder = b;
    let mut i = FIRST_SLOT + slot as usize;
    let mut place = 0;
    while image.word(holder, i) != 0 {
        let part = Part::Head {
            node: 0,
            parent,
            slot,
            place,
        };
        match go_on(image, progress, Due::below(part, b), holder, i)? {
            Some(header) => holder = header,
            None => return Ok(()),
        }
        i = NEXT_IN_CHAIN;
        place += 1;
    }
    Ok(())
}

// Visits the chains of the directory at block `b`.
#[tactic(auto, using(crate::proofs::CoursePlaces::slot_empty))]
fn go_through_dir(
    image: &SizedImage<'_>,
    progress: &mut Progress,
    node: u32,
    b: u32,
) -> Result<(), NoMemory>
    requires { HasReachedSlot image.now progress.old node 0 b }
    ensures { OnOk result (HasReached image.now progress.new (before_node (node + 1))) }
{
    for slot in 0..SLOTS as u8 {
        if image.word(b, FIRST_SLOT + slot as usize) != 0 {
            go_through_chain(image, progress, node, slot, b)?;
        }
    }
    Ok(())
}

// Visits the extension blocks of a file, with its header at block `b`; returns how many are taken.
fn go_through_exts(
    image: &SizedImage<'_>,
    progress: &mut Progress,
    node: u32,
    b: u32,
) -> Result<u32, NoMemory>
    requires { HasReachedFile image.now progress.old node b }
    ensures datas { IfOk result (λ exts. HasReachedData image.now progress.new node b exts) }
    ensures few { IfOk result (λ exts. exts ≤ 8388608) }
{
    let mut holder = b;
    let mut exts = 0;
    while image.word(holder, EXTENSION) != 0 {
        let due = Due::below(Part::Ext(node, exts + 1), b);
        match go_on(image, progress, due, holder, EXTENSION)? {
            Some(ext) => holder = ext,
            None => return Ok(exts),
        }
        exts += 1;
    }
    Ok(exts)
}

// The block of the table that points to data block `k + 1` of a file; `before` points to data block `k`.
fn table_block(image: &SizedImage<'_>, table: &FileTable, k: u32, before: u32) -> u32
    ensures { result ≡ table_block_in image.now table.now k before }
{
    if k as usize % POINTERS != 0 {
        before
    } else if k < table.room {
        image.word(before, EXTENSION)
    } else {
        0
    }
}

// The pointer to data block `k + 1` of a file, and 0 past the last; `before` points to data block `k`.
fn next_data(image: &SizedImage<'_>, table: &FileTable, k: u32, before: u32) -> u32
    ensures { result ≡ next_in image.now table.now k before }
{
    if k >= table.count {
        return 0;
    }
    let holder = table_block(image, table, k, before);
    image.word(holder, FIRST_POINTER - k as usize % POINTERS)
}

// Data block `k + 1` of a file, with the block that comes next.
fn data_due(table: &FileTable, k: u32, next: u32) -> Due
    requires { k < table.now.count }
    ensures { result ≡ due_in table.now k next }
{
    Due {
        part: Part::Data(table.node, k + 1),
        context: Context {
            up: table.head,
            next,
        },
        is_enough: k > 0 || table.count <= table.room,
    }
}

// How many data blocks of a file are visited with block `m` of its table.
fn table_end(table: &FileTable, m: u32) -> u32
    requires { m ≤ 8388608 }
    ensures { result ≡ end_in table.now (m + 1) }
{
    table.count.min(table.room).min(POINTERS as u32 * (m + 1))
}

// Judges data block `k + 1` of an FFS file, which block `holder` points to, and takes it or not.
#[inline(never)]
fn go_on_ffs(
    image: &SizedImage<'_>,
    progress: &mut Progress,
    table: &FileTable,
    k: u32,
    holder: u32,
) -> Result<Option<u32>, NoMemory>
    requires inside { k < table.now.count }
    requires due { HasReachedPart image.now progress.old (due_in table.now k 0) holder (table_word k) }
    ensures { IfOk result (λ o. (s : Course)
        → IsNamed image.now progress.old (due_in table.now k 0) holder (table_word k) s
        → IsGoneOn image.now s (Part.Data table.now.node (k + 1)) holder (table_word k)
        progress.new o) }
{
    let due = data_due(table, k, 0);
    let gone = go_on(
        image,
        progress,
        due,
        holder,
        FIRST_POINTER - k as usize % POINTERS,
    )?;
    Ok(gone)
}

// Visits the data blocks of an FFS file with enough extension blocks that a block of its table points to.
fn go_through_ffs_table(
    image: &SizedImage<'_>,
    progress: &mut Progress,
    table: &FileTable,
    member: &Member,
) -> Result<(), NoMemory>
    requires kind { kind_of image.now ≡ Ffs }
    requires whole { table.now.count ≤ table.now.room }
    requires few { member.now.number ≤ 8388608 }
    requires some { POINTERS * member.now.number < end_in table.now (member.now.number + 1) }
    requires at { HasReachedNamed image.now progress.old table.now
        member.now.number member.now.block (POINTERS * member.now.number) }
    ensures { OnOk result (HasReachedNamed image.now progress.new table.now
        member.now.number member.now.block (end_in table.now (member.now.number + 1))) }
{
    let holder = member.block;
    let pointers = image.block(holder);
    let first = POINTERS as u32 * member.number;
    for k in first..table_end(table, member.number) {
        let b = pointers.word(FIRST_POINTER - (k - first) as usize);
        if progress.found.owners.is_free(b) {
            progress.found.take(Part::Data(table.node, k + 1), b)?;
        } else {
            go_on_ffs(image, progress, table, k, holder)?;
        }
    }
    Ok(())
}

// Visits the data blocks of a file that a block of its table points to.
fn go_through_any_table(
    image: &SizedImage<'_>,
    progress: &mut Progress,
    table: &FileTable,
    member: &Member,
) -> Result<(), NoMemory>
    requires few { member.now.number ≤ 8388608 }
    requires some { POINTERS * member.now.number < end_in table.now (member.now.number + 1) }
    requires at { HasReachedNamed image.now progress.old table.now
        member.now.number member.now.block (POINTERS * member.now.number) }
    ensures { OnOk result (HasReachedNamed image.now progress.new table.now
        member.now.number member.now.block (end_in table.now (member.now.number + 1))) }
{
    let holder = member.block;
    let first = POINTERS as u32 * member.number;
    for k in first..table_end(table, member.number) {
        let next = next_data(image, table, k + 1, holder);
        let due = data_due(table, k, next);
        go_on(
            image,
            progress,
            due,
            holder,
            FIRST_POINTER - (k - first) as usize,
        )?;
    }
    Ok(())
}

// Whether the file is one of FFS with enough extension blocks.
fn is_whole_ffs(image: &SizedImage<'_>, table: &FileTable) -> bool
    ensures kind { IsTrue result → kind_of image.now ≡ Ffs }
    ensures whole { IsTrue result → table.now.count ≤ table.now.room }
{
    match image.kind() {
        Kind::Ffs => table.count <= table.room,
        Kind::Ofs => false,
    }
}

// Visits the data blocks of a file that a block of its table points to.
fn go_through_table(
    image: &SizedImage<'_>,
    progress: &mut Progress,
    table: &FileTable,
    member: &Member,
) -> Result<(), NoMemory>
    requires few { member.now.number ≤ 8388608 }
    requires some { POINTERS * member.now.number < end_in table.now (member.now.number + 1) }
    requires at { HasReachedNamed image.now progress.old table.now
        member.now.number member.now.block (POINTERS * member.now.number) }
    ensures { OnOk result (HasReachedNamed image.now progress.new table.now
        member.now.number member.now.block (end_in table.now (member.now.number + 1))) }
{
    if is_whole_ffs(image, table) {
        go_through_ffs_table(image, progress, table, member)
    } else {
        go_through_any_table(image, progress, table, member)
    }
}

// Visits the data blocks of a file, with its header at block `b` and this many extension blocks.
fn go_through_datas(
    image: &SizedImage<'_>,
    progress: &mut Progress,
    node: u32,
    b: u32,
    exts: u32,
) -> Result<(), NoMemory>
    requires few { exts ≤ 8388608 }
    requires at { HasReachedData image.now progress.old node b exts }
    ensures { OnOk result (HasReached image.now progress.new (before_node (node + 1))) }
{
    let count = image.data_count(b);
    if count == 0 {
        return Ok(());
    }
    let table = FileTable {
        node,
        head: b,
        count,
        room: POINTERS as u32 * (exts + 1),
    };
    let end = table.count.min(table.room);
    let mut holder = b;
    for m in 0..end.div_ceil(POINTERS as u32) {
        let member = Member {
            number: m,
            block: holder,
        };
        go_through_table(image, progress, &table, &member)?;
        holder = image.word(holder, EXTENSION);
    }
    Ok(())
}

// Visits the parts of a node: the chains of a directory, or the blocks of a file.
fn go_through_node(
    image: &SizedImage<'_>,
    progress: &mut Progress,
    node: u32,
) -> Result<(), NoMemory>
    requires some { node < length progress.old.found.nodes.items }
    requires at { HasReached image.now progress.old (before_node node) }
    ensures { OnOk result (HasReached image.now progress.new (before_node (node + 1))) }
{
    let b = progress.found.node_block(node);
    let kind = image.word(b, SECONDARY_TYPE);
    if node == 0 || kind == ST_DIR {
        go_through_dir(image, progress, node, b)
    } else if kind == ST_FILE {
        let exts = go_through_exts(image, progress, node, b)?;
        go_through_datas(image, progress, node, b, exts)
    } else {
        Ok(())
    }
}

/// Visits the parts of a volume, until none is next.
#[tactic(auto, using(crate::proofs::CoursePlaces::nodes_end))]
pub fn run(image: &SizedImage<'_>, progress: &mut Progress) -> Result<(), NoMemory>
    requires { HasReachedPage image.now progress.old 0 (root_of image.now) }
    ensures { OnOk result (IsFinished image.now progress.new.found (noted progress.new)) }
{
    go_through_map(image, progress)?;
    let mut node = 0;
    while (node as usize) < progress.found.nodes.len() {
        go_through_node(image, progress, node)?;
        node += 1;
    }
    Ok(())
}
