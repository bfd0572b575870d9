// The root block of a volume: writer.

ghost use Rattle.std.specs.Prelude.{◌≡◌, ◌≤◌, ◌<◌, ◌+◌, ◌*◌, ◌^◌, ℕ, length, slice_index, None};
ghost use Rattle.adf_base.specs.Words.{block, with_block, word};
ghost use Rattle.adf_blocks.specs.Forms.{first_cause, text_at};
ghost use Rattle.adf_blocks.specs.RootBlock.{FitsRoot, RootFields, root_block, root_fields, root_form, stamps_at};
ghost use Rattle.adf_names.specs.Meta.{AreStamps};

use crate::fields::{put_stamp, put_text};
use crate::layout::{
    ALTERED, BITMAP_FLAG, CHECKSUM, CREATED, DATE, FIRST_MAP_EXT, FIRST_PAGE, FIRST_SLOT,
    HASH_SIZE, NAME, ROOT_PAGES, SECONDARY_TYPE, SLOTS, ST_ROOT, T_SHORT, TYPE, VALID,
};
use adf_base::{put_block, put_word, put_words, seal_block};
use adf_names::{Label, Stamps};

/// The fields of a root block to write.
#[derive(Drop)]
pub struct RootOut<'p, 'l> {
    /// The first header of each slot's chain, or 0.
    pub slots: [u32; SLOTS as usize],
    /// The bitmap pages, at most 25.
    pub pages: &'p [u32],
    /// The first bitmap extension block, or 0.
    pub map_ext: u32,
    pub label: &'l Label,
    pub stamps: Stamps,
}

// The 512 bytes of a root.
fn root_bytes(r: &RootOut<'_, '_>) -> [u8; 512]
    requires { length r.now.pages.now ≤ ROOT_PAGES }
    ensures exact { result ≡ root_block (root_fields r.now) }
    ensures fits { FitsRoot (root_fields r.now) }
    ensures stamps { AreStamps r.now.stamps }
{
    let mut block = [0u8; 512];
    put_word(&mut block, TYPE, T_SHORT);
    put_word(&mut block, HASH_SIZE, SLOTS);
    put_words(&mut block, FIRST_SLOT, &r.slots);
    put_word(&mut block, BITMAP_FLAG, VALID);
    put_words(&mut block, FIRST_PAGE, r.pages);
    put_word(&mut block, FIRST_MAP_EXT, r.map_ext);
    put_stamp(&mut block, DATE, r.stamps.root);
    put_text(&mut block, NAME, r.label.bytes());
    put_stamp(&mut block, ALTERED, r.stamps.altered);
    put_stamp(&mut block, CREATED, r.stamps.created);
    put_word(&mut block, SECONDARY_TYPE, ST_ROOT);
    seal_block(&mut block, CHECKSUM);
    block
}

/// Writes the root over block `b` of an image. `read_root` accepts it.
#[tactic(auto, using(crate::proofs::RootLaws::written_root_form))]
pub fn write_root(image: &mut [u8], b: u32, r: &RootOut<'_, '_>)
    requires whole { b * 512 + 512 ≤ length image.old }
    requires pages { length r.now.pages.now ≤ ROOT_PAGES }
    ensures exact { image.new ≡ with_block image.old b (root_block (root_fields r.now)) }
    ensures form { first_cause (root_form (block image.new b)) ≡ None }
    ensures fits { FitsRoot (root_fields r.now) }
    ensures stamps { AreStamps r.now.stamps }
{
    put_block(image, b, &root_bytes(r));
}

/// Reading a written root gives back its fields.
pub fn written_roots_are_read()
    ensures whole { (r : RootFields) → FitsRoot r → length (root_block r) ≡ 512 }
    ensures form { (r : RootFields) → FitsRoot r → first_cause (root_form (root_block r)) ≡ None }
    ensures slots { (r : RootFields) (s : ℕ) → FitsRoot r → s < SLOTS
        → slice_index r.slots s < 2 ^ 32
        → word (root_block r) (FIRST_SLOT + s) ≡ slice_index r.slots s }
    // `slice_index` past the last page is 0
    ensures pages { (r : RootFields) (i : ℕ) → FitsRoot r → i < ROOT_PAGES
        → slice_index r.pages i < 2 ^ 32
        → word (root_block r) (FIRST_PAGE + i) ≡ slice_index r.pages i }
    ensures map_ext { (r : RootFields) → FitsRoot r → r.map_ext < 2 ^ 32
        → word (root_block r) FIRST_MAP_EXT ≡ r.map_ext }
    ensures label { (r : RootFields) → FitsRoot r → text_at (root_block r) NAME ≡ r.label }
    ensures stamps { (r : RootFields) → FitsRoot r → AreStamps r.stamps
        → stamps_at (root_block r) ≡ r.stamps }
{}
