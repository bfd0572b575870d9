// The forms of parts.

ghost use Rattle.std.specs.Prelude.{◌≡◌, ◌<◌, ◌≤◌, ◌==◌, ◌&&◌, true};
ghost use Rattle.adf_base.specs.Words.{block, word};
ghost use Rattle.adf_blocks.specs.{Forms.first_cause, Sizes.blocks, Sizes.chunk};
ghost use Rattle.adf_volume.specs.{Image.held, Image.kind_of, Parts.role_of};
ghost use Rattle.adf_findings.specs.{Demands.head_form_in, Forms.form_of, Forms.itself_by};

use crate::image::SizedImage;
use adf_base::Block;
use adf_blocks::{
    Cause, HeadPlace, OWN_KEY, PARENT, SIZE, T_DATA, TYPE, chunk_len, has_data_words, has_ext_type,
    has_head_type, read_data, read_ext, read_head_at, read_page,
};
use adf_tree::Kind;
use adf_volume::{Part, held_in};

/// The context of a part: the block of its directory or of its file's header, and the next data block.
#[derive(Clone, Copy, PartialEq, Eq, Drop)]
pub struct Context {
    pub up: u32,
    pub next: u32,
}

// The first cause of block `b` in the form of data block `number` of a file.
#[tactic(auto, unfolding(adf_blocks::specs::Sizes::chunk))]
fn cause_of_data(image: &SizedImage<'_>, number: u32, b: u32, context: Context) -> Option<Cause>
    requires { b < blocks image.now }
    ensures { result ≡ first_cause (form_of image.now (Part.Data 0 number) b context) }
{
    match image.kind() {
        Kind::Ffs => None,
        Kind::Ofs => {
            let held = held_in(Kind::Ofs, image.word(context.up, SIZE), number);
            match read_data(image.block(b), context.up, number, held, context.next) {
                Ok(_) => None,
                Err(cause) => Some(cause),
            }
        }
    }
}

// The first cause of block `b` in the form of a header in the chain of a slot.
fn cause_of_head(image: &SizedImage<'_>, slot: u8, b: u32, up: u32) -> Option<Cause>
    requires { b < blocks image.now }
    ensures { result
        ≡ first_cause (head_form_in image.now (kind_of image.now) b up slot (block image.now b)) }
{
    let place = HeadPlace {
        own: b,
        parent: up,
        letters: image.letters(),
        slot,
    };
    match read_head_at(image.block(b), image.kind(), place) {
        Ok(_) => None,
        Err(cause) => Some(cause),
    }
}

/// The first cause of block `b` in the form of the part.
#[inline(always)]
pub fn first_cause(image: &SizedImage<'_>, part: Part, b: u32, context: Context) -> Option<Cause>
    requires { b < blocks image.now }
    ensures { result ≡ first_cause (form_of image.now part b context) }
{
    match part {
        Part::Root | Part::MapExt(_) => None,
        Part::Page(_) => match read_page(image.block(b)) {
            Ok(_) => None,
            Err(cause) => Some(cause),
        },
        Part::Head { slot, .. } => cause_of_head(image, slot, b, context.up),
        Part::Ext(_, _) => match read_ext(image.block(b), b, context.up) {
            Ok(_) => None,
            Err(cause) => Some(cause),
        },
        Part::Data(_, k) => cause_of_data(image, k, b, context),
    }
}

// Whether the block's own key and parent are these.
fn is_keyed(b: &Block<'_>, own: u32, up: u32) -> bool
    ensures { result ≡ ((word b.now OWN_KEY == own) && (word b.now PARENT == up)) }
{
    b.word(OWN_KEY) == own && b.word(PARENT) == up
}

// Whether the fields of block `b` identify it as data block `number` of a file.
fn is_data_itself(image: &SizedImage<'_>, number: u32, b: u32, context: Context) -> bool
    requires { b < blocks image.now }
    ensures { result
        ≡ itself_by (role_of (Part.Data 0 number))
        (form_of image.now (Part.Data 0 number) b context) }
{
    match image.kind() {
        Kind::Ffs => true,
        Kind::Ofs => {
            let held = held_in(Kind::Ofs, image.word(context.up, SIZE), number);
            let block = image.block(b);
            block.word(TYPE) == T_DATA
                && has_data_words(&block, context.up, number, held, context.next)
        }
    }
}

/// Whether the fields of block `b` identify it as the part; for a page, whether its form holds.
#[inline(always)]
pub fn is_itself(image: &SizedImage<'_>, part: Part, b: u32, context: Context) -> bool
    requires { b < blocks image.now }
    ensures { result ≡ itself_by (role_of part) (form_of image.now part b context) }
{
    let block = image.block(b);
    match part {
        Part::Root | Part::MapExt(_) => true,
        Part::Page(_) => block.long_sum() == 0,
        Part::Head { .. } => has_head_type(&block) && is_keyed(&block, b, context.up),
        Part::Ext(_, _) => has_ext_type(&block) && is_keyed(&block, b, context.up),
        Part::Data(_, k) => is_data_itself(image, k, b, context),
    }
}
