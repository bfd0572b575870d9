// How a volume is read: its type, its walk, its bitmap and its kind.

use crate::claims::Claims;
use crate::judgement::Reading;
use crate::kind::KindPoll;
use crate::texts::short_text;
use crate::walk::Walk;
use adf_base::NoMemory;
use adf_blocks::NAME;
use adf_evidence::{Bitmap, DATE, Image, Kinds, LetterVotes};
use adf_names::{Kind, NO_STAMPS, Stamps};
use std::alloc::Global;

// The first words of the dates of the last change and of the creation of a volume.
const ALTERED: usize = 118;

const CREATED: usize = 121;

const MOST_LABEL: usize = 30;

// The first word of the boot block, but for the type byte.
const DOS: u32 = 0x444F_5300;

// A number above each type byte.
const UNKNOWN_TYPE: u32 = 256;

/// The parts by which a volume is read.
#[derive(Drop)]
pub(crate) struct Volume<'a> {
    pub(crate) image: Image<'a>,
    pub(crate) bitmap: Bitmap,
    pub(crate) walk: Walk,
    pub(crate) is_ffs: bool,
}

/// The type of the boot block, if two of the letters `DOS` before it are right; else one that no volume has.
pub(crate) fn stated_type(image: &Image<'_>) -> u32 {
    let letters = [
        image.byte(0, 0) == b'D',
        image.byte(0, 1) == b'O',
        image.byte(0, 2) == b'S',
    ];
    let right = letters.iter().filter(|is_right| **is_right).count();
    if right >= 2 {
        u32::from(image.byte(0, 3))
    } else {
        UNKNOWN_TYPE
    }
}

// The kind of a stated type.
fn stated_kind(stated: u32) -> Option<Kind> {
    match stated {
        0 | 2 | 4 => Some(Kind::Ofs),
        1 | 3 | 5 => Some(Kind::Ffs),
        _ => None,
    }
}

// Whether a stated type has international letters.
fn is_stated_international(stated: u32) -> bool {
    matches!(stated, 2..=5)
}

/// The walk, the bitmap and the kind of a volume.
pub(crate) fn volume_of<'a>(
    alloc: Global,
    image: Image<'a>,
    votes: &LetterVotes,
    stated: u32,
) -> Result<Volume<'a>, NoMemory> {
    let international = votes.is_international(is_stated_international(stated));
    let walk = Walk::new(alloc, &image, international)?;
    let bitmap = Bitmap::new(alloc, &image)?;
    let mut poll = KindPoll {
        image: &image,
        bitmap: &bitmap,
        walk: &walk,
        kinds: &mut Kinds::new(alloc, image.blocks())?,
    };
    let is_ffs = poll.is_ffs(alloc, stated_kind(stated))?;
    Ok(Volume {
        image,
        bitmap,
        walk,
        is_ffs,
    })
}

/// Whether the boot block states the kind and the letters that the volume is read by.
pub(crate) fn is_type_right(found: &Claims<'_>) -> bool {
    let stated = u32::from(found.image.byte(0, 3));
    let has_letters = found.image.word(0, 0) == DOS | stated;
    has_letters
        && stated_kind(stated) == Some(found.files.kind())
        && is_stated_international(stated) == found.walk.international
}

/// How the volume is read.
pub(crate) fn reading_of(found: &Claims<'_>) -> Reading {
    let image = &found.image;
    let root = image.root();
    let mut stamps = NO_STAMPS;
    let mut label: &[u8] = &[];
    if found.bitmap.is_like_root {
        label = image.text(root, NAME, MOST_LABEL);
        stamps = Stamps {
            root: image.stamp(root, DATE),
            altered: image.stamp(root, ALTERED),
            created: image.stamp(root, CREATED),
        };
    }
    Reading {
        blocks: image.blocks(),
        held: image.held(),
        kind: found.files.kind(),
        letters: found.walk.letters(),
        label: short_text(label),
        stamps,
    }
}
