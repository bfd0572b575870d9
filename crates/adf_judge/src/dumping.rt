// A judgement in numbers, a line each: for comparing judges.

use crate::judgement::{Claim, DeletedHeader, Object, Origin, Refusal, Sign};
use crate::judging::Judgement;
use adf_base::{Letters, NoMemory};
use adf_blocks::{ST_DIR, ST_FILE, ST_LINK_DIR, ST_LINK_FILE, ST_SOFT_LINK};
use adf_names::{Kind, hex_digit, push_number};

/// Appends all that a judgement says: the volume, the claims, the deleted headers and what is amiss; names in hexadecimal digits.
pub fn dump(judgement: &Judgement<'_>, out: &mut Vec<u8>) -> Result<(), NoMemory> {
    let reading = &judgement.reading;
    out.extend_from_slice(b"volume ")?;
    push_number(out, reading.blocks, b' ')?;
    push_flag(out, reading.kind == Kind::Ffs, b' ')?;
    push_flag(out, reading.letters == Letters::International, b'\n')?;
    for claim in &judgement.claims {
        push_claim(judgement, claim, out)?;
    }
    for deleted in &judgement.deleted {
        push_deleted(deleted, out)?;
    }
    for amiss in &judgement.amiss {
        out.extend_from_slice(b"amiss ")?;
        push_index(out, amiss.claim, b' ')?;
        push_number(out, amiss.first, b' ')?;
        push_number(out, amiss.past, b' ')?;
        out.extend_from_slice(sign_text(amiss.sign).as_bytes())?;
        out.push(b'\n')?;
    }
    Ok(())
}

/// Why an image is not judged, as a line.
pub fn refusal_text(refusal: Refusal) -> &'static str {
    match refusal {
        Refusal::BadSize => "bad size",
        Refusal::LongNames => "long names",
    }
}

fn push_claim(judgement: &Judgement<'_>, claim: &Claim, out: &mut Vec<u8>) -> Result<(), NoMemory> {
    out.extend_from_slice(b"claim ")?;
    push_number(out, claim.header, b' ')?;
    push_index(out, claim.directory, b' ')?;
    push_number(out, type_of(claim.object), b' ')?;
    push_number(out, origin_number(claim.origin), b' ')?;
    push_flag(out, claim.is_given, b' ')?;
    push_flag(out, claim.is_certain, b' ')?;
    push_index(out, claim.target, b' ')?;
    push_lost_data(judgement, claim, out)?;
    push_name(out, &claim.name)
}

fn push_deleted(deleted: &DeletedHeader, out: &mut Vec<u8>) -> Result<(), NoMemory> {
    out.extend_from_slice(b"deleted ")?;
    push_number(out, deleted.header, b' ')?;
    push_number(out, deleted.directory, b' ')?;
    push_number(out, type_of(deleted.object), b' ')?;
    push_number(out, deleted.needs, b' ')?;
    push_number(out, deleted.overwritten, b' ')?;
    push_number(out, deleted.rival, b' ')?;
    push_number(out, deleted.target, b' ')?;
    push_name(out, &deleted.name)
}

// The runs of a file's data blocks that are not its own, by their numbers; `-` if there are none.
fn push_lost_data(
    judgement: &Judgement<'_>,
    claim: &Claim,
    out: &mut Vec<u8>,
) -> Result<(), NoMemory> {
    let before = out.len();
    let mut first = 0u32;
    let many = judgement.named_blocks(claim.header);
    let last = if claim.object == Object::File {
        many
    } else {
        0
    };
    for at in 0..last {
        let k = at.saturating_add(1);
        if judgement.data_block(claim.header, k).is_some() {
            first = 0;
        } else {
            if first == 0 {
                first = k;
            }
            if k == last
                || judgement
                    .data_block(claim.header, k.saturating_add(1))
                    .is_some()
            {
                push_number(out, first, b'-')?;
                push_number(out, k, b',')?;
            }
        }
    }
    if out.len() > before {
        out.pop();
    } else {
        out.push(b'-')?;
    }
    out.push(b' ')?;
    Ok(())
}

fn push_flag(out: &mut Vec<u8>, flag: bool, end: u8) -> Result<(), NoMemory> {
    push_number(out, u32::from(flag), end)?;
    Ok(())
}

fn push_index(out: &mut Vec<u8>, index: usize, end: u8) -> Result<(), NoMemory> {
    push_number(out, u32::try_from(index).unwrap_or(u32::MAX), end)?;
    Ok(())
}

fn push_name(out: &mut Vec<u8>, name: &[u8]) -> Result<(), NoMemory> {
    for c in name {
        out.push(hex_digit(*c / 16))?;
        out.push(hex_digit(*c % 16))?;
    }
    out.push(b'\n')?;
    Ok(())
}

fn type_of(object: Object) -> u32 {
    match object {
        Object::Directory => ST_DIR,
        Object::File => ST_FILE,
        Object::SoftLink => ST_SOFT_LINK,
        Object::DirectoryLink => ST_LINK_DIR,
        Object::FileLink => ST_LINK_FILE,
    }
}

fn origin_number(origin: Origin) -> u32 {
    match origin {
        Origin::Reached => 1,
        Origin::Made => 2,
        Origin::Orphaned => 3,
        Origin::PerhapsDeleted => 4,
    }
}

fn sign_text(sign: Sign) -> &'static str {
    match sign {
        Sign::Type => "type",
        Sign::Root => "root",
        Sign::Length => "length",
        Sign::NoData => "no data",
        Sign::LabelCut => "label cut",
        Sign::Bitmap => "bitmap",
        Sign::LostIn => "lost in",
        Sign::Damaged => "damaged",
        Sign::Link => "link",
        Sign::InDoubt => "in doubt",
        Sign::Made => "made",
        Sign::PerhapsDeleted => "perhaps deleted",
        Sign::FoundAgain => "found again",
        Sign::OwnedFree => "owned free",
        Sign::Renamed => "renamed",
        Sign::CommentCut => "comment cut",
        Sign::Lost => "lost",
    }
}
