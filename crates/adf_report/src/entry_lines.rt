// The lines of a volume and its entries.

use crate::entry_objects::{EntryFacts, push_entry_object, push_volume_object};
use crate::reports::Report;
use adf_base::Stamp;
use adf_blocks::HeadBody;
use adf_fields::push_stamp;
use adf_judge::{Claim, Object};
use adf_names::{Meta, push_escaped, push_hex};
use adf_texts::{push_head_lines, push_opening_lines};
use std::alloc::{AllocError, Global};

/// What stands in the line of an entry for a directory, or for a file of some size.
pub fn listed_body(object: Object, size: u32) -> HeadBody {
    match object {
        Object::Directory => HeadBody::Dir,
        _ => HeadBody::File { size, ext: 0 },
    }
}

// Appends the mark of an entry.
fn push_mark(text: &mut Vec<u8>, is_sound: bool) -> Result<(), AllocError> {
    if is_sound {
        text.extend_from_slice(b"sound   ")
    } else {
        text.extend_from_slice(b"damaged ")
    }
}

// Appends a date and a space.
fn push_date(text: &mut Vec<u8>, stamp: Stamp) -> Result<(), AllocError> {
    push_stamp(text, stamp)?;
    text.extend_from_slice(b" ")
}

/// Appends the columns before the path of a link.
pub fn push_link_columns(text: &mut Vec<u8>, meta: &Meta) -> Result<(), AllocError> {
    text.extend_from_slice(b"link ")?;
    push_hex(text, meta.protect, b' ')?;
    text.extend_from_slice(b"         - ")?;
    push_date(text, meta.stamp)
}

/// Appends the end of the line of a link, and the line of its note if it has one.
pub fn push_link_end(text: &mut Vec<u8>, meta: &Meta) -> Result<(), AllocError> {
    text.extend_from_slice(b"\n")?;
    let note = meta.comment.bytes();
    if note.is_empty() {
        return Ok(());
    }
    text.extend_from_slice(b"note ")?;
    push_escaped(text, note)?;
    text.extend_from_slice(b"\n")
}

impl Report<'_, '_> {
    /// Appends the opening lines of the volume, or with `json` its object.
    pub fn push_volume(
        &self,
        alloc: Global,
        json: bool,
        text: &mut Vec<u8>,
    ) -> Result<(), AllocError> {
        let reading = &self.judgement.reading;
        if json {
            return push_volume_object(alloc, reading, text);
        }
        push_opening_lines(
            text,
            reading.kind,
            &reading.label,
            reading.stamps,
            reading.blocks,
        )
    }

    // Appends the lines of a right link.
    fn push_link_lines(
        &self,
        alloc: Global,
        number: usize,
        meta: &Meta,
        text: &mut Vec<u8>,
    ) -> Result<(), AllocError> {
        push_mark(text, true)?;
        push_link_columns(text, meta)?;
        self.push_path(alloc, number, text)?;
        text.extend_from_slice(b" -> ")?;
        self.push_target(alloc, number, text)?;
        push_link_end(text, meta)
    }

    // Appends the lines of a directory or file, or of a wrong link.
    fn push_entry_lines(
        &self,
        alloc: Global,
        number: usize,
        claim: &Claim,
        text: &mut Vec<u8>,
    ) -> Result<(), AllocError> {
        let path = self.path(alloc, number, false)?;
        push_mark(text, self.is_sound(number))?;
        push_head_lines(
            text,
            listed_body(claim.object, claim.size),
            &claim.meta,
            &path,
        )
    }

    // Appends the lines of a claim.
    fn push_lines(
        &self,
        alloc: Global,
        number: usize,
        claim: &Claim,
        text: &mut Vec<u8>,
    ) -> Result<(), AllocError> {
        if self.is_right_link(number) {
            return self.push_link_lines(alloc, number, &claim.meta, text);
        }
        self.push_entry_lines(alloc, number, claim, text)
    }

    // Appends the object of a claim.
    fn push_claim_object(
        &self,
        alloc: Global,
        number: usize,
        claim: &Claim,
        text: &mut Vec<u8>,
    ) -> Result<(), AllocError> {
        if self.is_right_link(number) {
            return self.push_link_object(alloc, number, text);
        }
        let path = self.path(alloc, number, true)?;
        let facts = EntryFacts {
            claim,
            path: &path,
            is_sound: self.is_sound(number),
        };
        push_entry_object(alloc, facts, text)
    }

    /// Appends the lines of a claim, by its number, or with `json` its object.
    pub fn push_entry(
        &self,
        alloc: Global,
        number: usize,
        json: bool,
        text: &mut Vec<u8>,
    ) -> Result<(), AllocError> {
        match self.claim(number) {
            Some(claim) if json => self.push_claim_object(alloc, number, claim, text),
            Some(claim) => self.push_lines(alloc, number, claim, text),
            None => Ok(()),
        }
    }
}
