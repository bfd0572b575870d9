// The objects of a volume and its entries.

use crate::reports::Report;
use adf_base::Stamp;
use adf_fields::push_stamp;
use adf_json::{Member, Value, push_object};
use adf_judge::{Claim, Object, Reading};
use adf_names::{Meta, Stamps};
use std::alloc::{AllocError, Global};

// The text of a date.
fn date_text(alloc: Global, stamp: Stamp) -> Result<Vec<u8>, AllocError> {
    let mut text = Vec::new(alloc);
    push_stamp(&mut text, stamp)?;
    Ok(text)
}

// The texts of the dates of a volume.
#[derive(Drop)]
struct VolumeDates {
    root: Vec<u8>,
    altered: Vec<u8>,
    created: Vec<u8>,
}

impl VolumeDates {
    fn of(alloc: Global, stamps: Stamps) -> Result<VolumeDates, AllocError> {
        Ok(VolumeDates {
            root: date_text(alloc, stamps.root)?,
            altered: date_text(alloc, stamps.altered)?,
            created: date_text(alloc, stamps.created)?,
        })
    }

    // The members of the object of a volume.
    fn members<'a>(&'a self, reading: &'a Reading) -> [Member<'a>; 7] {
        [
            Member::text("line", "volume"),
            Member::text("kind", reading.kind.text()),
            Member::number("blocks", reading.blocks),
            Member::bytes("label", reading.label.bytes()),
            Member::bytes("root", &self.root),
            Member::bytes("altered", &self.altered),
            Member::bytes("created", &self.created),
        ]
    }
}

/// Appends the object of a volume.
pub fn push_volume_object(
    alloc: Global,
    reading: &Reading,
    text: &mut Vec<u8>,
) -> Result<(), AllocError> {
    let dates = VolumeDates::of(alloc, reading.stamps)?;
    push_object(text, &dates.members(reading))
}

// The word for a file or a directory; a wrong link counts as a file.
fn object_word(claim: &Claim) -> &'static str {
    match claim.object {
        Object::Directory => "dir",
        _ => "file",
    }
}

// The size of a file.
fn size_value(claim: &Claim) -> Value<'static> {
    match claim.object {
        Object::Directory => Value::Nothing,
        _ => Value::Number(u64::from(claim.size)),
    }
}

/// What is reported of a directory or file, or of a wrong link: its claim, its path as objects have it, and whether it is sound.
#[derive(Clone, Copy)]
pub struct EntryFacts<'a> {
    pub claim: &'a Claim,
    pub path: &'a [u8],
    pub is_sound: bool,
}

// The members of the object of an entry with this date.
fn entry_members<'a>(facts: EntryFacts<'a>, date: &'a [u8]) -> [Member<'a>; 8] {
    let meta = &facts.claim.meta;
    [
        Member::text("line", "entry"),
        Member::bytes("path", facts.path),
        Member::text("kind", object_word(facts.claim)),
        Member::of("sound", Value::Truth(facts.is_sound)),
        Member::of("size", size_value(facts.claim)),
        Member::bytes("date", date),
        Member::number("protection", meta.protect),
        Member::bytes("comment", meta.comment.bytes()),
    ]
}

/// Appends the object of a directory or file, or of a wrong link.
pub fn push_entry_object(
    alloc: Global,
    facts: EntryFacts<'_>,
    text: &mut Vec<u8>,
) -> Result<(), AllocError> {
    let date = date_text(alloc, facts.claim.meta.stamp)?;
    push_object(text, &entry_members(facts, &date))
}

// The texts of a link: its path, its date, and the path that it leads to, if it is a hard one.
#[derive(Drop)]
struct LinkTexts {
    path: Vec<u8>,
    date: Vec<u8>,
    target: Option<Vec<u8>>,
}

impl LinkTexts {
    fn of(
        alloc: Global,
        report: &Report<'_, '_>,
        number: usize,
        meta: &Meta,
    ) -> Result<LinkTexts, AllocError> {
        Ok(LinkTexts {
            path: report.path(alloc, number, true)?,
            date: date_text(alloc, meta.stamp)?,
            target: report.target_path(alloc, number)?,
        })
    }

    // What a hard link leads to.
    fn target_value(&self) -> Value<'_> {
        match &self.target {
            Some(path) => Value::Bytes(path),
            None => Value::Nothing,
        }
    }

    // The path in the header of a soft link.
    fn soft_value<'a>(&self, path: &'a [u8]) -> Value<'a> {
        match &self.target {
            Some(_) => Value::Nothing,
            None => Value::Bytes(path),
        }
    }

    // The members of the object of a link with this path in its header.
    fn members<'a>(&'a self, meta: &'a Meta, soft: &'a [u8]) -> [Member<'a>; 7] {
        [
            Member::text("line", "link"),
            Member::bytes("path", &self.path),
            Member::bytes("date", &self.date),
            Member::number("protection", meta.protect),
            Member::bytes("comment", meta.comment.bytes()),
            Member::of("target", self.target_value()),
            Member::of("soft", self.soft_value(soft)),
        ]
    }
}

impl Report<'_, '_> {
    // The path of what a hard link leads to, as objects have it.
    fn target_path(&self, alloc: Global, number: usize) -> Result<Option<Vec<u8>>, AllocError> {
        match self.target_of(number) {
            0 => Ok(None),
            target => Ok(Some(self.path(alloc, target, true)?)),
        }
    }

    /// Appends the object of a right link.
    pub fn push_link_object(
        &self,
        alloc: Global,
        number: usize,
        text: &mut Vec<u8>,
    ) -> Result<(), AllocError> {
        let Some(claim) = self.claim(number) else {
            return Ok(());
        };
        let texts = LinkTexts::of(alloc, self, number, &claim.meta)?;
        push_object(text, &texts.members(&claim.meta, self.soft_path(number)))
    }
}
