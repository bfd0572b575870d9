// What the header of a claim states, and the claim itself.

use crate::claims::Claims;
use crate::judgement::{Claim, Object, Origin};
use crate::keys::NameKey;
use crate::names::{Names, lost_name};
use crate::texts::short_text;
use adf_base::{NO_STAMP, NoMemory};
use adf_blocks::{NAME, SIZE};
use adf_evidence::{COMMENT, DATE, MOST_TEXT, PROTECTION};
use adf_names::Meta;
use std::alloc::Global;

impl Claims<'_> {
    /// The comment, protection bits and date that a header states.
    pub(crate) fn meta_of_header(&self, h: u32) -> Meta {
        Meta {
            comment: short_text(self.image.text(h, COMMENT, MOST_TEXT)),
            protect: self.image.word(h, PROTECTION),
            stamp: self.image.stamp(h, DATE),
        }
    }

    // Those of a claim: of a directory that is made by the record of a directory cache.
    fn meta(&self, h: u32) -> Meta {
        let caches = &self.orphans.caches;
        if self.origin(h) != Origin::Made {
            return self.meta_of_header(h);
        }
        if !caches.has(h) {
            return Meta::new(short_text(&[]), 0, NO_STAMP);
        }
        Meta {
            comment: short_text(caches.comment(&self.image, h)),
            protect: caches.protection(&self.image, h),
            stamp: caches.date(&self.image, h),
        }
    }

    /// The claim of a header.
    pub(crate) fn claim(
        &self,
        alloc: Global,
        names: &Names,
        header: u32,
    ) -> Result<Claim, NoMemory> {
        let object = self.object(header);
        let is_file = object == Object::File;
        let stated_name = self.stated_name(alloc, header)?;
        Ok(Claim {
            header,
            directory: self.place.get(self.walk.parent.get(header)) as usize,
            name: names.name(alloc, self, header)?,
            stated_name,
            object,
            origin: self.origin(header),
            meta: self.meta(header),
            size: if is_file {
                self.image.word(header, SIZE)
            } else {
                0
            },
            is_given: self.intact.has(header),
            is_certain: self.is_certain(header),
            target: self.target(header),
        })
    }

    /// The name that its header states; of a directory that is made, the one in the record of a directory cache.
    pub(crate) fn stated_name(&self, alloc: Global, h: u32) -> Result<Vec<u8>, NoMemory> {
        if self.origin(h) != Origin::Made {
            let name = self.image.text(h, NAME, MOST_TEXT);
            return Ok(Vec::from_slice(alloc, name)?);
        }
        if self.orphans.caches.has(h) {
            return Ok(Vec::from_slice(alloc, self.orphans.caches.name(&self.image, h))?);
        }
        lost_name(alloc, h, 0)
    }

    /// The key of a name in the directory of a header.
    pub(crate) fn key(&self, h: u32, name: &[u8]) -> NameKey {
        NameKey::new(self.walk.parent.get(h), name, self.walk.letters())
    }
}
