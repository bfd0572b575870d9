// The lines of deleted entries.

use crate::entry_lines::{listed_body, push_link_columns, push_link_end};
use crate::reports::{Report, is_whole};
use adf_judge::{DeletedHeader, Object};
use adf_names::{push_escaped, push_number};
use adf_texts::push_head_lines;
use std::alloc::{AllocError, Global};

// Appends how many data blocks of a file are not its own any more.
fn push_overwritten(text: &mut Vec<u8>, deleted: &DeletedHeader) -> Result<(), AllocError> {
    text.extend_from_slice(b"overwritten: ")?;
    push_number(text, deleted.overwritten, b' ')?;
    text.extend_from_slice(b"of ")?;
    push_number(text, deleted.needs, b' ')?;
    text.extend_from_slice(b"blocks")
}

impl Report<'_, '_> {
    // Appends the path of the deleted entry with its header in a block, if there is one.
    fn push_path_in(
        &self,
        alloc: Global,
        block: u32,
        text: &mut Vec<u8>,
    ) -> Result<(), AllocError> {
        let Some(index) = self.deleted_at(block) else {
            return Ok(());
        };
        let path = self.deleted_path(alloc, index)?;
        text.extend_from_slice(&path)
    }

    /// Appends whether a deleted entry is whole, contested or overwritten.
    pub fn push_deleted_state(
        &self,
        alloc: Global,
        deleted: &DeletedHeader,
        text: &mut Vec<u8>,
    ) -> Result<(), AllocError> {
        if is_whole(deleted) {
            return text.extend_from_slice(b"whole");
        }
        if deleted.overwritten != 0 {
            return push_overwritten(text, deleted);
        }
        text.extend_from_slice(b"contested: ")?;
        self.push_path_in(alloc, deleted.rival, text)
    }

    // Appends what a deleted hard link leads to, if that is known: a claimed or a deleted entry.
    fn push_hard_target(
        &self,
        alloc: Global,
        block: u32,
        text: &mut Vec<u8>,
    ) -> Result<(), AllocError> {
        let number = self.claim_at(block);
        if number == 0 && self.deleted_at(block).is_none() {
            return Ok(());
        }
        text.extend_from_slice(b" -> ")?;
        if number != 0 {
            return self.push_path(alloc, number, text);
        }
        self.push_path_in(alloc, block, text)
    }

    // Appends what a deleted link leads to, if that is known.
    fn push_deleted_target(
        &self,
        alloc: Global,
        deleted: &DeletedHeader,
        text: &mut Vec<u8>,
    ) -> Result<(), AllocError> {
        if deleted.object != Object::SoftLink {
            return self.push_hard_target(alloc, deleted.target, text);
        }
        let path = self.path_in_header(deleted.header);
        if path.is_empty() {
            return Ok(());
        }
        text.extend_from_slice(b" -> ")?;
        push_escaped(text, path)
    }

    // Appends the lines of a deleted link with this path.
    fn push_deleted_link(
        &self,
        alloc: Global,
        deleted: &DeletedHeader,
        path: &[u8],
        text: &mut Vec<u8>,
    ) -> Result<(), AllocError> {
        push_link_columns(text, &deleted.meta)?;
        text.extend_from_slice(path)?;
        self.push_deleted_target(alloc, deleted, text)?;
        push_link_end(text, &deleted.meta)
    }

    // Appends what the header of a deleted entry with this path says, as the lines of a list have it.
    fn push_deleted_entry(
        &self,
        alloc: Global,
        deleted: &DeletedHeader,
        path: &[u8],
        text: &mut Vec<u8>,
    ) -> Result<(), AllocError> {
        match deleted.object {
            Object::Directory | Object::File => {
                let body = listed_body(deleted.object, deleted.size);
                push_head_lines(text, body, &deleted.meta, path)
            }
            _ => self.push_deleted_link(alloc, deleted, path, text),
        }
    }

    /// Appends the lines of a deleted entry, by its index.
    pub fn push_deleted(
        &self,
        alloc: Global,
        index: usize,
        text: &mut Vec<u8>,
    ) -> Result<(), AllocError> {
        let Some(deleted) = self.deleted(index) else {
            return Ok(());
        };
        text.extend_from_slice(b"block ")?;
        push_number(text, deleted.header, b':')?;
        text.extend_from_slice(b" ")?;
        self.push_deleted_state(alloc, deleted, text)?;
        text.extend_from_slice(b": ")?;
        let path = self.deleted_path(alloc, index)?;
        self.push_deleted_entry(alloc, deleted, &path, text)
    }
}
