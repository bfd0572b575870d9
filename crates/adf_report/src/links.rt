// What links lead to.

use crate::reports::Report;
use adf_judge::Object;
use adf_names::push_escaped;
use std::alloc::{AllocError, Global};

/// The first byte of the path in the header of a soft link.
const PATH_START: usize = 24;

/// The byte after the most bytes of that path.
const PATH_END: usize = 312;

// The bytes before the first zero; none if there is no zero.
fn before_zero(bytes: &[u8]) -> &[u8] {
    for i in 0..bytes.len() {
        if bytes[i] == 0 {
            return &bytes[..i];
        }
    }
    &[]
}

impl<'i> Report<'_, 'i> {
    /// The path in a header that is that of a soft link: at most 287 bytes and a zero; empty if there is no zero.
    pub fn path_in_header(&self, header: u32) -> &'i [u8] {
        match self.judgement.block_bytes(header) {
            Some(bytes) => before_zero(bytes.get(PATH_START..PATH_END).unwrap_or(&[])),
            None => &[],
        }
    }

    /// The path of a claimed soft link; empty for anything else.
    pub fn soft_path(&self, number: usize) -> &'i [u8] {
        match self.claim(number) {
            Some(claim) if claim.object == Object::SoftLink => self.path_in_header(claim.header),
            _ => &[],
        }
    }

    /// The number of the claim that a hard link leads to; 0 for anything else.
    pub fn target_of(&self, number: usize) -> usize {
        match self.claim(number) {
            Some(claim) => claim.target,
            None => 0,
        }
    }

    /// Appends what a right link leads to: the path of an entry, or the path in the header.
    pub fn push_target(
        &self,
        alloc: Global,
        number: usize,
        text: &mut Vec<u8>,
    ) -> Result<(), AllocError> {
        match self.target_of(number) {
            0 => push_escaped(text, self.soft_path(number)),
            target => self.push_path(alloc, target, text),
        }
    }
}
