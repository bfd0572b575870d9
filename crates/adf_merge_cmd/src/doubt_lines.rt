// The lines of what is left to chance, or in no reading.

ghost use Rattle.std.specs.Prelude.{◌<◌, IfOk, OnOk, length, vec_len};

use adf_names::push_number;
use adf_readings::{Doubt, Why};
use std::alloc::{AllocError, Global};

/// Blocks that follow one another, of which the same is told.
#[derive(Clone, Copy, Debug, PartialEq, Eq)]
pub struct Stretch {
    pub first: u32,
    pub last: u32,
    pub why: Why,
}

// Whether the same is told.
fn is_same_why(one: Why, other: Why) -> bool {
    match (one, other) {
        (Why::Differing(few), Why::Differing(many)) => few == many,
        (Why::Unread, Why::Unread) => true,
        _ => false,
    }
}

// Appends how many readings differ.
fn push_differing(differing: u32, text: &mut Vec<u8>) -> Result<(), AllocError>
    ensures { OnOk result (0 < vec_len text.new) }
{
    if differing == 1 {
        return text.extend_from_slice(b" 1 reading differs\n");
    }
    text.extend_from_slice(b" ")?;
    push_number(text, differing, b' ')?;
    text.extend_from_slice(b"readings differ\n")
}

impl Stretch {
    // The stretch of one block.
    fn begun_stretch(doubt: Doubt) -> Stretch {
        Stretch {
            first: doubt.block,
            last: doubt.block,
            why: doubt.why,
        }
    }

    // Whether it goes on with this block.
    fn goes_on(self, doubt: Doubt) -> bool {
        u64::from(doubt.block) == u64::from(self.last) + 1 && is_same_why(doubt.why, self.why)
    }

    // Appends its blocks.
    fn push_blocks(self, text: &mut Vec<u8>) -> Result<(), AllocError> {
        if self.first == self.last {
            text.extend_from_slice(b"block ")?;
        } else {
            text.extend_from_slice(b"blocks ")?;
            push_number(text, self.first, b' ')?;
            text.extend_from_slice(b"to ")?;
        }
        push_number(text, self.last, b':')
    }

    // Appends what is told of them.
    fn push_why(self, text: &mut Vec<u8>) -> Result<(), AllocError>
        ensures { OnOk result (0 < vec_len text.new) }
    {
        match self.why {
            Why::Differing(differing) => push_differing(differing, text),
            Why::Unread => text.extend_from_slice(b" in no reading\n"),
        }
    }

    // Appends its line.
    fn push_line(self, text: &mut Vec<u8>) -> Result<(), AllocError>
        ensures { OnOk result (0 < vec_len text.new) }
    {
        self.push_blocks(text)?;
        self.push_why(text)
    }
}

/// The lines of what is left to chance, or in no reading.
pub fn doubt_lines(alloc: Global, doubts: &[Doubt]) -> Result<Vec<u8>, AllocError>
    ensures { IfOk result (λ text. 0 < length doubts.now → 0 < vec_len text) }
{
    let mut text = Vec::new(alloc);
    if doubts.is_empty() {
        return Ok(text);
    }
    let mut stretch = Stretch::begun_stretch(doubts[0]);
    for i in 1..doubts.len() {
        let next = doubts[i];
        if stretch.goes_on(next) {
            stretch.last = next.block;
        } else {
            stretch.push_line(&mut text)?;
            stretch = Stretch::begun_stretch(next);
        }
    }
    stretch.push_line(&mut text)?;
    Ok(text)
}
