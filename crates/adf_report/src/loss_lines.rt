// The lines of what is not in the volume of a rescue, or in doubt there.

use crate::losses::{Loss, Reason};
use crate::remarks::push_blocks;
use std::alloc::AllocError;

// The words before a path, or before blocks.
fn reason_words(why: Reason) -> &'static str {
    match why {
        Reason::Damaged => "damaged: ",
        Reason::Link => "link: ",
        Reason::NoRoom => "no room: ",
        Reason::Headers => "lost: in ",
        Reason::Blocks => "lost: ",
        Reason::InDoubt => "in doubt: ",
        Reason::PerhapsDeleted => "perhaps deleted: ",
        Reason::FoundAgain => "found again: ",
        Reason::Made => "made: ",
        Reason::Renamed => "renamed: ",
        Reason::CommentCut => "comment cut: ",
        Reason::LabelCut => "label cut: ",
        Reason::Bitmap => "bitmap: ",
    }
}

// Appends the line of a loss.
fn push_line(text: &mut Vec<u8>, loss: &Loss) -> Result<(), AllocError> {
    text.extend_from_slice(reason_words(loss.why).as_bytes())?;
    match loss.why {
        Reason::Blocks | Reason::LabelCut | Reason::Bitmap => {
            return push_blocks(text, loss.first, loss.last, b'\n');
        }
        _ => text.extend_from_slice(&loss.path)?,
    }
    match loss.why {
        Reason::Headers => text.extend_from_slice(b"/\n"),
        _ => text.extend_from_slice(b"\n"),
    }
}

/// Appends the lines of losses.
pub fn push_losses(text: &mut Vec<u8>, losses: &[Loss]) -> Result<(), AllocError> {
    for loss in losses {
        push_line(text, loss)?;
    }
    Ok(())
}
