// Labels and comments that a header states, cut to the most that they may have.

use adf_names::ShortText;

/// The first bytes of a text, as many as may be.
pub(crate) fn short_text<const MOST: usize>(text: &[u8]) -> ShortText<MOST> {
    ShortText::new(&text[..text.len().min(MOST)]).unwrap()
}
