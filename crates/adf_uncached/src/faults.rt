// What directory caches tell of an image.

ghost use Rattle.std.specs.Prelude.{◌≡◌, find, length};
ghost use Rattle.std.specs.List.{range_with_len};
ghost use Rattle.adf_findings.specs.{Members.has_mark, Survey.OnSurvey};
ghost use Rattle.adf_uncached.specs.Bits.{is_free};

use crate::bits::is_free;
use adf_findings::{Survey, has_mark};

/// The first thing that has a mark.
pub fn first_marked(marks: &Vec<bool>) -> Option<usize>
    ensures { result ≡ find (has_mark marks.now.items) (range_with_len 0 (length marks.now.items)) }
{
    for i in 0..marks.len() {
        if has_mark(marks, i) {
            return Some(i);
        }
    }
    None
}

/// The first of these blocks that is free in the bitmap of the image of a survey.
pub fn first_free(survey: &Survey<'_>, blocks: &[u32]) -> Option<u32>
    ensures { OnSurvey survey.now.image (λ w _. result ≡ find (is_free survey.now.image w) blocks.now) }
{
    for b in blocks {
        if is_free(survey, *b) {
            return Some(*b);
        }
    }
    None
}
