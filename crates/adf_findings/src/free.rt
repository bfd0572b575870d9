// The pages of the bitmap, and what it tells of blocks.

ghost use Rattle.std.specs.Prelude.{◌≡◌, ◌≤◌, ◌-◌, ◌/◌, ◌↔◌, ℕ, IfSome, IsSome, IsTrue, Some};
ghost use Rattle.adf_blocks.specs.declared.layout.TheConstants.{PAGE_BITS};
ghost use Rattle.adf_volume.specs.Walk.{Has, IsFreeIn, Role.Page};
ghost use Rattle.adf_findings.specs.{Members.at_role, Survey.OnSurvey, SurveyResult.IsBitStated};

use crate::bits::{bit_of, is_validated, page_at};
use crate::start::start;
use crate::survey_result::Survey;
use adf_blocks::{page_count, place_of};

// Whether it is this block.
#[tactic(auto, using(std::proofs::lemmas::Bool::Decides::nat_tests))]
fn is_at(found: Option<u32>, b: u32) -> bool
    ensures { IsTrue result ↔ (found ≡ Some b) }
{
    match found {
        Some(at) => at == b,
        None => false,
    }
}

impl Survey<'_> {
    /// What the bitmap tells of a block: whether it is free. `None` for a boot block, and unless the bitmap flag of the root
    /// (word 78) is that of a valid bitmap and the page of the block is found.
    #[tactic(auto, using(crate::proofs::Openings::page_begun))]
    pub fn is_free(&self, b: u32) -> Option<bool>
        ensures some { OnSurvey self.now.image (λ w _. IsSome result ↔ IsBitStated self.now.image w b) }
        ensures free { OnSurvey self.now.image (λ w _.
            IfSome result (λ t. IsTrue t ↔ IsFreeIn self.now.image w b)) }
    {
        let Ok(started) = start(self.image) else {
            return None;
        };
        if b < 2 || !is_validated(&started.image) {
            return None;
        }
        let (page, bit) = place_of(b);
        bit_of(&started.image, &self.pages, page, bit)
    }

    /// The block of the page that tells of a block behind the boot blocks; `None` if it is not found.
    #[tactic(auto, using(crate::proofs::Keeping::tells_each))]
    pub fn page_of(&self, b: u32) -> Option<u32>
        requires { 2 ≤ b }
        ensures { OnSurvey self.now.image (λ w _. result ≡ at_role w (Page ((b - 2) / PAGE_BITS))) }
    {
        page_at(&self.pages, place_of(b).0)
    }

    /// Whether a block is a page of the bitmap that is found.
    pub fn is_page(&self, b: u32) -> bool
        ensures { OnSurvey self.now.image (λ w _. IsTrue result ↔ ((i : ℕ) × Has w (Page i) b)) }
    {
        let Ok(started) = start(self.image) else {
            return false;
        };
        for i in 0..page_count(started.image.blocks()) {
            if is_at(page_at(&self.pages, i), b) {
                return true;
            }
        }
        false
    }
}
