// The judgement of a part that is next.

ghost use Rattle.std.specs.Prelude.{◌≡◌, ◌&&◌, true};
ghost use Rattle.std.specs.Option.{is_none};
ghost use Rattle.adf_blocks.specs.{Forms.first_cause, Sizes.in_range};
ghost use Rattle.adf_findings.specs.Forms.{first_failing, form_of, judged_by, keeps, judgement_value};

use crate::forms::{Context, first_cause, is_itself};
use crate::image::SizedImage;
use adf_blocks::Cause;
use adf_volume::Part;

/// The judgement of a part: no cause; a cause, at a block, and still taken; a cause, and skipped.
#[derive(Clone, Copy, PartialEq, Eq, Drop)]
pub enum Judgement {
    Clean,
    Reported(u32, Cause),
    Skipped(u32, Cause),
}

/// The facts about a part that is next: whether its file has enough extension blocks, whether its block has no owner,
/// and its context.
#[derive(Clone, Copy, PartialEq, Eq, Drop)]
pub struct Facts {
    pub is_enough: bool,
    pub is_absent: bool,
    pub context: Context,
}

// The first cause of a part in block `b`, which `holder` points to, and the block of the cause, if its name is new.
fn first_failing(
    image: &SizedImage<'_>,
    part: Part,
    holder: u32,
    b: u32,
    facts: &Facts,
) -> Option<(u32, Cause)>
    ensures { result ≡ first_failing image.now part holder b facts.now true }
{
    if !facts.is_enough {
        return Some((holder, Cause::ShortFile));
    }
    if b < 2 || b >= image.blocks() {
        return Some((holder, Cause::OutOfRange));
    }
    if !facts.is_absent {
        return Some((b, Cause::Taken));
    }
    let cause = first_cause(image, part, b, facts.context)?;
    Some((b, cause))
}

// Whether block `b` is in range, has no owner, and identifies itself as the part.
fn is_kept(image: &SizedImage<'_>, part: Part, b: u32, facts: &Facts) -> bool
    ensures { result ≡ keeps image.now part b facts.now }
{
    b >= 2 && b < image.blocks() && facts.is_absent && is_itself(image, part, b, facts.context)
}

// Whether a part in block `b` has no cause, if its name is new.
#[inline(always)]
fn is_clean(image: &SizedImage<'_>, part: Part, b: u32, facts: &Facts) -> bool
    ensures { result ≡ (facts.now.is_enough && (in_range image.now b && (facts.now.is_absent
        && is_none (first_cause (form_of image.now part b facts.now.context))))) }
{
    facts.is_enough
        && b >= 2
        && b < image.blocks()
        && facts.is_absent
        && first_cause(image, part, b, facts.context).is_none()
}

// Judges a part by its demands, one by one.
#[inline(never)]
fn judge_by_demands(
    image: &SizedImage<'_>,
    part: Part,
    holder: u32,
    b: u32,
    facts: &Facts,
) -> Judgement
    ensures { judgement_value result
        ≡ judged_by (first_failing image.now part holder b facts.now true)
        (keeps image.now part b facts.now) }
{
    match first_failing(image, part, holder, b, facts) {
        None => Judgement::Clean,
        Some((at, cause)) => {
            if is_kept(image, part, b, facts) {
                Judgement::Reported(at, cause)
            } else {
                Judgement::Skipped(at, cause)
            }
        }
    }
}

/// Judges a part in block `b`, which a word of block `holder` points to, by all but its name. Only a part that is not
/// clean is judged by its demands.
#[tactic(auto, using(crate::proofs::CleanParts::clean_judged))]
#[inline(always)]
pub fn judge(image: &SizedImage<'_>, part: Part, holder: u32, b: u32, facts: &Facts) -> Judgement
    ensures { judgement_value result
        ≡ judged_by (first_failing image.now part holder b facts.now true)
        (keeps image.now part b facts.now) }
{
    if is_clean(image, part, b, facts) {
        Judgement::Clean
    } else {
        judge_by_demands(image, part, holder, b, facts)
    }
}
