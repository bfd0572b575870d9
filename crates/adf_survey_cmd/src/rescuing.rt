// Rescues: the new volume, and the lines of what is not in it.

ghost use Rattle.std.specs.Prelude.{◌≡◌, ◌≤◌, [], true, IfOk, IfSome, length};
ghost use Rattle.adf_boot_blocks.specs.declared.boot.TheConstants.{BOOT_LEN};
ghost use Rattle.adf_build.specs.Building.{IsBuildable};
ghost use Rattle.adf_survey_cmd.specs.Answer.{answer_status};
ghost use Rattle.adf_survey_cmd.specs.Rescue.{WritesRescue, IsRescue, IsWholeRescue, NoneLeftOut, boot_of, terms_of};

use crate::answer::Answer;
use crate::command_line::RescueWish;
use crate::formatted::before_format;
use crate::judged::Judged;
use crate::linking::{LaidVolume, NewVolume, with_all};
use adf_base::NoMemory;
use adf_boot_blocks::BOOT_LEN;
use adf_judge::{Judgement, Refusal};
use adf_keep::{Prepared, RescueTerms, Unrescued, accepted, first_fault, lay_with, prepare};
use adf_report::{Report, RescueResult, push_losses};
use adf_texts::refused_line;
use adf_volume::{Fault, Types};
use std::alloc::Global;

// The boot blocks of an input, with zeros for what it does not hold.
#[tactic(auto, using(crate::proofs::Volumes::boot_put))]
fn boot_of(alloc: Global, input: &[u8]) -> Result<Vec<u8>, NoMemory>
    ensures boot { IfOk result (λ boot. boot.items ≡ boot_of input.now) }
    ensures long { IfOk result (λ boot. length boot.items ≡ BOOT_LEN) }
{
    let kept = input.len().min(BOOT_LEN);
    let zeros = vec![in alloc; 0u8; BOOT_LEN - kept]?;
    let mut boot = Vec::from_slice(alloc, &input[..kept])?;
    boot.extend_from_slice(&zeros)?;
    Ok(boot)
}

// What the keeper is asked for.
fn terms_of(wish: RescueWish) -> RescueTerms
    ensures { result ≡ terms_of wish }
{
    RescueTerms {
        types: wish.types,
        with_deleted: wish.with_deleted,
    }
}

/// The rescue of an image of an input that is accepted by the types of the new volume: its tree, with nothing left out. `None` if
/// it is to be judged.
pub fn rescue_accepted(
    alloc: Global,
    input: &[u8],
    image: &[u8],
    wish: RescueWish,
) -> Result<Option<Answer>, NoMemory>
    ensures volume { IfOk result (λ o. IfSome o (λ a. IsWholeRescue wish.types input.now image.now a.output.items)) }
    ensures status { IfOk result (λ o. IfSome o (λ a. answer_status a ≡ 0)) }
{
    if wish.with_deleted || wish.before_format {
        return Ok(None);
    }
    let Some(prepared) = accepted(alloc, image, wish.types)? else {
        return Ok(None);
    };
    let boot = boot_of(alloc, input)?;
    let volume = lay_with(alloc, &prepared.tree, prepared.blocks, &boot)?;
    Ok(Some(Answer::whole(alloc, volume)))
}

// The lines of what is not in a new volume.
fn loss_lines(
    alloc: Global,
    report: &Report<'_, '_>,
    rescued: &RescueResult<'_>,
    lines: Vec<u8>,
) -> Result<Vec<u8>, NoMemory> {
    let mut lines = lines;
    let losses = report.losses(alloc, rescued)?;
    push_losses(&mut lines, &losses)?;
    Ok(lines)
}

// Says why there is no new volume, and what is lost.
fn refuse_judged(alloc: Global, judgement: &Judgement<'_>, fault: Fault) -> Result<Answer, NoMemory>
    ensures { IfOk result (λ a. (a.output.items ≡ []) × (answer_status a ≡ 1)) }
{
    let report = Report::of(alloc, judgement)?;
    let none = RescueResult {
        left_out: &[],
        deleted_out: &[],
        deleted_directory: &[],
        laid_links: &[],
    };
    let line = refused_line(alloc, fault)?;
    let front = Vec::from_slice(alloc, line.as_bytes())?;
    let lines = loss_lines(alloc, &report, &none, front)?;
    Ok(Answer::refused(alloc, lines))
}

// Whether the keeper left nothing out.
fn has_all(prepared: &Prepared) -> bool
    ensures { result ≡ true → NoneLeftOut prepared.now }
{
    prepared.left_out.is_empty() && prepared.deleted_out.is_empty()
}

// Lays the volume of a prepared rescue of an input, and tells what is not in it.
fn lay_prepared(
    alloc: Global,
    input: &[u8],
    judgement: &Judgement<'_>,
    prepared: Prepared,
    with_links: bool,
) -> Result<Answer, NoMemory>
    requires { IsBuildable prepared.tree prepared.blocks }
    ensures volume { IfOk result (λ a. WritesRescue with_links prepared input.now a.output.items) }
    ensures status { IfOk result (λ a. answer_status a ≡ 0 → NoneLeftOut prepared) }
{
    let report = Report::of(alloc, judgement)?;
    let boot = boot_of(alloc, input)?;
    let volume = NewVolume {
        input,
        boot: &boot,
        image: lay_with(alloc, &prepared.tree, prepared.blocks, &boot)?,
    };
    let LaidVolume { image, links } = with_all(alloc, &report, volume, with_links)?;
    let rescued = RescueResult {
        left_out: &prepared.left_out,
        deleted_out: &prepared.deleted_out,
        deleted_directory: &prepared.deleted_directory,
        laid_links: &links,
    };
    let lines = loss_lines(alloc, &report, &rescued, Vec::new(alloc))?;
    Ok(Answer {
        output: image,
        errors: lines,
        is_clean: has_all(&prepared),
    })
}

// The rescue of what is judged to exist on an input.
fn rescue_judgement(
    alloc: Global,
    input: &[u8],
    judgement: &Judgement<'_>,
    wish: RescueWish,
) -> Result<Answer, NoMemory>
    ensures { IfOk result (λ a. IsRescue wish input.now (answer_status a) a.output.items) }
{
    match prepare(alloc, input, judgement, terms_of(wish)) {
        Ok(prepared) => lay_prepared(alloc, input, judgement, prepared, wish.with_links),
        Err(Unrescued::Refused(fault)) => refuse_judged(alloc, judgement, fault),
        Err(Unrescued::NoMemory) => Err(NoMemory),
    }
}

// The first fault of the image that is surveyed of an input.
fn surveyed_fault(
    alloc: Global,
    judged: &Judged<'_>,
    types: Types,
) -> Result<Option<Fault>, NoMemory> {
    let (surveyed, _) = judged.surveyed(alloc)?;
    first_fault(alloc, &surveyed.image, types)
}

// Says why an input is not judged.
fn refuse_unjudged(
    alloc: Global,
    judged: &Judged<'_>,
    refusal: Refusal,
    types: Types,
) -> Result<Answer, NoMemory>
    ensures { IfOk result (λ a. (a.output.items ≡ []) × (answer_status a ≡ 1)) }
{
    if refusal == Refusal::LongNames {
        return Ok(Answer::refused_with(alloc, "block 0: long names\n")?);
    }
    match surveyed_fault(alloc, judged, types)? {
        Some(fault) => {
            let line = refused_line(alloc, fault)?;
            Ok(Answer::refused_with(alloc, &line)?)
        }
        None => Ok(Answer::refused_with(alloc, "block 0: bad size\n")?),
    }
}

/// The rescue of what is judged to exist on an input, or of what was there before it was formatted.
pub fn rescue_judged(
    alloc: Global,
    judged: &Judged<'_>,
    wish: RescueWish,
) -> Result<Answer, NoMemory>
    ensures { IfOk result (λ a. IsRescue wish judged.now.asked.input.now (answer_status a) a.output.items) }
{
    let input = judged.asked.input;
    let judgement = match &judged.judgement {
        Ok(judgement) => judgement,
        Err(refusal) => return refuse_unjudged(alloc, judged, *refusal, wish.types),
    };
    if wish.before_format {
        if let Some(hidden) = before_format(alloc, judged, judgement)? {
            return rescue_judgement(alloc, input, &hidden, wish);
        }
    }
    rescue_judgement(alloc, input, judgement, wish)
}
