// The tables of the findings and of the entries of an image.

ghost use Rattle.std.specs.Prelude.{◌≡◌, IfOk, OnErr};
ghost use Rattle.adf_blocks.specs.Sizes.{blocks};
ghost use Rattle.adf_memory.specs.{Rooms.BeginsWith, SurveyCalls.FillsSurvey, SurveyCalls.HasTables, SurveyCalls.IsFindingIn};

use crate::found_tables::{
    FoundEntry, Surveyed, TableFinding, not_judged, put_findings, put_found, surveyed_of,
};
use crate::judged::{Judged, judge_image};
use adf_base::{BLOCK_LEN, NoMemory};
use adf_blocks::Cause;
use adf_findings::{Survey, survey};
use adf_report::{Report, Run, runs_of};
use std::alloc::Global;

// Fills the tables of an image that is judged, as far as there is room.
fn put_judged(
    alloc: Global,
    survey: &Survey<'_>,
    judged: &Judged<'_>,
    findings: &mut [TableFinding],
    entries: &mut [FoundEntry],
) -> Result<Surveyed, NoMemory>
    ensures tables { IfOk result (HasTables judged.now.blocks findings.old findings.new entries.old entries.new) }
    ensures unchanged { OnErr result ((findings.new ≡ findings.old) × (entries.new ≡ entries.old)) }
{
    let runs = runs_of(alloc, survey)?;
    let report = Report::of(alloc, &judged.judgement)?;
    let most = judged.blocks as usize;
    put_findings(survey, Some(&report), most, &runs, findings);
    let count = put_found(judged, &report, entries);
    Ok(surveyed_of(&judged.judgement.reading, runs.len(), count))
}

// Fills the table of findings of an image of which nothing is judged, as far as there is room.
fn put_survey_alone(
    alloc: Global,
    survey: &Survey<'_>,
    most: usize,
    findings: &mut [TableFinding],
) -> Result<Surveyed, NoMemory>
    ensures findings { IfOk result (λ told. BeginsWith (IsFindingIn most) told.findings findings.old findings.new) }
    ensures entries { IfOk result (λ told. told.entries ≡ 0) }
    ensures unchanged { OnErr result (findings.new ≡ findings.old) }
{
    let runs = runs_of(alloc, survey)?;
    put_findings(survey, None, most, &runs, findings);
    Ok(not_judged(runs.len()))
}

// Fills the tables of an image, as far as there is room.
fn put_tables(
    alloc: Global,
    image: &[u8],
    findings: &mut [TableFinding],
    entries: &mut [FoundEntry],
) -> Result<Surveyed, NoMemory>
    ensures tables { IfOk result (HasTables (blocks image.now) findings.old findings.new entries.old entries.new) }
    ensures unchanged { OnErr result ((findings.new ≡ findings.old) × (entries.new ≡ entries.old)) }
{
    let found = survey(alloc, image)?;
    match judge_image(alloc, image)? {
        Some(judged) => put_judged(alloc, &found, &judged, findings, entries),
        None => put_survey_alone(alloc, &found, image.len() / BLOCK_LEN, findings),
    }
}

/// Surveys and judges an image and fills two tables, each as far as it has room: the findings, those of neighbouring blocks with
/// one cause in one row, and the entries that exist. Returns 0, or the number of `NoMemory` if memory ran out.
pub fn put_survey(
    alloc: Global,
    image: &[u8],
    findings: &mut [TableFinding],
    entries: &mut [FoundEntry],
    surveyed: &mut Surveyed,
) -> u8
    ensures { FillsSurvey image.now findings.old findings.new entries.old entries.new surveyed.new result }
{
    match put_tables(alloc, image, findings, entries) {
        Ok(told) => {
            *surveyed = told;
            0
        }
        Err(_) => {
            *surveyed = not_judged(0);
            Cause::NoMemory.number()
        }
    }
}
