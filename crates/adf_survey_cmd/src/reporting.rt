// All that is wrong in an image, and what exists on it.

ghost use Rattle.std.specs.Prelude.{◌≡◌, [], IfOk, false, true};
ghost use Rattle.adf_survey_cmd.specs.Answer.{answer_status};
ghost use Rattle.adf_survey_cmd.specs.Judged.{HasNoFinding, IsAskedPlain};

use crate::answer::Answer;
use crate::judged::{Asked, Judged};
use adf_base::NoMemory;
use adf_findings::{Survey, some_survey, survey};
use adf_report::{
    Remark, Report, SurveyedImage, directories_with_wrong_cache, remarks_text, run_text, runs_of,
    wrong_cache_text,
};
use adf_unread::blank_marks;
use std::alloc::Global;

/// Whether what exists is listed too, and whether each line is an object in JSON.
#[derive(Clone, Copy)]
pub struct ReportForm {
    pub list: bool,
    pub json: bool,
}

// A surveyed image with what was surveyed of it, and the report of the judgement, if there is one.
#[derive(Clone, Copy)]
struct Findings<'f, 'j, 'i> {
    image: &'f SurveyedImage,
    survey: &'f Survey<'i>,
    report: Option<&'f Report<'j, 'i>>,
}

impl Findings<'_, '_, '_> {
    // Appends the lines of the remarks and the findings.
    fn push_findings(&self, alloc: Global, json: bool, text: &mut Vec<u8>) -> Result<(), NoMemory> {
        text.extend_from_slice(&remarks_text(alloc, &self.image.remarks, json)?)?;
        for run in &runs_of(alloc, self.survey)? {
            text.extend_from_slice(&run_text(alloc, self.survey, self.report, run, json)?)?;
        }
        Ok(())
    }

    // Appends the lines of wrong directory caches.
    fn push_caches(&self, alloc: Global, json: bool, text: &mut Vec<u8>) -> Result<(), NoMemory> {
        for directory in &directories_with_wrong_cache(alloc, self.survey)? {
            text.extend_from_slice(&wrong_cache_text(alloc, self.survey, *directory, json)?)?;
        }
        Ok(())
    }

    // The lines of the findings, and of what exists.
    fn text(&self, alloc: Global, form: ReportForm) -> Result<Vec<u8>, NoMemory> {
        let mut text = Vec::new(alloc);
        self.push_findings(alloc, form.json, &mut text)?;
        self.push_caches(alloc, form.json, &mut text)?;
        if let Some(report) = self.report {
            if form.list {
                push_list(alloc, report, form.json, &mut text)?;
            }
        }
        Ok(text)
    }
}

// Appends the lines of the volume and of all that exists.
fn push_list(
    alloc: Global,
    report: &Report<'_, '_>,
    json: bool,
    text: &mut Vec<u8>,
) -> Result<(), NoMemory> {
    report.push_volume(alloc, json, text)?;
    for i in 0..report.judgement.claims.len() {
        report.push_entry(alloc, i + 1, json, text)?;
    }
    Ok(())
}

// Whether an image is the input, as far as all of that is asked of.
fn is_of_input(asked: &Asked<'_>, image: &[u8]) -> bool
    ensures { result ≡ true → IsAskedPlain asked.now → image.now ≡ asked.now.input.now }
{
    asked.blocks.is_some()
        || asked.unread.map.is_some()
        || asked.unread.blank
        || image == asked.input
}

// Whether a survey has no finding.
fn has_no_finding(survey: &Survey<'_>) -> bool
    ensures { result ≡ true → HasNoFinding survey.now.image }
{
    some_survey();
    survey.findings().is_empty()
}

// Whether a survey has no finding, and is of all of the input.
fn is_clean(asked: &Asked<'_>, image: &[u8], survey: &Survey<'_>) -> bool
    requires { survey.now.image ≡ image.now }
    ensures { result ≡ true → IsAskedPlain asked.now → HasNoFinding asked.now.input.now }
{
    if is_of_input(asked, image) {
        return has_no_finding(survey);
    }
    false
}

// Whether no line tells that something is wrong: there is no remark, no byte that was never read, and without `list` no line.
fn tells_nothing(form: ReportForm, remarks: &Vec<Remark>, text: &Vec<u8>, unread: &Vec<u8>) -> bool
    ensures { result ≡ true → form.list ≡ false → text.now.items ≡ [] }
{
    if !remarks.is_empty() || !unread.is_empty() {
        return false;
    }
    if form.list {
        return true;
    }
    text.is_empty()
}

// The lines of the bytes of files in blocks that were never read, if these are asked for.
fn unread_text(
    alloc: Global,
    asked: &Asked<'_>,
    report: Option<&Report<'_, '_>>,
    marks: &[bool],
    json: bool,
) -> Result<Vec<u8>, NoMemory> {
    match report {
        Some(report) if asked.unread.is_asked() => {
            Ok(report.marked_text(alloc, "unread", marks, json)?)
        }
        _ => Ok(Vec::new(alloc)),
    }
}

// The report of a judgement, if there is one.
fn report_of<'j, 'w>(
    alloc: Global,
    judged: &'j Judged<'w>,
) -> Result<Option<Report<'j, 'w>>, NoMemory> {
    match &judged.judgement {
        Ok(judgement) => Ok(Some(Report::of(alloc, judgement)?)),
        Err(_) => Ok(None),
    }
}

/// Tells all that is wrong with an input, by lines or objects; and where it is asked for, what exists, and which bytes of files were
/// never read.
pub fn report_findings(
    alloc: Global,
    judged: &Judged<'_>,
    form: ReportForm,
) -> Result<Answer, NoMemory>
    ensures clean { IfOk result (λ a. answer_status a ≡ 0 → IsAskedPlain judged.now.asked → HasNoFinding judged.now.asked.input.now) }
    ensures empty { IfOk result (λ a. answer_status a ≡ 0 → form.list ≡ false → a.output.items ≡ []) }
{
    let (image, marks) = judged.surveyed(alloc)?;
    let found = survey(alloc, &image.image)?;
    let report = report_of(alloc, judged)?;
    let findings = Findings {
        image: &image,
        survey: &found,
        report: report.as_ref(),
    };
    let mut text = findings.text(alloc, form)?;
    let unread = unread_text(alloc, &judged.asked, report.as_ref(), &marks, form.json)?;
    if tells_nothing(form, &image.remarks, &text, &unread) {
        return Ok(Answer {
            output: text,
            errors: Vec::new(alloc),
            is_clean: is_clean(&judged.asked, &image.image, &found),
        });
    }
    text.extend_from_slice(&unread)?;
    Ok(Answer::faulty(alloc, text))
}

// Takes marks out of others.
fn take_out(marks: &mut Vec<bool>, others: &[bool]) {
    for b in 0..marks.len() {
        if others.get(b).copied().unwrap_or(false) {
            marks[b] = false;
        }
    }
}

/// Tells the bytes of files in blank blocks.
pub fn report_blanks(alloc: Global, judged: &Judged<'_>) -> Result<Answer, NoMemory> {
    let Some(report) = report_of(alloc, judged)? else {
        return Ok(Answer::whole(alloc, Vec::new(alloc)));
    };
    let (surveyed, unread) = judged.surveyed(alloc)?;
    let mut marks = blank_marks(alloc, &surveyed.image)?;
    take_out(&mut marks, &unread);
    let text = report.marked_text(alloc, "blank", &marks, false)?;
    Ok(Answer::whole(alloc, text))
}
