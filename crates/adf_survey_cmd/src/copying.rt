// The bytes of files.

ghost use Rattle.std.specs.Prelude.{◌≡◌, [], IfOk, false};
ghost use Rattle.adf_survey_cmd.specs.Answer.{answer_status};

use crate::answer::Answer;
use crate::judged::Judged;
use adf_base::NoMemory;
use adf_judge::{Judgement, Object};
use adf_report::{Report, Salvage, push_gaps};
use adf_tree::{Name, write_path};
use std::alloc::Global;

// Says that nothing is under a path.
fn no_such_path(alloc: Global, names: &[Name]) -> Result<Answer, NoMemory>
    ensures output { IfOk result (λ a. a.output.items ≡ []) }
{
    let path = write_path(alloc, names)?;
    let line = format!(in alloc; "no such path: {path}\n")?;
    Ok(Answer::refused_with(alloc, &line)?)
}

// Says that a path or a block leads to no file.
fn not_a_file(alloc: Global) -> Result<Answer, NoMemory>
    ensures output { IfOk result (λ a. a.output.items ≡ []) }
{
    Ok(Answer::refused_with(alloc, "not a file\n")?)
}

// The bytes of a claimed file that is intact, by its number.
fn copy_intact(alloc: Global, report: &Report<'_, '_>, number: usize) -> Result<Answer, NoMemory>
    ensures { IfOk result (λ a. answer_status a ≡ 1 → a.output.items ≡ []) }
{
    let is_given = match report.claim(number) {
        Some(claim) => claim.is_given,
        None => false,
    };
    if is_given {
        let salvage = report.salvage(alloc, number)?;
        if salvage.is_whole() {
            let Salvage { bytes, .. } = salvage;
            return Ok(Answer::whole(alloc, bytes));
        }
    }
    Ok(Answer::refused_with(alloc, "damaged\n")?)
}

// What is left of a claimed file, by its number, up to the last byte that is not lost.
fn copy_left(alloc: Global, report: &Report<'_, '_>, number: usize) -> Result<Answer, NoMemory> {
    let salvage = report.salvage(alloc, number)?;
    let mut errors = Vec::new(alloc);
    push_gaps(&mut errors, &salvage.gaps)?;
    Ok(Answer {
        output: salvage.kept().to_vec(alloc)?,
        errors,
        is_clean: salvage.is_whole(),
    })
}

// Whether a claim is that of a file, by its number.
fn is_file(report: &Report<'_, '_>, number: usize) -> bool {
    match report.claim(number) {
        Some(claim) => claim.object == Object::File,
        None => false,
    }
}

// The bytes of the file under a path of what is judged to exist: of one that is intact, or what is left of one that may be damaged.
fn copy_claimed(
    alloc: Global,
    judgement: &Judgement<'_>,
    names: &[Name],
    damaged: bool,
) -> Result<Answer, NoMemory>
    ensures { IfOk result (λ a. damaged ≡ false → answer_status a ≡ 1 → a.output.items ≡ []) }
{
    let report = Report::of(alloc, judgement)?;
    let Some(number) = report.find(names) else {
        return no_such_path(alloc, names);
    };
    if !is_file(&report, number) {
        return not_a_file(alloc);
    }
    if damaged {
        copy_left(alloc, &report, number)
    } else {
        copy_intact(alloc, &report, number)
    }
}

/// The bytes of the file under a path: of one that is intact, or what is left of one that may be damaged.
pub fn copy_file(
    alloc: Global,
    judged: &Judged<'_>,
    names: &[Name],
    damaged: bool,
) -> Result<Answer, NoMemory>
    ensures { IfOk result (λ a. damaged ≡ false → answer_status a ≡ 1 → a.output.items ≡ []) }
{
    match &judged.judgement {
        Ok(judgement) => copy_claimed(alloc, judgement, names, damaged),
        Err(_) if names.is_empty() => not_a_file(alloc),
        Err(_) => no_such_path(alloc, names),
    }
}
