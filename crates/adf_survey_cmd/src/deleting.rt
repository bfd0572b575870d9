// Deleted entries, and the bytes of deleted files.

use crate::answer::Answer;
use crate::judged::Judged;
use adf_base::NoMemory;
use adf_judge::{DeletedHeader, Judgement, Object};
use adf_report::{Report, Salvage, is_whole, push_gaps};
use std::alloc::Global;

// The lines of the deleted entries.
fn list_deleted(alloc: Global, report: &Report<'_, '_>) -> Result<Answer, NoMemory> {
    let mut text = Vec::new(alloc);
    for i in 0..report.judgement.deleted.len() {
        report.push_deleted(alloc, i, &mut text)?;
    }
    Ok(Answer::whole(alloc, text))
}

// The lines of the bytes of a deleted file that are lost, and of what speaks against it.
fn left_lines(
    alloc: Global,
    report: &Report<'_, '_>,
    deleted: &DeletedHeader,
    salvage: &Salvage,
) -> Result<Vec<u8>, NoMemory> {
    let mut lines = Vec::new(alloc);
    push_gaps(&mut lines, &salvage.gaps)?;
    if !is_whole(deleted) {
        report.push_deleted_state(alloc, deleted, &mut lines)?;
        lines.push(b'\n')?;
    }
    Ok(lines)
}

// What is left of a deleted file, by its index.
fn copy_left(alloc: Global, report: &Report<'_, '_>, index: usize) -> Result<Answer, NoMemory> {
    let deleted = match report.deleted(index) {
        Some(deleted) if deleted.object == Object::File => deleted,
        _ => return Ok(Answer::refused_with(alloc, "not a file\n")?),
    };
    let salvage = report.deleted_salvage(alloc, index)?;
    let errors = left_lines(alloc, report, deleted, &salvage)?;
    let Salvage { bytes, .. } = salvage;
    Ok(Answer {
        output: bytes,
        errors,
        is_clean: is_whole(deleted),
    })
}

// What is left of the deleted file with its header in a block.
fn copy_deleted(alloc: Global, report: &Report<'_, '_>, block: u32) -> Result<Answer, NoMemory> {
    match report.deleted_at(block) {
        Some(index) => copy_left(alloc, report, index),
        None => {
            let line = format!(in alloc; "no deleted header in block {block}\n")?;
            Ok(Answer::refused_with(alloc, &line)?)
        }
    }
}

// Tells the deleted entries of what is judged, or what is left of the file of one, by its block.
fn tell_of(
    alloc: Global,
    judgement: &Judgement<'_>,
    file: Option<u32>,
) -> Result<Answer, NoMemory> {
    let report = Report::of(alloc, judgement)?;
    match file {
        None => list_deleted(alloc, &report),
        Some(block) => copy_deleted(alloc, &report, block),
    }
}

/// Tells the deleted entries, or what is left of the file of one, by its block.
pub fn tell_deleted(
    alloc: Global,
    judged: &Judged<'_>,
    file: Option<u32>,
) -> Result<Answer, NoMemory> {
    match &judged.judgement {
        Ok(judgement) => tell_of(alloc, judgement, file),
        Err(_) => Ok(Answer::refused_with(alloc, "no volume\n")?),
    }
}
