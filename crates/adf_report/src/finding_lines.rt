// The lines of runs of findings, and their objects.

use crate::finding_runs::Run;
use crate::paths::entry_path;
use crate::remarks::push_blocks;
use crate::reports::Report;
use adf_findings::{Concern, Survey};
use adf_json::{Member, Value, push_object};
use adf_names::push_escaped;
use adf_tree::Node;
use std::alloc::{AllocError, Global};

// The entry or directory that is concerned.
fn concerned(concern: Option<Concern>) -> Option<Node> {
    match concern {
        Some(Concern::Entry(n) | Concern::Within(n)) => Some(Node(n as usize)),
        None => None,
    }
}

// Whether a header was skipped in a directory.
fn is_within(concern: Option<Concern>) -> bool {
    match concern {
        Some(Concern::Within(_)) => true,
        _ => false,
    }
}

// The number of the claim of a right link that an entry of a survey is; 0 if it is none.
fn link_at(survey: &Survey<'_>, report: &Report<'_, '_>, n: u32) -> usize {
    let number = match survey.block_of(Node(n as usize)) {
        Some(header) => report.claim_at(header),
        None => 0,
    };
    if report.is_right_link(number) {
        number
    } else {
        0
    }
}

// What the right link leads to that a finding concerns.
#[derive(Drop)]
enum Lead {
    Nowhere,
    /// To an entry, by its path.
    Entry(Vec<u8>),
    /// To the path in its header.
    Path(Vec<u8>),
}

impl Lead {
    // What a claimed link leads to, by its number.
    fn of_link(
        alloc: Global,
        report: &Report<'_, '_>,
        number: usize,
        json: bool,
    ) -> Result<Lead, AllocError> {
        match report.target_of(number) {
            0 => Ok(Lead::Path(report.soft_path(number).to_vec(alloc)?)),
            target => Ok(Lead::Entry(report.path(alloc, target, json)?)),
        }
    }

    // What the link leads to that a run concerns, if the volume was judged.
    fn of_run(
        alloc: Global,
        survey: &Survey<'_>,
        report: Option<&Report<'_, '_>>,
        run: &Run,
        json: bool,
    ) -> Result<Lead, AllocError> {
        let (Some(report), Some(Concern::Entry(n))) = (report, run.concern()) else {
            return Ok(Lead::Nowhere);
        };
        match link_at(survey, report, n) {
            0 => Ok(Lead::Nowhere),
            number => Lead::of_link(alloc, report, number, json),
        }
    }

    // Appends it to a line.
    fn push(&self, text: &mut Vec<u8>) -> Result<(), AllocError> {
        match self {
            Lead::Nowhere => Ok(()),
            Lead::Entry(path) => {
                text.extend_from_slice(b": to ")?;
                text.extend_from_slice(path)
            }
            Lead::Path(path) => {
                text.extend_from_slice(b": path ")?;
                push_escaped(text, path)
            }
        }
    }

    // The member of an object with the path of an entry.
    fn target(&self) -> Value<'_> {
        match self {
            Lead::Entry(path) => Value::Bytes(path),
            _ => Value::Nothing,
        }
    }

    // The member of an object with the path in a header.
    fn soft(&self) -> Value<'_> {
        match self {
            Lead::Path(path) => Value::Bytes(path),
            _ => Value::Nothing,
        }
    }
}

// The texts of a run: the path that it concerns, that of the owner, and what the right link leads to that it concerns.
#[derive(Drop)]
struct RunTexts {
    path: Option<Vec<u8>>,
    owner: Option<Vec<u8>>,
    lead: Lead,
}

// The path of an entry, where there is one.
fn path_of(
    alloc: Global,
    survey: &Survey<'_>,
    n: Option<Node>,
    json: bool,
) -> Result<Option<Vec<u8>>, AllocError> {
    match n {
        Some(n) => Ok(Some(entry_path(alloc, survey, n, json)?)),
        None => Ok(None),
    }
}

// The value of a path, where there is one.
fn path_value(path: &Option<Vec<u8>>) -> Value<'_> {
    match path {
        Some(path) => Value::Bytes(path),
        None => Value::Nothing,
    }
}

impl RunTexts {
    fn of(
        alloc: Global,
        survey: &Survey<'_>,
        report: Option<&Report<'_, '_>>,
        run: &Run,
        json: bool,
    ) -> Result<RunTexts, AllocError> {
        Ok(RunTexts {
            path: path_of(alloc, survey, concerned(run.concern()), json)?,
            owner: path_of(alloc, survey, run.owner(), json)?,
            lead: Lead::of_run(alloc, survey, report, run, json)?,
        })
    }

    // The members of the object of a run.
    fn members(&self, run: &Run) -> [Member<'_>; 9] {
        [
            Member::text("line", "finding"),
            Member::number("first", run.first),
            Member::number("last", run.last),
            Member::text("cause", run.cause.text()),
            Member::of("path", path_value(&self.path)),
            Member::of("within", Value::Truth(is_within(run.concern()))),
            Member::of("owner", path_value(&self.owner)),
            Member::of("target", self.lead.target()),
            Member::of("soft", self.lead.soft()),
        ]
    }

    // Appends what is concerned to a line, where there is something.
    fn push_concern(&self, run: &Run, text: &mut Vec<u8>) -> Result<(), AllocError> {
        let Some(path) = &self.path else {
            return Ok(());
        };
        text.extend_from_slice(if is_within(run.concern()) {
            b": in "
        } else {
            b": "
        })?;
        text.extend_from_slice(path)?;
        if is_within(run.concern()) {
            text.extend_from_slice(b"/")?;
        }
        Ok(())
    }

    // Appends the owner to a line, where there is one.
    fn push_owner(&self, text: &mut Vec<u8>) -> Result<(), AllocError> {
        let Some(path) = &self.owner else {
            return Ok(());
        };
        text.extend_from_slice(b": owned by ")?;
        text.extend_from_slice(path)
    }

    // Appends the line of a run.
    fn push_line(&self, run: &Run, text: &mut Vec<u8>) -> Result<(), AllocError> {
        push_blocks(text, run.first, run.last, b':')?;
        text.extend_from_slice(b" ")?;
        text.extend_from_slice(run.cause.text().as_bytes())?;
        self.push_concern(run, text)?;
        self.push_owner(text)?;
        self.lead.push(text)?;
        text.extend_from_slice(b"\n")
    }
}

/// The line of a run of findings, or with `json` its object. What a right link leads to is that of the report, if the volume was
/// judged.
pub fn run_text(
    alloc: Global,
    survey: &Survey<'_>,
    report: Option<&Report<'_, '_>>,
    run: &Run,
    json: bool,
) -> Result<Vec<u8>, AllocError> {
    let texts = RunTexts::of(alloc, survey, report, run, json)?;
    let mut text = Vec::new(alloc);
    if json {
        push_object(&mut text, &texts.members(run))?;
    } else {
        texts.push_line(run, &mut text)?;
    }
    Ok(text)
}
