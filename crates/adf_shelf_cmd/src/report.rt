// What is reported of a file, and the line of its name.

ghost use Rattle.std.specs.Prelude.{◌≡◌, ◌++◌, false, OnOk};
ghost use Rattle.adf_shelf_cmd.specs.Lines.{TellsReport, IsReport, IsRunStatus, batch_line, report_status, report_text};

use adf_file_runs::{Files, Unopened};
use adf_json::{Member, push_object, without_feed};
use adf_names::push_escaped;
use adf_runs::{Source, StreamFault};
use adf_verdicts::{Verdict, verdict_of_input};
use adf_volume::Types;
use std::alloc::{AllocError, Global};

/// What is reported of a file.
#[derive(Drop)]
pub enum Report {
    Checked(Verdict),
    /// It could not be opened.
    NotOpened(Unopened),
    /// It was opened, and could not be read.
    ReadFault,
    /// Memory was refused.
    NoMemory,
}

impl Report {
    /// The status of a run of this file alone: 0 if it is sound, 1 if it is refused, 3 otherwise.
    pub fn status(&self) -> u8
        ensures value { result ≡ report_status self.now }
        ensures run { IsRunStatus result }
    {
        match self {
            Report::Checked(verdict) if verdict.sound => 0,
            Report::Checked(_) => 1,
            Report::NotOpened(_) => 3,
            Report::ReadFault => 3,
            Report::NoMemory => 3,
        }
    }

    /// The text after the name, with its line feed.
    pub fn text(&self) -> &str
        ensures { result.now ≡ report_text self.now }
    {
        match self {
            Report::Checked(verdict) => verdict.line.as_str(),
            Report::NotOpened(_) => "read fault\n",
            Report::ReadFault => "read fault\n",
            Report::NoMemory => "no memory\n",
        }
    }

    /// Why the file could not be opened, `None` if it was.
    pub fn why(&self) -> Option<Unopened> {
        match self {
            Report::NotOpened(why) => Some(*why),
            _ => None,
        }
    }
}

/// How images are checked: those of the accepted types are sound; and whether an object is written of each.
#[derive(Clone, Copy)]
pub struct ImageChecks {
    pub alloc: Global,
    pub types: Types,
    pub json: bool,
}

// Reads an image into the buffer and checks it.
fn check_source<S: Source>(checks: ImageChecks, source: &mut S, buffer: &mut Vec<u8>) -> Report
    requires { S.has_failed source.old ≡ false }
    ensures { IsReport checks.types (S.left source.old) (S.may_fail source.old)
        (report_status result) (report_text result) }
{
    match verdict_of_input(checks.alloc, checks.types, source, buffer) {
        Ok(verdict) => Report::Checked(verdict),
        Err(StreamFault::Device) => Report::ReadFault,
        Err(StreamFault::NoMemory) => Report::NoMemory,
    }
}

/// Reads the file of a name into the buffer, which may be that of an earlier file, and checks it:
/// at most one byte more than the largest image is read of it.
#[tactic(auto, using(crate::proofs::Progress::report_known))]
pub fn check_file<F: Files>(
    checks: ImageChecks,
    files: &F,
    name: &[u8],
    buffer: &mut Vec<u8>,
) -> Report
    ensures { IsReport checks.types (F.bytes_of files.now name.now) (F.may_fail files.now name.now)
        (report_status result) (report_text result) }
{
    match files.open(name) {
        Ok(mut source) => check_source(checks, &mut source, buffer),
        Err(why) => Report::NotOpened(why),
    }
}

// Appends the line of a name: its escape form, a tab, and what is reported of its file.
fn push_text(text: &mut Vec<u8>, name: &[u8], report: &Report) -> Result<(), AllocError>
    ensures { OnOk result
        (text.new.items ≡ text.old.items ++ batch_line name.now (report_text report.now)) }
{
    push_escaped(text, name)?;
    text.push(b'\t')?;
    text.extend_from_slice(report.text().as_bytes())
}

// What is reported of a file, without its line feed.
fn verdict(report: &Report) -> &[u8] {
    without_feed(report.text().as_bytes())
}

// Appends the object of a name.
fn push_shelf_object(text: &mut Vec<u8>, name: &[u8], report: &Report) -> Result<(), AllocError> {
    push_object(
        text,
        &[
            Member::text("line", "image"),
            Member::bytes("file", name),
            Member::number("status", u32::from(report.status())),
            Member::bytes("verdict", verdict(report)),
        ],
    )
}

/// Puts the line of a name in place of another: its escape form, a tab, and what is reported of its file; or with `json` its object.
pub fn put_line(
    text: &mut Vec<u8>,
    name: &[u8],
    report: &Report,
    json: bool,
) -> Result<(), AllocError>
    ensures { OnOk result (TellsReport json name.now (report_text report.now) text.new.items) }
{
    text.clear();
    if json {
        push_shelf_object(text, name, report)
    } else {
        push_text(text, name, report)
    }
}

/// Appends what is said on errors of a file that could not be opened: the escape form of its name, and
/// why. Nothing if it was opened, or the system does not say why.
pub fn push_why(text: &mut Vec<u8>, name: &[u8], why: Option<Unopened>) -> Result<(), AllocError> {
    match why {
        None | Some(Unopened::Other) => Ok(()),
        Some(why) => {
            push_escaped(text, name)?;
            text.extend_from_slice(why.text().as_bytes())
        }
    }
}
