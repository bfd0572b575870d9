// Runs over plans whose lines name host files.

ghost use Rattle.std.specs.Prelude.{◌≡◌, ◌≢◌, ◌≤◌, ℕ, List, IfErr, IfOk, IfSome, None, Some, false};
ghost use Rattle.adf_disk_cmd.specs.CommandLine.{AreRefusedByDisk, AsksDiskOf, build, disk_request_value};
ghost use Rattle.adf_disk_cmd.specs.HostPlans.{DiskEnds, HostsEnd, PlansTakeAnyBytes, is_build};
ghost use Rattle.adf_file_runs.specs.FileRuns.{known_files};
ghost use Rattle.adf_runs.specs.Streams.{Seen, seen};
ghost use Rattle.adf_words.specs.CommandLine.{ExplainsArgs, texts_of};

use crate::building::{refuse_text, write_plan};
use crate::command_line::{DiskRequest, disk_file, parse_disk};
use crate::gathering::{NoGiven, gather};
use crate::host_volumes::tell_fault;
use crate::job::Job;
use crate::runner::run_files;
use crate::work::MOST_DISK_BYTES;
use adf_file_runs::{Files, Invocation, refuse_file};
use adf_plans::{names_hosts, plain_text, read_plan};
use adf_runs::{Outcome, Program, Sink, Source, WorkFault, read_all, run_program_on};
use adf_words::ArgsError;
use std::alloc::Global;

// Whether a disk is to be built.
fn is_build(request: DiskRequest<'_>) -> bool
    ensures { result ≡ is_build (disk_request_value request.entry) }
{
    matches!(request, DiskRequest::Build)
}

// The file of the plan that the words ask to build, if they do.
fn plan_named<'a>(alloc: Global, words: &'a [&str]) -> Result<Option<&'a str>, ArgsError>
    ensures some { IfOk result (λ file.
        IfSome file (λ name. AsksDiskOf (texts_of words.entry.now) build (Some name.now))) }
    ensures none { IfOk result (λ file. file ≡ None
        → (name : List ℕ) → ¬ AsksDiskOf (texts_of words.entry.now) build (Some name)) }
    ensures refused { IfErr result (λ fault. ExplainsArgs fault (AreRefusedByDisk (texts_of words.entry.now))) }
{
    if is_build(parse_disk(alloc, words)?) {
        disk_file(alloc, words)
    } else {
        Ok(None)
    }
}

// Says why the given volumes are not had, and returns the status.
fn tell_no_given<E: Sink>(alloc: Global, why: &NoGiven<'_>, errors: &mut E) -> u8
    requires { E.has_failed errors.old ≡ false }
    ensures some { result ≢ 0 }
    ensures few { result ≤ 3 }
{
    match why {
        NoGiven::NoMemory => Outcome::NoMemory.finish(errors),
        NoGiven::Fault(fault) => tell_fault(alloc, fault, errors),
    }
}

// Builds the disk of a plan whose lines name host files, and returns the status.
fn build_hosts<F: Files, W: Sink, E: Sink>(
    alloc: Global,
    files: &F,
    text: &[u8],
    output: &mut W,
    errors: &mut E,
) -> u8
    requires writes { W.has_failed output.old ≡ false }
    requires tells { E.has_failed errors.old ≡ false }
    ensures { HostsEnd (known_files F.bytes_of F.may_fail F.may_open files.now) text.now result
        (seen W.held W.has_failed output.old output.new) }
{
    let Ok(plain) = plain_text(alloc, text) else {
        return Outcome::NoMemory.finish(errors);
    };
    let (plan, left) = match read_plan(alloc, &plain) {
        Ok(read) => read,
        Err(fault) => return refuse_text(alloc, fault).finish(errors),
    };
    match gather(alloc, files, &plan, text, left) {
        Ok(given) => write_plan(alloc, &plan, &given, output).finish(errors),
        Err(why) => tell_no_given(alloc, &why, errors),
    }
}

// Builds the disk of a plan that is a file, and returns the status.
fn build_file<F: Files, W: Sink, E: Sink>(
    alloc: Global,
    asked: &Invocation<'_, F>,
    name: &str,
    output: &mut W,
    errors: &mut E,
) -> u8
    requires plan { AsksDiskOf (texts_of asked.now.words.now) build (Some name.now) }
    requires writes { W.has_failed output.old ≡ false }
    requires tells { E.has_failed errors.old ≡ false }
    ensures { (input : Seen) → DiskEnds (texts_of asked.now.words.now)
        (known_files F.bytes_of F.may_fail F.may_open asked.now.files.now) input result
        (seen W.held W.has_failed output.old output.new) (seen E.held E.has_failed errors.old errors.new) }
{
    let mut source = match asked.files.open(name.as_bytes()) {
        Ok(source) => source,
        Err(why) => return refuse_file(alloc, name, why, errors),
    };
    let text = match read_all(alloc, &mut source, MOST_DISK_BYTES) {
        Ok(text) => text,
        Err(fault) => return Outcome::after_reading(fault).finish(errors),
    };
    if names_hosts(&text) {
        return build_hosts(alloc, asked.files, &text, output, errors);
    }
    run_program_on::<Job, W, E>(alloc, asked.words, &text, output, errors).status
}

/// Does what the words ask for, as `run_files` does; but a plan that is a file may name host files for volumes, which are then
/// read. Returns the status, which is also
///
/// - 1 if the bytes of a host file are no volume of its partition: they are fewer or more, or its boot block names another type;
/// - 3 if a host file cannot be opened or read.
pub fn run_plans<F: Files, R: Source, W: Sink, E: Sink>(
    alloc: Global,
    asked: &Invocation<'_, F>,
    input: &mut R,
    output: &mut W,
    errors: &mut E,
) -> u8
    requires reads { R.has_failed input.old ≡ false }
    requires writes { W.has_failed output.old ≡ false }
    requires tells { E.has_failed errors.old ≡ false }
    ensures { DiskEnds (texts_of asked.now.words.now) (known_files F.bytes_of F.may_fail F.may_open asked.now.files.now)
        (seen R.left R.has_failed input.old input.new) result
        (seen W.held W.has_failed output.old output.new) (seen E.held E.has_failed errors.old errors.new) }
{
    match plan_named(alloc, asked.words) {
        Ok(Some(name)) => build_file(alloc, asked, name, output, errors),
        Ok(None) => run_files(alloc, asked, input, output, errors),
        Err(fault) => WorkFault::from(fault).refuse(Job::usage(), errors),
    }
}

/// A text with a plan can have any bytes behind it, so the answer to a plan whose lines name host files is that to one input: its
/// plain text, and behind it the volumes that are gathered.
pub fn plans_take_any_bytes()
    ensures { PlansTakeAnyBytes }
{}
