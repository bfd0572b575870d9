// What is done for words, of a disk or of a plan.

ghost use Rattle.std.specs.Prelude.{IfOk};
ghost use Rattle.adf_disk_cmd.specs.{Jobs.IsJobOf, CommandLine.disk_request_value};

use crate::answering::Telling;
use crate::building::build_disk;
use crate::check_input::check_input;
use crate::command_line::{DISK_USAGE as USAGE, DiskRequest, disk_file, parse_disk};
use crate::copy_input::copy_input;
use crate::list_input::list_input;
use crate::proposing::propose_plan;
use crate::searching::search_disk;
use crate::work::{MOST_DISK_BYTES, Work, sought_for};
use adf_file_runs::FileProgram;
use adf_runs::{Outcome, Program, Sink, Source, WorkFault, read_input};
use std::alloc::{AllocError, Global};

/// What is done with an input.
#[derive(Drop)]
pub enum Job {
    /// It is a disk, about which something is asked.
    Tell(Work),
    /// It is a disk, which is searched for volumes.
    Search { json: bool },
    /// It is a disk, of whose volumes a plan is proposed.
    Propose,
    /// It is a plan, whose disk is built.
    Build,
}

// The job that a request asks for.
fn job_for(alloc: Global, request: DiskRequest<'_>) -> Result<Job, AllocError>
    ensures { IfOk result (λ job. IsJobOf job (disk_request_value request.entry)) }
{
    Ok(match request {
        DiskRequest::List { json } => Job::Tell(Work::List { json }),
        DiskRequest::Check { json } => Job::Tell(Work::Check { json }),
        DiskRequest::Search { json } => Job::Search { json },
        DiskRequest::Propose => Job::Propose,
        DiskRequest::Volume(wanted) => Job::Tell(Work::Volume(sought_for(alloc, wanted)?)),
        DiskRequest::Build => Job::Build,
    })
}

impl Program for Job {
    ghost use Rattle.std.proofs.Common.{rules};
    ghost use Rattle.adf_disk_cmd.specs.{Answers.disk_command, Jobs.IsJobOf};

    ghost command = { disk_command };

    ghost serves = { IsJobOf };

    fn usage() -> &'static str {
        USAGE
    }

    fn of(alloc: Global, words: &[&str]) -> Result<Job, WorkFault> {
        let request = parse_disk(alloc, words)?;
        job_for(alloc, request).map_err(|_| WorkFault::NoMemory)
    }

    fn limit(&self) -> usize {
        MOST_DISK_BYTES
    }

    fn on<W: Sink>(&self, alloc: Global, bytes: &[u8], output: &mut W) -> Outcome {
        let part = &bytes[..bytes.len().min(MOST_DISK_BYTES)];
        match self {
            Job::Tell(work) => work.on(alloc, part, output),
            Job::Search { json } => search_disk(Telling { alloc, json: *json }, part, output),
            Job::Propose => propose_plan(alloc, part, output),
            Job::Build => build_disk(alloc, part, output),
        }
    }

    fn on_input<R: Source, W: Sink>(
        &self,
        alloc: Global,
        input: &mut R,
        output: &mut W,
    ) -> Outcome {
        match self {
            Job::Tell(Work::List { json }) => {
                list_input(Telling { alloc, json: *json }, input, output)
            }
            Job::Tell(Work::Volume(sought)) => copy_input(alloc, input, sought, output),
            Job::Tell(Work::Check { json }) => {
                check_input(Telling { alloc, json: *json }, input, output)
            }
            Job::Search { .. } | Job::Propose | Job::Build => {
                match read_input(alloc, input, MOST_DISK_BYTES) {
                    Ok(bytes) => self.on(alloc, &bytes, output),
                    Err(outcome) => outcome,
                }
            }
        }
    }

    ghost consistent = { record {
      taken = Prim.search rules;
      unread = λ words none. absurd none;
    } };
}

impl FileProgram for Job {
    ghost use Rattle.adf_disk_cmd.specs.CommandLine.{disk_file};

    ghost file_of = { disk_file };

    fn file_named<'a>(alloc: Global, words: &'a [&str]) -> Result<Option<&'a str>, WorkFault> {
        match disk_file(alloc, words) {
            Ok(file) => Ok(file),
            Err(fault) => Err(WorkFault::from(fault)),
        }
    }
}
