// What a command does, once its words and its path are read.

ghost use Rattle.std.specs.Prelude.{◌≡◌, false, IfErr, IfOk};
ghost use Rattle.adf_cmd.specs.{Answers.Answer, Answers.HasBadPath, Work.Serves};
ghost use Rattle.adf_words.specs.CommandLine.{RequestValue, request_value};
ghost use Rattle.adf_runs.specs.{Outcomes.Blames, Outcomes.EndsBy, WorkFaults.IsNoWork};

use crate::building::build_manifest;
use crate::checking::check_image;
use crate::converting::{convert_image, convert_read};
use crate::copying::cat_image;
use crate::images::MOST_IMAGE_BYTES;
use crate::volume_listing::list_image;
use adf_manifest::MOST_BYTES;
use adf_runs::{Outcome, Program, Sink, Source, WorkFault, read_input};
use adf_tree::{Kind, Name, read_path};
use adf_words::{Request, USAGE, parse};
use std::alloc::Global;

/// What is done to the bytes of an input.
#[derive(Drop)]
pub enum Work {
    Check,
    List,
    /// The names of the path.
    Cat(Vec<Name>),
    Build { list: bool },
    Convert(Kind),
}

// The work that a request asks for.
fn work_for(alloc: Global, request: Request<'_>) -> Result<Work, WorkFault>
    ensures ok { IfOk result (λ work. Serves work (request_value request.entry)) }
    ensures fault { IfErr result (λ fault.
        IsNoWork fault ⊥ (HasBadPath (request_value request.entry))) }
{
    match request {
        Request::Check => Ok(Work::Check),
        Request::List => Ok(Work::List),
        Request::Cat(path) => Ok(Work::Cat(read_path(alloc, path.as_bytes())?)),
        Request::Build { list } => Ok(Work::Build { list }),
        Request::Convert(kind) => Ok(Work::Convert(kind)),
    }
}

impl Work {
    // Does the work on bytes that were read, and lets them go where they are no longer wanted.
    fn on_read<W: Sink>(&self, alloc: Global, bytes: Vec<u8>, output: &mut W) -> Outcome
        requires { W.has_failed output.old ≡ false }
        ensures ends { (r : RequestValue) → Serves self.now r
            → EndsBy (Answer r bytes.items) result (W.held output.old) (W.held output.new) }
        ensures blames { Blames result false (W.has_failed output.new) }
    {
        match self {
            Work::Convert(kind) => convert_read(alloc, bytes, *kind, output),
            _ => self.on(alloc, &bytes, output),
        }
    }
}

impl Program for Work {
    ghost use Rattle.std.proofs.Common.{inl, refl, rules};
    ghost use Rattle.adf_cmd.specs.{Answers.adf_command, Work.Serves};
    ghost use Rattle.adf_words.specs.CommandLine.{cat};

    ghost command = { adf_command };

    ghost serves = { Serves };

    fn usage() -> &'static str {
        USAGE
    }

    fn of(alloc: Global, words: &[&str]) -> Result<Work, WorkFault> {
        let request = parse(alloc, words)?;
        work_for(alloc, request)
    }

    fn limit(&self) -> usize {
        match self {
            Work::Build { .. } => MOST_BYTES,
            _ => MOST_IMAGE_BYTES,
        }
    }

    fn on<W: Sink>(&self, alloc: Global, bytes: &[u8], output: &mut W) -> Outcome {
        match self {
            Work::Check => check_image(alloc, bytes, output),
            Work::List => list_image(alloc, bytes, output),
            Work::Cat(names) => cat_image(alloc, bytes, names, output),
            Work::Build { list } => build_manifest(alloc, bytes, *list, output),
            Work::Convert(kind) => convert_image(alloc, bytes, *kind, output),
        }
    }

    fn on_input<R: Source, W: Sink>(
        &self,
        alloc: Global,
        input: &mut R,
        output: &mut W,
    ) -> Outcome {
        match read_input(alloc, input, self.limit()) {
            Ok(bytes) => self.on_read(alloc, bytes, output),
            Err(outcome) => outcome,
        }
    }

    ghost consistent = { record {
      taken = Prim.search rules;
      unread = λ words h. (cat h.0, h.1, λ input. inl (h.2, refl));
    } };
}
