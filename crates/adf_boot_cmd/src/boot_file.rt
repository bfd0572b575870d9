// Boot files.

ghost use Rattle.std.specs.Prelude.{◌≡◌, List, ℕ, false, take, IfOk, IfSome, OnErr};
ghost use Rattle.adf_boot_blocks.specs.declared.boot.TheConstants.{BOOT_LEN};
ghost use Rattle.adf_boot_cmd.specs.CommandLine.{boot_request_value, copy};
ghost use Rattle.adf_boot_cmd.specs.{Answers.IsOrderOf, Work.order_of};

use crate::command_line::BootRequest;
use crate::work::Work;
use adf_boot_blocks::BOOT_LEN;
use adf_file_runs::{Files, Unopened, refuse_file};
use adf_runs::{Sink, StreamFault, read_first, say};
use std::alloc::Global;

/// Why a boot file is not had.
#[derive(Clone, Copy, Debug)]
pub enum BootFault<'a> {
    /// The file of this name could not be opened.
    Unopened(&'a str, Unopened),
    /// It could not be read.
    Unread,
    /// Memory was refused.
    NoMemory,
}

// The first bytes of a boot file.
fn boot_of<'a, F: Files>(alloc: Global, files: &F, name: &'a str) -> Result<Vec<u8>, BootFault<'a>>
    ensures { IfOk result (λ boot.
        IfSome (F.bytes_of files.now name.entry.now) (λ all. boot.items ≡ take BOOT_LEN all)) }
{
    match files.open(name.as_bytes()) {
        Ok(mut source) => match read_first(alloc, &mut source, BOOT_LEN) {
            Ok(boot) => Ok(boot),
            Err(StreamFault::Device) => Err(BootFault::Unread),
            Err(StreamFault::NoMemory) => Err(BootFault::NoMemory),
        },
        Err(why) => Err(BootFault::Unopened(name, why)),
    }
}

/// The work that a request asks for; its boot file is read.
pub fn work_for<'a, F: Files>(
    alloc: Global,
    files: &F,
    request: BootRequest<'a>,
) -> Result<Work, BootFault<'a>>
    ensures ok { IfOk result (λ work.
        IsOrderOf (F.bytes_of files.now) (boot_request_value request.entry) (order_of work)) }
    ensures fault { OnErr result ((name : List ℕ) × (boot_request_value request.entry ≡ copy name)) }
{
    match request {
        BootRequest::Tell { json } => Ok(Work::Tell { json }),
        BootRequest::Install => Ok(Work::Install),
        BootRequest::Clear => Ok(Work::Clear),
        BootRequest::Copy(name) => match boot_of(alloc, files, name) {
            Ok(boot) => Ok(Work::Copy(boot)),
            Err(fault) => Err(fault),
        },
    }
}

impl BootFault<'_> {
    /// Says on errors why a boot file is not had, and returns the status.
    pub fn refuse<E: Sink>(self, alloc: Global, errors: &mut E) -> u8
        requires { E.has_failed errors.old ≡ false }
        ensures { result ≡ 3 }
    {
        match self {
            BootFault::Unopened(name, why) => refuse_file(alloc, name, why, errors),
            BootFault::Unread => {
                say(errors, b"boot file: read fault\n");
                3
            }
            BootFault::NoMemory => {
                say(errors, b"no memory\n");
                3
            }
        }
    }
}
