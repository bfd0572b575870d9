// The lines of many names.

ghost use Rattle.std.specs.Prelude.{◌≡◌, ℕ, List, false, IfOk, OnErr};
ghost use Rattle.std.specs.Io.KnownBytes.{Appends};
ghost use Rattle.adf_shelf_cmd.specs.Lines.{BreaksLine, IsLineOf, IsReportOf, IsRunStatus, WritesAll, WritesPart};
ghost use Rattle.adf_shelf_cmd.specs.Lines.{is_names_stop, is_write_stop};

use crate::names::Names;
use crate::report::{ImageChecks, check_file, push_why, put_line};
use adf_file_runs::Files;
use adf_runs::{Sink, StreamFault, say, write_all};

/// Why the work stopped before the last name.
#[derive(Clone, Copy, Debug, PartialEq, Eq)]
pub enum Stop {
    /// The names failed.
    ReadFault,
    /// Output failed.
    WriteFault,
    /// Memory was refused to a name or its line.
    NoMemory,
}

impl Stop {
    /// What is said on errors, with its line feed.
    pub fn line(self) -> &'static str {
        match self {
            Stop::ReadFault => "read fault\n",
            Stop::WriteFault => "write fault\n",
            Stop::NoMemory => "no memory\n",
        }
    }
}

/// Buffers that are used again for each name.
#[derive(Drop)]
struct Buffers {
    image: Vec<u8>,
    line: Vec<u8>,
    // what is said on errors of a file
    why: Vec<u8>,
}

/// Says more on errors, unless they have failed.
pub fn say_more<E: Sink>(errors: &mut E, text: &[u8]) {
    if !errors.failed() {
        say(errors, text);
    }
}

// Writes the line of a name, then says on errors why its file could not be opened, and answers its status.
fn write_line<F: Files, W: Sink, E: Sink>(
    checks: ImageChecks,
    files: &F,
    name: &[u8],
    buffers: &mut Buffers,
    output: &mut W,
    errors: &mut E,
) -> Result<u8, Stop>
    requires { W.has_failed output.old ≡ false }
    ensures ok { IfOk result (λ s. (line : List ℕ)
        × IsLineOf checks.json (IsReportOf checks.types (F.bytes_of files.now) (F.may_fail files.now)) name.now s line
        × Appends (W.held output.old) (W.held output.new) line) }
    ensures err { OnErr result
        (BreaksLine (IsLineOf checks.json (IsReportOf checks.types (F.bytes_of files.now) (F.may_fail files.now)))
        name.now (W.has_failed output.new) (W.held output.old) (W.held output.new)) }
    ensures status { IfOk result IsRunStatus }
    ensures read { is_names_stop result ≡ false }
    ensures failed { W.has_failed output.new ≡ is_write_stop result }
{
    let report = check_file(checks, files, name, &mut buffers.image);
    if put_line(&mut buffers.line, name, &report, checks.json).is_err() {
        return Err(Stop::NoMemory);
    }
    buffers.why.clear();
    if push_why(&mut buffers.why, name, report.why()).is_err() {
        return Err(Stop::NoMemory);
    }
    match write_all(output, &buffers.line) {
        Ok(()) => {
            say_more(errors, &buffers.why);
            Ok(report.status())
        }
        Err(_) => Err(Stop::WriteFault),
    }
}

/// Writes the line of each name in order, and returns the highest status of any. A line is in output
/// before the next name is read, and before errors say why its file could not be opened. A file that
/// could not be read stops no other; `Stop` if the names or output failed, or an allocation failed for
/// a name or its lines; then the lines before are written, and if output failed a front part of the
/// next one, but not all. If errors fail, nothing more is said on them.
pub fn write_verdicts<N: Names, F: Files, W: Sink, E: Sink>(
    checks: ImageChecks,
    names: &mut N,
    files: &F,
    output: &mut W,
    errors: &mut E,
) -> Result<u8, Stop>
    requires writes { W.has_failed output.old ≡ false }
    ensures all { IfOk result (λ s.
        WritesAll (IsLineOf checks.json (IsReportOf checks.types (F.bytes_of files.now) (F.may_fail files.now)))
        (N.left names.old) s (W.held output.old) (W.held output.new)) }
    ensures part { OnErr result
        (WritesPart (IsLineOf checks.json (IsReportOf checks.types (F.bytes_of files.now) (F.may_fail files.now)))
        (N.left names.old) (W.has_failed output.new) (W.held output.old) (W.held output.new)) }
    ensures status { IfOk result IsRunStatus }
    ensures unread { N.has_failed names.new ≡ is_names_stop result }
    ensures failed { W.has_failed output.new ≡ is_write_stop result }
{
    let mut buffers = Buffers {
        image: Vec::new(checks.alloc),
        line: Vec::new(checks.alloc),
        why: Vec::new(checks.alloc),
    };
    let mut name = Vec::new(checks.alloc);
    let mut status = 0u8;
    loop {
        match names.next(&mut name) {
            Ok(true) => match write_line(checks, files, &name, &mut buffers, output, errors) {
                Ok(one) => status = status.max(one),
                Err(stop) => return Err(stop),
            },
            Ok(false) => return Ok(status),
            Err(StreamFault::Device) => return Err(Stop::ReadFault),
            Err(StreamFault::NoMemory) => return Err(Stop::NoMemory),
        }
    }
}
