// Library calls that take memory and that no command makes, each with a name.

ghost use Rattle.std.specs.Prelude.{◌≡◌, IfSome, false};

use crate::devices::Output;
use crate::entry_calls::{entries_add_outcome, tree_letters_outcome};
use crate::image_calls::{FILE, check_types_outcome, file_image, owners_new_outcome};
use crate::outcome::CallOutcome;
use crate::text_calls::{comment_write_outcome, label_write_outcome, stamp_text_outcome};
use crate::tree_calls::{draft_add_outcome, tree_add_outcome, write_path_outcome};
use crate::trees::{first_other, tree_of_lines};
use adf_build::BuildFault;
use adf_cmd::{Work, build_and_read};
use adf_runs::run_program_on;
use std::alloc::Global;

/// The names of all calls.
pub const CALLS: [&str; 12] = [
    "stamp_text",
    "label_write",
    "comment_write",
    "write_path",
    "tree_add",
    "entries_add",
    "tree_letters",
    "draft_add",
    "owners_new",
    "check_types",
    "build_and_read",
    "convert_in_memory",
];

/// Makes the call of a name, and tells how it ended: `not made` where what it needs could not be made, or no call has the name.
pub fn text_of_call(alloc: Global, name: &str) -> &'static str {
    match outcome_of(alloc, name) {
        Some(CallOutcome::Done) => "done",
        Some(CallOutcome::NoMemory) => "no memory",
        Some(CallOutcome::Failed) => "wrong",
        None => "not made",
    }
}

// Makes the call: `None` where what it needs could not be made, or no call has the name.
fn outcome_of(alloc: Global, name: &str) -> Option<CallOutcome> {
    match name {
        "stamp_text" => stamp_text_outcome(alloc),
        "label_write" => label_write_outcome(alloc),
        "comment_write" => comment_write_outcome(alloc),
        "write_path" => write_path_outcome(alloc),
        "tree_add" => tree_add_outcome(alloc),
        "entries_add" => entries_add_outcome(alloc),
        "tree_letters" => tree_letters_outcome(alloc),
        "draft_add" => draft_add_outcome(alloc),
        "owners_new" => owners_new_outcome(alloc),
        "check_types" => check_types_outcome(alloc),
        "build_and_read" => build_and_read_outcome(alloc),
        "convert_in_memory" => convert_outcome(alloc),
        _ => None,
    }
}

// The tree of the volume's file, built in 16 blocks and read back.
fn build_and_read_outcome(alloc: Global) -> Option<CallOutcome> {
    let tree = tree_of_lines(alloc, FILE).ok()?;
    Some(match build_and_read(alloc, &tree, 16) {
        Ok(came) => CallOutcome::Done.only_if(first_other(&tree, &came).is_none()),
        Err(fault) => {
            CallOutcome::NoMemory.only_if(fault == BuildFault::NoMemory && tree.len() == 1)
        }
    })
}

// A device that keeps so many bytes without asking for memory.
fn roomy(alloc: Global, count: usize) -> Option<Output>
    ensures { IfSome result (λ output. output.has_failed ≡ false) }
{
    let mut output = Output::new(alloc, usize::MAX);
    output.bytes.reserve(count).ok()?;
    Some(output)
}

// The command `convert` over an image in memory, which has the kind that is asked for, and so is its answer.
fn convert_outcome(alloc: Global) -> Option<CallOutcome> {
    let image = file_image(alloc)?;
    let mut output = roomy(alloc, image.len())?;
    let mut errors = roomy(alloc, 80)?;
    let ran = run_program_on::<Work, Output, Output>(
        alloc,
        &["adf", "convert", "ofs"],
        &image,
        &mut output,
        &mut errors,
    );
    if ran.status == 3 {
        let is_told = errors.bytes.as_slice() == b"no memory\n".as_slice();
        return Some(CallOutcome::NoMemory.only_if(is_told && output.bytes.is_empty()));
    }
    Some(CallOutcome::Done.only_if(
        ran.status == 0 && output.bytes.as_slice() == image.as_slice() && errors.bytes.is_empty(),
    ))
}
