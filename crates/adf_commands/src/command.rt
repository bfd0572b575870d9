// The commands, by their names.

use crate::shelf::{run_raw_shelf, run_shelf};
use adf_file_runs::run_on;
use adf_merge_cmd::Merging;
use adf_runs::Outcome;

/// A command beside `adf`.
#[derive(Clone, Copy)]
pub enum Command {
    Boot,
    Disk,
    Edit,
    Merge,
    Shelf,
    Survey,
}

// The part of a path behind its last slash, without `adf-` or `adf_` before it.
fn base_name(path: &str) -> &str {
    let name = match path.rsplit_once('/') {
        Some((_, name)) => name,
        None => path,
    };
    name.strip_prefix("adf-")
        .or(name.strip_prefix("adf_"))
        .unwrap_or(name)
}

impl Command {
    /// The command of a name, which may be a path and begin with `adf-`.
    pub fn named(word: &str) -> Option<Command> {
        let name = base_name(word);
        if name == "boot" {
            Some(Command::Boot)
        } else if name == "disk" {
            Some(Command::Disk)
        } else if name == "edit" {
            Some(Command::Edit)
        } else if name == "merge" {
            Some(Command::Merge)
        } else if name == "shelf" {
            Some(Command::Shelf)
        } else if name == "survey" {
            Some(Command::Survey)
        } else {
            None
        }
    }

    /// The name that its errors begin with.
    pub fn name(self) -> &'static str {
        match self {
            Command::Boot => "adf-boot",
            Command::Disk => "adf-disk",
            Command::Edit => "adf-edit",
            Command::Merge => "adf-merge",
            Command::Shelf => "adf-shelf",
            Command::Survey => "adf-survey",
        }
    }

    /// Runs it on words, the first of which is its name, and returns the status; if it cannot be begun, how the run ends.
    pub fn run(self, rt: &HostRuntime, words: &[&str]) -> Result<u8, Outcome> {
        match self {
            Command::Boot => Ok(run_on::<adf_boot_cmd::Work>(rt, words)),
            Command::Disk => Ok(run_on::<adf_disk_cmd::Job>(rt, words)),
            Command::Edit => Ok(run_on::<adf_edit_cmd::Work>(rt, words)),
            Command::Merge => Ok(run_on::<Merging>(rt, words)),
            Command::Shelf => run_shelf(rt, words),
            Command::Survey => Ok(run_on::<adf_survey_cmd::Work>(rt, words)),
        }
    }

    /// The same for words as bytes, of which some are no UTF-8: `adf-shelf` takes them as names, and no other command takes them.
    pub fn run_raw(self, rt: &HostRuntime, words: &[Vec<u8>]) -> Result<u8, Outcome> {
        match self {
            Command::Shelf => run_raw_shelf(rt, words),
            _ => Err(Outcome::ReadFault),
        }
    }
}
