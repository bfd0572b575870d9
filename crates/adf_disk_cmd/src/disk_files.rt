// New disks that are built into files of their own.

ghost use Rattle.std.specs.Prelude.{◌≡◌, [], ◌∷◌, IfOk, IsSome, None, OnErr, Some, codes, false};
ghost use Rattle.adf_disk_cmd.specs.CommandLine.{AreRefusedByDisk};
ghost use Rattle.adf_disk_cmd.specs.NewDisks.{NewDiskEnds, new_disk};
ghost use Rattle.adf_file_runs.specs.FileRuns.{known_files};
ghost use Rattle.adf_runs.specs.Streams.{seen};
ghost use Rattle.adf_words.specs.CommandLine.{texts_of};

use crate::host_plans::run_plans;
use adf_file_runs::{ChangeFiles, Invocation, refuse_change};
use adf_runs::{Sink, Source};
use std::alloc::{AllocError, Global};
use std::marker::Model;

/// A disk that is built into a file: the file, and the words without it.
#[derive(Drop)]
pub struct NewDisk<'a> {
    pub target: &'a str,
    pub words: Vec<&'a str>,
}

impl<'a> Model for NewDisk<'a> {
    ghost use Rattle.adf_disk_cmd.specs.NewDisks.{NewDisk as NewDiskValue};
    ghost use Rattle.adf_words.specs.CommandLine.{texts_of};

    ghost Value = { NewDiskValue };

    ghost view = { λ disk. record { target = disk.target.now; words = texts_of disk.words.items } };
}

// The words of a disk that is built, without its file.
fn words_without<'a>(
    alloc: Global,
    name: &'a str,
    command: &'a str,
    rest: &[&'a str],
) -> Result<Vec<&'a str>, AllocError>
    ensures { IfOk result (λ words. texts_of words.items ≡ name.entry.now ∷ command.entry.now ∷ texts_of rest.now) }
{
    let mut words = Vec::new(alloc);
    words.push(name)?;
    words.push(command)?;
    words.extend_from_slice(rest)?;
    Ok(words)
}

/// The disk that words ask to build into a file, `build -o DISK [PLAN]`; the first word is the program's name.
pub fn new_disk<'a>(alloc: Global, args: &'a [&'a str]) -> Result<Option<NewDisk<'a>>, AllocError>
    ensures disk { IfOk result (λ disk. disk ≡ new_disk (texts_of args.entry.now)) }
    ensures lacks { OnErr result (IsSome (new_disk (texts_of args.entry.now))) }
{
    let [name, command, flag, target, rest @ ..] = args else {
        return Ok(None);
    };
    if *command != "build" || *flag != "-o" {
        return Ok(None);
    }
    Ok(Some(NewDisk {
        target: *target,
        words: words_without(alloc, *name, *command, rest)?,
    }))
}

/// Builds a disk into a file, which gets its name once the disk is whole, and returns the status, that of `run_plans` with the
/// words alone, or 3 if the file cannot be written. If it is not 0, each file is as it was, and errors say why.
pub fn build_into<F: ChangeFiles, R: Source, E: Sink>(
    alloc: Global,
    disk: &NewDisk<'_>,
    files: &mut F,
    input: &mut R,
    errors: &mut E,
) -> u8
    requires reads { R.has_failed input.old ≡ false }
    requires tells { E.has_failed errors.old ≡ false }
    ensures { NewDiskEnds disk.now (known_files F.Files.bytes_of F.Files.may_fail F.Files.may_open files.old)
        (F.Files.bytes_of files.new) (seen R.left R.has_failed input.old input.new) result
        (seen E.held E.has_failed errors.old errors.new) }
{
    let mut made = match files.begin(alloc, disk.target.as_bytes()) {
        Ok(made) => made,
        Err(why) => return refuse_change(alloc, disk.target, why, errors),
    };
    let asked = Invocation {
        words: &disk.words,
        files: &*files,
    };
    let status = run_plans(alloc, &asked, input, &mut made, errors);
    if status != 0 {
        files.abandon(made);
        return status;
    }
    match files.put(disk.target.as_bytes(), made) {
        Ok(()) => 0,
        Err(_) if errors.failed() => 3,
        Err(why) => refuse_change(alloc, disk.target, why, errors),
    }
}

/// A disk is built into the file whose name stands behind `-o`, directly behind `build`; at any other place `-o` is refused.
#[tactic(auto, unfolding(clap::proofs::OnLiterals::clap_on_literals))]
pub fn new_disk_words_as_documented()
    ensures plan { new_disk (codes "adf-disk" ∷ codes "build" ∷ codes "-o" ∷ codes "new.hdf" ∷ codes "plan" ∷ [])
        ≡ Some (record { target = codes "new.hdf"; words = codes "adf-disk" ∷ codes "build" ∷ codes "plan" ∷ [] }) }
    ensures input { new_disk (codes "adf-disk" ∷ codes "build" ∷ codes "-o" ∷ codes "new.hdf" ∷ [])
        ≡ Some (record { target = codes "new.hdf"; words = codes "adf-disk" ∷ codes "build" ∷ [] }) }
    ensures output { new_disk (codes "adf-disk" ∷ codes "build" ∷ codes "plan" ∷ []) ≡ None }
    ensures no_name { new_disk (codes "adf-disk" ∷ codes "build" ∷ codes "-o" ∷ []) ≡ None }
    ensures no_name_refused { AreRefusedByDisk (codes "adf-disk" ∷ codes "build" ∷ codes "-o" ∷ []) }
    ensures behind { new_disk (codes "adf-disk" ∷ codes "build" ∷ codes "plan" ∷ codes "-o" ∷ codes "new.hdf" ∷ []) ≡ None }
    ensures behind_refused { AreRefusedByDisk
        (codes "adf-disk" ∷ codes "build" ∷ codes "plan" ∷ codes "-o" ∷ codes "new.hdf" ∷ []) }
    ensures list { new_disk (codes "adf-disk" ∷ codes "list" ∷ codes "-o" ∷ codes "new.hdf" ∷ codes "old.hdf" ∷ []) ≡ None }
    ensures list_refused { AreRefusedByDisk
        (codes "adf-disk" ∷ codes "list" ∷ codes "-o" ∷ codes "new.hdf" ∷ codes "old.hdf" ∷ []) }
{}
