// The command `check`.

ghost use Rattle.std.specs.Prelude.{◌≡◌, ◌&&◌, Bool, List, ℕ, false, find, option_copied, IfOk};
ghost use Rattle.adf_disk_cmd.specs.{Answers.ChecksAll, Checks.AreChecked, Checks.IsVolumeAnswer, Checks.TellsPartition};
ghost use Rattle.adf_disk_cmd.specs.HeldChecks.{KnowsDisk, lies_at};
ghost use Rattle.adf_disk_cmd.specs.Surveys.{are_faultless, volume_at};
ghost use Rattle.adf_runs.specs.Outcomes.{Blames, EndsBy};

use crate::answering::{Telling, write_text};
use crate::disk_objects::push_verdict_object;
use crate::faults::fault_lines;
use crate::listing::push_name;
use crate::surveying::SurveyedDisk;
use crate::unchecked::{unchecked_text, why_unchecked};
use crate::volumes::volume_at;
use adf_partitions::{DiskFault, Partition, Place};
use adf_runs::{Outcome, Sink};
use adf_verdicts::{Verdict, verdict_of};
use adf_volume::Types;
use std::alloc::{AllocError, Global};

// The lines of partitions, and whether all of them are sound.
#[derive(Drop)]
struct Checks {
    sound: bool,
    text: Vec<u8>,
}

/// A volume that was checked.
#[derive(Drop)]
pub struct CheckedVolume {
    pub place: Place,
    pub answer: Verdict,
}

// The volume at a place, if it was checked.
fn volume_checked(checked: &[CheckedVolume], place: Place) -> Option<&CheckedVolume>
    ensures { option_copied result ≡ find (lies_at place) checked.now }
{
    for volume in checked {
        if volume.place == place {
            return Some(volume);
        }
    }
    None
}

// What is answered to the volume at a place, which was checked or is held whole. `AllocError` if an allocation fails, or if it is
// neither.
fn answer_to_volume(
    alloc: Global,
    bytes: &[u8],
    checked: &[CheckedVolume],
    place: Place,
) -> Result<Verdict, AllocError>
    ensures { (all : List ℕ) → KnowsDisk all bytes.now checked.now → IfOk result (IsVolumeAnswer (volume_at all place)) }
{
    match volume_checked(checked, place) {
        Some(volume) => {
            let line = volume.answer.line.clone()?;
            let sound = volume.answer.sound;
            Ok(Verdict { sound, line })
        }
        None => {
            let volume = volume_at(bytes, place);
            if volume.len() as u64 != place.blocks.saturating_mul(512) {
                return Err(AllocError);
            }
            verdict_of(alloc, Types::WithInternational, volume)
        }
    }
}

// What is told of a partition: of a volume what is answered to it, else why it is not checked, or why it has no place.
fn answer_to_partition(
    alloc: Global,
    bytes: &[u8],
    checked: &[CheckedVolume],
    partition: &Partition,
) -> Result<Verdict, AllocError>
    ensures { (all : List ℕ) → KnowsDisk all bytes.now checked.now
        → IfOk result (λ a. TellsPartition all partition.now a.sound) }
{
    let line = match partition.place {
        Ok(place) => match why_unchecked(partition, place) {
            None => return answer_to_volume(alloc, bytes, checked, place),
            Some(why) => {
                let text = unchecked_text(alloc, why)?;
                format!(in alloc; "{text}\n")?
            }
        },
        Err(fault) => format!(in alloc; "{fault}\n")?,
    };
    Ok(Verdict { sound: false, line })
}

// Appends the line of a partition: its name, and what is told of it; or with `json` its object.
fn push_line(
    text: &mut Vec<u8>,
    partition: &Partition,
    answer: &Verdict,
    json: bool,
) -> Result<(), AllocError> {
    if json {
        let line = answer.line.as_bytes();
        return push_verdict_object(text, partition, answer.sound, line);
    }
    push_name(text, partition)?;
    text.extend_from_slice(answer.line.as_bytes())
}

// The lines of all partitions.
fn check_partitions(
    telling: Telling,
    bytes: &[u8],
    checked: &[CheckedVolume],
    partitions: &[Partition],
) -> Result<Checks, AllocError>
    ensures { (all : List ℕ) → KnowsDisk all bytes.now checked.now → IfOk result (λ c. AreChecked all partitions.now c.sound) }
{
    let mut text = Vec::new(telling.alloc);
    let mut sound = true;
    for partition in partitions {
        let answer = answer_to_partition(telling.alloc, bytes, checked, partition)?;
        push_line(&mut text, partition, &answer, telling.json)?;
        sound = sound && answer.sound;
    }
    Ok(Checks { sound, text })
}

// Whether a disk is sound: its tables have no fault, and all its volumes are sound.
fn is_sound(fault: Option<DiskFault>, volumes: bool) -> bool
    ensures { result ≡ (are_faultless fault && volumes) }
{
    fault.is_none() && volumes
}

// The line of the fault of the tables, if there is one, and the lines of all partitions; sound if there is no fault and all are.
fn check_disk(
    telling: Telling,
    bytes: &[u8],
    checked: &[CheckedVolume],
    disk: &SurveyedDisk,
) -> Result<Checks, AllocError>
    ensures { (all : List ℕ) → KnowsDisk all bytes.now checked.now
        → IfOk result (λ c. (sound : Bool) × AreChecked all disk.now.partitions.items sound
        × (c.sound ≡ (are_faultless disk.now.fault && sound))) }
{
    let checks = check_partitions(telling, bytes, checked, &disk.partitions)?;
    let mut text = fault_lines(telling, disk.fault)?;
    text.extend_from_slice(&checks.text)?;
    Ok(Checks {
        sound: is_sound(disk.fault, checks.sound),
        text,
    })
}

/// Writes these lines of a disk, of which these bytes are held and these volumes were checked.
pub fn write_checks<W: Sink>(
    telling: Telling,
    bytes: &[u8],
    checked: &[CheckedVolume],
    disk: &SurveyedDisk,
    output: &mut W,
) -> Outcome
    requires { W.has_failed output.old ≡ false }
    ensures ends { (all : List ℕ) → KnowsDisk all bytes.now checked.now
        → EndsBy (ChecksAll all disk.now.partitions.items disk.now.fault) result (W.held output.old) (W.held output.new) }
    ensures blames { Blames result false (W.has_failed output.new) }
{
    match check_disk(telling, bytes, checked, disk) {
        Ok(checks) => write_text(output, &checks.text, checks.sound),
        Err(_) => Outcome::NoMemory,
    }
}
