// The lines of a plan's text.

ghost use Rattle.std.specs.Prelude.{◌≡◌, ◌≤◌, IfNone, IfSome, List, length, true, ℕ};
ghost use Rattle.adf_names.specs.{Escapes.IsSpelling, Texts.is_name_byte};
ghost use Rattle.std.specs.List.{list_all};
ghost use Rattle.adf_partitions.specs.Plans.{IsPartitionPlan};
ghost use Rattle.adf_plans.specs.PlanTexts.{IsDiskLine, IsDiskText, IsPartitionLine, IsPartitionText, has_word, option_priority};
ghost use Rattle.adf_plans.specs.PlanTexts.{options_of, without_priority, without_word};
ghost use Rattle.adf_partitions.specs.declared.plan.PartitionPlan.{PartitionPlan as PlanOfPartition};

use crate::plan_words::{cut, ends_in_space, read_number, read_priority};
use adf_partitions::{DriveName, FileSystem, PartitionPlan, are_name_bytes};

/// What stands behind the cylinders of a partition.
#[derive(Clone, Copy, Debug)]
pub struct Options {
    pub bootable: bool,
    pub priority: i8,
    pub given: bool,
}

/// Whether a word comes first, and the text without it.
pub fn take_word<'a>(text: &'a [u8], word: &[u8]) -> (bool, &'a [u8])
    ensures has { result.0 ≡ has_word word.now text.now }
    ensures rest { result.1.now ≡ without_word word.now text.now }
{
    let (first, rest) = cut(text, b' ');
    if first == word {
        (true, rest)
    } else {
        (false, text)
    }
}

/// The boot priority that comes first, or 0, and the text without it.
pub fn take_priority(text: &[u8]) -> (Option<i8>, &[u8])
    ensures priority { result.0 ≡ option_priority text.now }
    ensures rest { result.1.now ≡ without_priority text.now }
{
    let (has, rest) = take_word(text, b"priority");
    if !has {
        return (Some(0), text);
    }
    let (word, rest) = cut(rest, b' ');
    (read_priority(word), rest)
}

// The options of a partition.
fn read_options(text: &[u8]) -> Option<Options>
    ensures { result ≡ options_of text.now }
{
    let (bootable, rest) = take_word(text, b"bootable");
    let (priority, rest) = take_priority(rest);
    let (given, rest) = take_word(rest, b"given");
    let priority = priority?;
    if rest.is_empty() {
        Some(Options {
            bootable,
            priority,
            given,
        })
    } else {
        None
    }
}

// The name of a drive, 1 to 31 bytes, none of them `/` or `:`.
#[tactic(auto, using(adf_names::proofs::Spellings::only_spelled))]
fn read_name(word: &[u8]) -> Option<DriveName>
    ensures some { IfSome result (λ name. IsSpelling 31 word.now name × (1 ≤ length name)
        × (list_all is_name_byte name ≡ true)) }
    ensures none { IfNone result ((name : List ℕ) → IsSpelling 31 word.now name → 1 ≤ length name
        → list_all is_name_byte name ≡ true → ⊥) }
{
    let name = DriveName::read(word)?;
    if name.bytes().is_empty() {
        return None;
    }
    if are_name_bytes(name.bytes()) {
        Some(name)
    } else {
        None
    }
}

// The partition of the words behind `partition`.
fn read_words(text: &[u8]) -> Option<PartitionPlan>
    ensures some { IfSome result (λ p. IsPartitionText text.now p) }
    ensures none { IfNone result ((p : PlanOfPartition) → ¬ IsPartitionText text.now p) }
{
    let (name, rest) = cut(text, b' ');
    let (system, rest) = cut(rest, b' ');
    let (cylinders, rest) = cut(rest, b' ');
    let name = read_name(name)?;
    let system = FileSystem::named(system)?;
    let cylinders = read_number(cylinders)?;
    let Options {
        bootable,
        priority,
        given,
    } = read_options(rest)?;
    if cylinders == 0 {
        return None;
    }
    Some(PartitionPlan {
        name,
        system,
        cylinders,
        bootable,
        priority,
        given,
    })
}

/// The partition of a line; `None` if the line is none of a partition.
pub fn read_partition(line: &[u8]) -> Option<PartitionPlan>
    ensures some { IfSome result (λ p. IsPartitionLine line.now p) }
    ensures none { IfNone result ((p : PlanOfPartition) → ¬ IsPartitionLine line.now p) }
{
    if ends_in_space(line) {
        return None;
    }
    let (has, rest) = take_word(line, b"partition");
    if has { read_words(rest) } else { None }
}

// The two numbers of the words behind `disk`.
fn read_numbers(text: &[u8]) -> Option<(u32, u32)>
    ensures some { IfSome result (λ r. IsDiskText text.now r.0 r.1) }
    ensures none { IfNone result ((sectors heads : ℕ) → ¬ IsDiskText text.now sectors heads) }
{
    let (sectors, heads) = cut(text, b' ');
    let sectors = read_number(sectors)?;
    let heads = read_number(heads)?;
    Some((sectors, heads))
}

/// The sectors and the heads of a first line; `None` if the line has another form.
pub fn read_disk(line: &[u8]) -> Option<(u32, u32)>
    ensures some { IfSome result (λ r. IsDiskLine line.now r.0 r.1) }
    ensures none { IfNone result ((sectors heads : ℕ) → ¬ IsDiskLine line.now sectors heads) }
{
    let (has, rest) = take_word(line, b"disk");
    if has { read_numbers(rest) } else { None }
}
