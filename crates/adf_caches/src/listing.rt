// Records and the entries that they name.

ghost use Rattle.std.specs.Prelude.{◌≡◌, List, ℕ, IfNone, Some, None, false, map, true};
ghost use Rattle.adf_base.specs.Words.{block, word};
ghost use Rattle.adf_volume.specs.Image.{name_of};
ghost use Rattle.adf_findings.specs.Survey.{OnSurvey};
ghost use Rattle.adf_caches.specs.Caches.{entry_recorded, if_recorded, is_record_of, records_in};
ghost use Rattle.adf_caches.specs.Marking.{KeepsOthers, mark_each, mark_one};
ghost use Rattle.adf_caches.specs.Records.{record_value, records_fit};

use crate::blocks::RECORD_COUNT;
use crate::headers::headed_at;
use crate::records::{CacheRecord, RECORD_START, record_in};
use adf_base::Block;
use adf_blocks::{SECONDARY_TYPE, SIZE, ST_FILE};
use adf_findings::Survey;
use adf_tree::Node;

// Whether a record says what a header says, that has this name.
#[tactic(auto, unfolding(crate::specs::Caches::is_record_of))]
fn is_record_of(head: &Block<'_>, name: &[u8], said: &CacheRecord<'_>) -> bool
    ensures { (image : List ℕ) (b : ℕ) → head.now ≡ block image b → name.now ≡ name_of image b
        → result ≡ is_record_of image b (record_value said.now) }
{
    let secondary = head.word(SECONDARY_TYPE);
    u32::from(said.kind) == secondary % 256
        && said.name == name
        && (secondary != ST_FILE || said.size == head.word(SIZE))
}

// An entry, if it is in directory `d` and the record is right about it.
fn if_recorded(survey: &Survey<'_>, d: Node, said: &CacheRecord<'_>, n: Node) -> Option<usize>
    ensures { OnSurvey survey.now.image (λ w _. result
        ≡ if_recorded survey.now.image w d (record_value said.now) n) }
{
    let head = survey.header(n)?;
    let name = survey.name(n)?;
    if survey.directory_of(n).0 == d.0 && is_record_of(&head, name, said) {
        return Some(n.0);
    }
    None
}

// The entry of directory `d` that a record names, if it is right about it.
#[tactic(auto, unfolding(crate::specs::Caches::entry_recorded))]
fn entry_recorded(survey: &Survey<'_>, d: Node, said: &CacheRecord<'_>) -> Option<usize>
    ensures { OnSurvey survey.now.image (λ w _. result
        ≡ entry_recorded survey.now.image w d (record_value said.now)) }
{
    match headed_at(survey, said.header) {
        Some(n) => if_recorded(survey, d, said, n),
        None => None,
    }
}

/// Marks what is named, if there is something and it has no mark. Returns whether it did.
pub fn mark_one(marks: &mut Vec<bool>, named: Option<usize>) -> bool
    ensures marked { result ≡ true → mark_one named marks.old.items ≡ Some marks.new.items }
    ensures none { result ≡ false → mark_one named marks.old.items ≡ None }
    ensures kept { result ≡ false → marks.new.items ≡ marks.old.items }
{
    let Some(n) = named else {
        return false;
    };
    if n < marks.len() && !marks[n] {
        marks[n] = true;
        return true;
    }
    false
}

/// Marks the entries of directory `d` that the records of a cache block name. Returns whether each record is right about an entry
/// that had no mark.
pub fn mark_recorded(survey: &Survey<'_>, d: Node, cache: &Block<'_>, marks: &mut Vec<bool>) -> bool
    requires { records_fit cache.now (word cache.now RECORD_COUNT) RECORD_START ≡ true }
    ensures marked { OnSurvey survey.now.image (λ w _. result ≡ true
        → mark_each (map (entry_recorded survey.now.image w d) (records_in cache.now)) marks.old.items ≡ Some marks.new.items) }
    ensures none { OnSurvey survey.now.image (λ w _. result ≡ false
        → mark_each (map (entry_recorded survey.now.image w d) (records_in cache.now)) marks.old.items ≡ None) }
    ensures others { OnSurvey survey.now.image (λ w _. KeepsOthers w d marks.old.items marks.new.items) }
{
    let mut at = RECORD_START;
    for _k in 0..cache.word(RECORD_COUNT) {
        let Some((said, next)) = record_in(cache, at) else {
            return false;
        };
        if !mark_one(marks, entry_recorded(survey, d, &said)) {
            return false;
        }
        at = next;
    }
    true
}
