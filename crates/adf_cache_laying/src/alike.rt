// What is found on two images.

ghost use Rattle.std.specs.Prelude.{◌≡◌, ◌<◌, ℕ, Some, length, slice_get, true};
ghost use Rattle.adf_blocks.specs.Sizes.{blocks};
ghost use Rattle.adf_findings.specs.Survey.{FindingValue, OnSurvey};
ghost use Rattle.adf_caches.specs.Entries.{has_entry};
ghost use Rattle.adf_volume.specs.Walk.{heads};
ghost use Rattle.adf_cache_laying.specs.LaidCaches.{AreFoundAlike, IsAtSamePlace, IsOfTypeOrLink, IsSamePart};

use crate::room::counted;
use adf_blocks::Cause;
use adf_findings::Survey;
use adf_tree::Node;

// Whether an entry has its header in the same block of both images, and is in the same directory.
fn is_at_same_place(one: &Survey<'_>, other: &Survey<'_>, n: Node) -> bool
    ensures { OnSurvey one.now.image (λ w _. OnSurvey other.now.image (λ v _. result ≡ true → IsAtSamePlace w v n)) }
{
    match (one.block_of(n), other.block_of(n)) {
        (Some(a), Some(b)) => b == a && other.directory_of(n).0 == one.directory_of(n).0,
        _ => false,
    }
}

// Whether two images have the same entries at the same places.
fn are_at_same_places(one: &Survey<'_>, other: &Survey<'_>) -> bool
    ensures { OnSurvey one.now.image (λ w _. OnSurvey other.now.image (λ v _. result ≡ true
        → (k : ℕ) → has_entry w k ≡ true → IsAtSamePlace w v k)) }
{
    for i in 0..one.len() {
        if !is_at_same_place(one, other, Node(i + 1)) {
            return false;
        }
    }
    true
}

// Whether two images have a block as the same part.
fn is_same_part(one: &Survey<'_>, other: &Survey<'_>, b: u32) -> bool
    ensures { OnSurvey one.now.image (λ w _. OnSurvey other.now.image (λ v _. result ≡ true → IsSamePart w v b)) }
{
    other.has_part(b) == one.has_part(b)
        && other.entry_at(b) == one.entry_at(b)
        && other.data_number(b) == one.data_number(b)
}

// Whether two images have each of the first blocks as the same part.
fn are_same_parts(one: &Survey<'_>, other: &Survey<'_>, count: u32) -> bool
    ensures { OnSurvey one.now.image (λ w _. OnSurvey other.now.image (λ v _. result ≡ true
        → (b : ℕ) → b < count → IsSamePart w v b)) }
{
    for b in 0..count {
        if !is_same_part(one, other, b) {
            return false;
        }
    }
    true
}

// Whether a cause is that an entry is a link.
fn is_link(cause: Cause) -> bool
    ensures { result ≡ true → cause ≡ Cause.Link }
{
    matches!(cause, Cause::Link)
}

// Whether finding `k` is of the type, or that an entry is a link.
fn is_of_type_or_link(survey: &Survey<'_>, k: usize) -> bool
    ensures { OnSurvey survey.now.image (λ _ fs. result ≡ true → (f : FindingValue) → slice_get fs k ≡ Some f
        → IsOfTypeOrLink f) }
{
    match survey.findings().get(k) {
        Some(finding) => finding.block == 0 || is_link(finding.cause),
        None => false,
    }
}

/// Whether each finding is of the type, or that an entry is a link.
pub fn are_of_type_or_links(survey: &Survey<'_>) -> bool
    ensures { OnSurvey survey.now.image (λ _ fs. result ≡ true
        → (k : ℕ) (f : FindingValue) → slice_get fs k ≡ Some f → IsOfTypeOrLink f) }
{
    for k in 0..survey.findings().len() {
        if !is_of_type_or_link(survey, k) {
            return false;
        }
    }
    true
}

// Whether two images have as many findings and entries.
fn are_as_many(one: &Survey<'_>, other: &Survey<'_>) -> bool
    ensures entries { OnSurvey one.now.image (λ w _. OnSurvey other.now.image (λ v _. result ≡ true
        → heads v ≡ heads w)) }
    ensures findings { OnSurvey one.now.image (λ _ fs. OnSurvey other.now.image (λ _ gs. result ≡ true
        → length gs ≡ length fs)) }
{
    let (before, after) = (one.findings().len(), other.findings().len());
    let (entries, kept) = (one.len(), other.len());
    after == before && kept == entries
}

// Whether the same is found of the first blocks of two images.
fn are_alike(one: &Survey<'_>, other: &Survey<'_>, count: u32) -> bool
    ensures { OnSurvey one.now.image (λ w fs. OnSurvey other.now.image (λ v gs. result ≡ true
        → AreFoundAlike count w fs v gs)) }
{
    if !are_as_many(one, other) || !are_at_same_places(one, other) {
        return false;
    }
    if !are_same_parts(one, other, count) {
        return false;
    }
    are_of_type_or_links(other)
}

/// Whether the same is found on two images, as far as the blocks of the first go.
pub fn are_found_alike(one: &Survey<'_>, other: &Survey<'_>) -> bool
    ensures { OnSurvey one.now.image (λ w fs. OnSurvey other.now.image (λ v gs. result ≡ true
        → AreFoundAlike (blocks one.now.image) w fs v gs)) }
{
    match counted(one.image()) {
        Some(count) => are_alike(one, other, count),
        None => false,
    }
}
