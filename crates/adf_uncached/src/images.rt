// Images of volumes with directory caches, as volumes without.

ghost use Rattle.std.specs.Prelude.{◌≡◌, [], IfOk, Some, fold, true};
ghost use Rattle.adf_blocks.specs.declared.cause.Cause.TheVariants.{DirCache};
ghost use Rattle.adf_caches.specs.Blocks.{HaveChains, cache_blocks};
ghost use Rattle.adf_findings.specs.Survey.{OnSurvey};
ghost use Rattle.adf_volume.specs.Fault.{fault};
ghost use Rattle.adf_uncached.specs.Bits.{with_free};
ghost use Rattle.adf_uncached.specs.Uncached.{KeepsAs, IsUncached, free_fault, freed, is_cached, plainly_typed};

use crate::bits::set_free;
use crate::faults::{first_free, first_marked};
use adf_base::NoMemory;
use adf_blocks::Cause;
use adf_caches::{cache_blocks, directory_header, wrong_caches};
use adf_findings::{Survey, survey};
use adf_tree::Node;
use adf_volume::{Fault, fault_at};
use std::alloc::Global;

/// The image of a volume with directory caches, as that of a volume without.
#[derive(Drop)]
pub struct Uncached {
    /// A copy of the image, of the type without caches, in whose bitmap the blocks of caches are free.
    pub image: Vec<u8>,
    /// The blocks of caches; none if one is wrong.
    pub blocks: Vec<u32>,
    /// The fault of the caches, if they have one.
    pub fault: Option<Fault>,
}

/// Whether the type of an image is one of directory caches, 4 or 5.
pub fn is_cached(image: &[u8]) -> bool
    ensures { result ≡ is_cached image.now }
{
    let volume_type = image.get(3).copied().unwrap_or(0);
    volume_type == 4 || volume_type == 5
}

// A copy of an image with the same type without caches.
fn plainly_typed(alloc: Global, image: &[u8]) -> Result<Vec<u8>, NoMemory>
    requires { is_cached image.now ≡ true }
    ensures { IfOk result (λ v. v.items ≡ plainly_typed image.now) }
{
    let mut copy = Vec::from_slice(alloc, image)?;
    copy[3] -= 2;
    Ok(copy)
}

// Makes these blocks free in the bitmap of a copy of the image of a survey.
fn set_all_free(survey: &Survey<'_>, copy: &mut [u8], blocks: &[u32])
    ensures { OnSurvey survey.now.image (λ w _. copy.new ≡ fold (with_free w) copy.old blocks.now) }
{
    for b in blocks {
        set_free(survey, copy, *b);
    }
}

// The fault of the first of these blocks that is free in the bitmap of the image of a survey.
fn free_fault(survey: &Survey<'_>, blocks: &[u32]) -> Option<Fault>
    ensures { OnSurvey survey.now.image (λ w _. result ≡ free_fault survey.now.image w blocks.now) }
{
    match first_free(survey, blocks) {
        Some(b) => Some(fault_at(b, Cause::OwnedFree)),
        None => None,
    }
}

// The image of a survey as one without caches, where that of the directory with its header in block `b` is wrong.
fn with_wrong_cache(alloc: Global, image: &[u8], b: u32) -> Result<Uncached, NoMemory>
    requires { is_cached image.now ≡ true }
    ensures { IfOk result (λ u. KeepsAs u (plainly_typed image.now) [] (Some (fault b DirCache))) }
{
    Ok(Uncached {
        image: plainly_typed(alloc, image)?,
        blocks: Vec::new(alloc),
        fault: Some(fault_at(b, Cause::DirCache)),
    })
}

// The image of a survey as one without caches, where none is wrong.
fn with_right_caches(alloc: Global, survey: &Survey<'_>) -> Result<Uncached, NoMemory>
    requires { is_cached survey.now.image ≡ true }
    ensures { OnSurvey survey.now.image (λ w _. HaveChains survey.now.image w
        → IfOk result (λ u. KeepsAs u (freed survey.now.image w (cache_blocks survey.now.image w))
        (cache_blocks survey.now.image w) (free_fault survey.now.image w (cache_blocks survey.now.image w)))) }
{
    let blocks = cache_blocks(alloc, survey)?;
    let mut copy = plainly_typed(alloc, survey.image())?;
    let fault = free_fault(survey, &blocks);
    set_all_free(survey, &mut copy, &blocks);
    Ok(Uncached {
        image: copy,
        blocks,
        fault,
    })
}

// The image of a survey as one without caches.
fn uncached_of(alloc: Global, survey: &Survey<'_>) -> Result<Uncached, NoMemory>
    requires { is_cached survey.now.image ≡ true }
    ensures { OnSurvey survey.now.image (λ w _. IfOk result (IsUncached survey.now.image w)) }
{
    let wrong = wrong_caches(alloc, survey)?;
    match first_marked(&wrong) {
        Some(d) => with_wrong_cache(alloc, survey.image(), directory_header(survey, Node(d))),
        None => with_right_caches(alloc, survey),
    }
}

/// The image of a volume with directory caches, as that of a volume without. `NoMemory` if an allocation fails.
pub fn without_caches(alloc: Global, image: &[u8]) -> Result<Uncached, NoMemory>
    requires { is_cached image.now ≡ true }
    ensures { OnSurvey image.now (λ w _. IfOk result (IsUncached image.now w)) }
{
    let survey = survey(alloc, image)?;
    uncached_of(alloc, &survey)
}
