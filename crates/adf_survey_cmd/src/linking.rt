// Links and directory caches beside all that is kept in a new volume.

ghost use Rattle.std.specs.Prelude.{◌≡◌, IfOk, false};
ghost use Rattle.adf_survey_cmd.specs.Rescue.{MayHaveAll, MayHaveCaches, MayHaveLinks};

use adf_base::NoMemory;
use adf_cache_laying::lay_caches;
use adf_keep::{LinkTarget, Linked, WantedLink, lay_links};
use adf_names::Name;
use adf_report::Report;
use adf_uncached::is_cached;
use std::alloc::{AllocError, Global};

/// The most names of the path of an entry that a link is in or leads to.
const MOST_NAMES: usize = 256;

/// A new volume, and for each claim whether it is a link that is in it.
#[derive(Drop)]
pub struct LaidVolume {
    pub image: Vec<u8>,
    pub links: Vec<bool>,
}

// Links that are wanted, and the numbers of their claims.
#[derive(Drop)]
struct Wanted {
    links: Vec<WantedLink>,
    numbers: Vec<usize>,
}

// The names of the path of a claim in the new volume, by its number; `None` if it has too many.
fn path_of(
    alloc: Global,
    report: &Report<'_, '_>,
    number: usize,
) -> Result<Option<Vec<Name>>, AllocError> {
    let mut names = Vec::new(alloc);
    let mut at = number;
    for _ in 0..MOST_NAMES {
        let Some(claim) = report.claim(at) else {
            names.reverse();
            return Ok(Some(names));
        };
        let Some(name) = Name::new(&claim.name) else {
            return Ok(None);
        };
        names.push(name)?;
        at = claim.directory;
    }
    Ok(None)
}

// What a right link leads to, by its number.
fn target_of(
    alloc: Global,
    report: &Report<'_, '_>,
    number: usize,
) -> Result<Option<LinkTarget>, AllocError> {
    match report.target_of(number) {
        0 => Ok(Some(LinkTarget::Soft(report.soft_path(number).to_vec(alloc)?))),
        target => match path_of(alloc, report, target)? {
            Some(path) => Ok(Some(LinkTarget::Hard(path))),
            None => Ok(None),
        },
    }
}

// The link that is wanted for a claim, by its number, if that is a right link.
fn wanted_link(
    alloc: Global,
    report: &Report<'_, '_>,
    number: usize,
) -> Result<Option<WantedLink>, AllocError> {
    let claim = match report.claim(number) {
        Some(claim) if report.is_right_link(number) => claim,
        _ => return Ok(None),
    };
    let Some(name) = Name::new(&claim.name) else {
        return Ok(None);
    };
    let Some(directory) = path_of(alloc, report, claim.directory)? else {
        return Ok(None);
    };
    match target_of(alloc, report, number)? {
        Some(to) => Ok(Some(WantedLink {
            directory,
            name,
            meta: claim.meta.copy(),
            to,
        })),
        None => Ok(None),
    }
}

// The links of what is judged to exist.
fn wanted_links(alloc: Global, report: &Report<'_, '_>) -> Result<Wanted, AllocError> {
    let mut wanted = Wanted {
        links: Vec::new(alloc),
        numbers: Vec::new(alloc),
    };
    for number in 1..report.judgement.claims.len().saturating_add(1) {
        if let Some(link) = wanted_link(alloc, report, number)? {
            wanted.links.push(link)?;
            wanted.numbers.push(number)?;
        }
    }
    Ok(wanted)
}

// For each of so many claims whether it is a link that is kept.
fn marks_of(
    alloc: Global,
    count: usize,
    numbers: &[usize],
    kept: &[bool],
) -> Result<Vec<bool>, AllocError> {
    let mut marks = vec![in alloc; false; count]?;
    for i in 0..numbers.len() {
        let is_kept = kept.get(i).copied().unwrap_or(false);
        let index = numbers[i].saturating_sub(1);
        if is_kept && index < marks.len() {
            marks[index] = true;
        }
    }
    Ok(marks)
}

// A new volume with the links of what is judged to exist.
fn with_wanted(
    alloc: Global,
    report: &Report<'_, '_>,
    volume: Vec<u8>,
) -> Result<LaidVolume, NoMemory>
    ensures { IfOk result (λ laid. MayHaveLinks volume.items laid.image.items) }
{
    let letters = report.judgement.reading.letters;
    let Wanted { links, numbers } = wanted_links(alloc, report)?;
    let Linked { image, kept } = lay_links(alloc, volume, letters, &links)?;
    let links = marks_of(alloc, report.judgement.claims.len(), &numbers, &kept)?;
    Ok(LaidVolume { image, links })
}

// A new volume with directory caches and these boot blocks, if the input has caches and they can be laid; otherwise as it is.
fn with_caches(
    alloc: Global,
    input: &[u8],
    boot: &[u8],
    volume: Vec<u8>,
) -> Result<Vec<u8>, NoMemory>
    ensures { IfOk result (λ image. MayHaveCaches input.now boot.now volume.items image.items) }
{
    if !is_cached(input) {
        return Ok(volume);
    }
    match lay_caches(alloc, &volume, boot)? {
        Some(image) => Ok(image),
        None => Ok(volume),
    }
}

/// A new volume of an input, and its boot blocks.
#[derive(Drop)]
pub struct NewVolume<'a> {
    pub input: &'a [u8],
    pub boot: &'a [u8],
    pub image: Vec<u8>,
}

/// A new volume; where they are asked for with the links of what is judged to exist, and with directory caches, if the input has
/// them.
pub fn with_all(
    alloc: Global,
    report: &Report<'_, '_>,
    volume: NewVolume<'_>,
    with_links: bool,
) -> Result<LaidVolume, NoMemory>
    ensures alone { IfOk result (λ laid. with_links ≡ false → laid.image.items ≡ volume.entry.image.items) }
    ensures all { IfOk result (λ laid. MayHaveAll volume.entry.input.now volume.entry.boot.now volume.entry.image.items laid.image.items) }
{
    let NewVolume { input, boot, image } = volume;
    if !with_links {
        return Ok(LaidVolume {
            image,
            links: Vec::new(alloc),
        });
    }
    let LaidVolume { image, links } = with_wanted(alloc, report, image)?;
    let image = with_caches(alloc, input, boot, image)?;
    Ok(LaidVolume { image, links })
}
