// The survey of an image.

ghost use Rattle.std.specs.Prelude.{◌≡◌, ◌++◌, IfOk, OnOk, map};
ghost use Rattle.adf_volume.specs.Walk.{Walk};
ghost use Rattle.adf_findings.specs.{Parts.finding_value, Start.boot_findings, Start.root_findings, Start.unread_findings};
ghost use Rattle.adf_findings.specs.Survey.{BootTells, IsSurvey, RootTells, UnreadTells};

use crate::bits::compare;
use crate::course::run;
use crate::finding::Finding;
use crate::found::Found;
use crate::image::SizedImage;
use crate::marks::{concerned, contested, grave, strike_blamed, undoubted_marks};
use crate::progress::{Progress, note};
use crate::start::{Started, Unread, start};
use crate::survey_result::Survey;
use crate::walk_owners::WalkOwners;
use adf_base::NoMemory;
use adf_blocks::Cause;
use adf_volume::{Fault, Part};
use std::alloc::Global;
use std::collections::BTreeMap;

// Notes the cause of the boot block, if it has one.
fn report_boot(findings: &mut Vec<Finding>, boot: Option<Cause>) -> Result<(), NoMemory>
    ensures { OnOk result (map finding_value findings.new.items
        ≡ map finding_value findings.old.items ++ boot_findings boot) }
{
    let Some(cause) = boot else {
        return Ok(());
    };
    let finding = Finding {
        part: None,
        block: 0,
        cause,
    };
    note(findings, finding)
}

// The survey of an image of which nothing is taken.
fn only<'i>(alloc: Global, image: &'i [u8], unread: Unread) -> Result<Survey<'i>, NoMemory>
    requires { UnreadTells image.now (unread_findings unread) }
    ensures image { IfOk result (λ v. v.image ≡ image.now) }
    ensures findings { IfOk result (λ v. (w : Walk)
        × IsSurvey image.now w (map finding_value v.findings)) }
{
    let mut findings = Vec::new(alloc);
    report_boot(&mut findings, unread.boot)?;
    let owners = WalkOwners::new(alloc, 2)?;
    let finding = Finding {
        part: None,
        block: unread.last.block,
        cause: unread.last.cause,
    };
    note(&mut findings, finding)?;
    let contested = contested(alloc, &findings)?;
    Ok(Survey {
        image,
        findings,
        concerned: Vec::new(alloc),
        owners,
        contested,
        pages: BTreeMap::new(alloc),
        nodes: Vec::new(alloc),
        parents: Vec::new(alloc),
        places: Vec::new(alloc),
        sound: Vec::new(alloc),
        whole: Vec::new(alloc),
    })
}

// Notes the cause of the root, if it has one.
fn report_root(findings: &mut Vec<Finding>, root: Option<Fault>) -> Result<(), NoMemory>
    ensures { OnOk result (map finding_value findings.new.items
        ≡ map finding_value findings.old.items ++ root_findings root) }
{
    let Some(fault) = root else {
        return Ok(());
    };
    let finding = Finding {
        part: Some(Part::Root),
        block: fault.block,
        cause: fault.cause,
    };
    note(findings, finding)
}

// The survey of an image whose root is taken.
fn go_through<'i>(alloc: Global, started: &Started<'i>) -> Result<Survey<'i>, NoMemory>
    requires boot { BootTells started.now.image (boot_findings started.now.boot) }
    requires root { RootTells started.now.image (root_findings started.now.root) }
    ensures image { IfOk result (λ v. v.image ≡ started.now.image) }
    ensures findings { IfOk result (λ v. (w : Walk)
        × IsSurvey started.now.image w (map finding_value v.findings)) }
{
    let image = &started.image;
    let mut progress = Progress {
        found: Found::begin(alloc, image)?,
        findings: Vec::new(alloc),
    };
    report_boot(&mut progress.findings, started.boot)?;
    report_root(&mut progress.findings, started.root)?;
    run(image, &mut progress)?;
    let Progress {
        found,
        mut findings,
    } = progress;
    compare(image, &found, &mut findings)?;
    let concerned = concerned(alloc, &found, &findings)?;
    let contested = contested(alloc, &findings)?;
    let mut sound = undoubted_marks(alloc, image, &found)?;
    let mut whole = sound.clone()?;
    strike_blamed(&found, &findings, &mut sound);
    let graves = grave(alloc, &findings)?;
    strike_blamed(&found, &graves, &mut whole);
    Ok(Survey {
        image: image.bytes(),
        findings,
        concerned,
        owners: found.owners,
        contested,
        pages: found.pages,
        nodes: found.nodes,
        parents: found.parents,
        places: found.places,
        sound,
        whole,
    })
}

/// Surveys an image: every part that has a cause, every bit that disagrees, and the entries that are found. `NoMemory`
/// if an allocation fails.
pub fn survey<'i>(alloc: Global, image: &'i [u8]) -> Result<Survey<'i>, NoMemory>
    ensures image { IfOk result (λ v. v.image ≡ image.now) }
    ensures findings { IfOk result (λ v. (w : Walk)
        × IsSurvey image.now w (map finding_value v.findings)) }
{
    match start(image) {
        Ok(started) => go_through(alloc, &started),
        Err(unread) => only(alloc, image, unread),
    }
}
