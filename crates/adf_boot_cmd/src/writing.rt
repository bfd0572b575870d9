// Images with other boot blocks.

ghost use Rattle.std.specs.Prelude.{◌≡◌, ◌≢◌, ◌⊎◌, ◌≤◌, ◌++◌, IfErr, IfOk, None, [], false, length};
ghost use Rattle.adf_boot_blocks.specs.{declared.boot.TheConstants.BOOT_LEN, declared.refusal.TheConstants.MOST_BYTES};
ghost use Rattle.adf_runs.specs.{Commands.on_output, Streams.seen};
ghost use Rattle.adf_runs.specs.Outcomes.{Does, DoesSilently, status_of};
ghost use Rattle.adf_boot_cmd.specs.Answers.{Writes, changed_boot, line_status, order_refusal, told_status};
ghost use Rattle.adf_boot_cmd.specs.Work.{HasBoot, order_of};

use crate::line::boot_text;
use crate::work::Work;
use adf_base::BLOCK_LEN;
use adf_boot_blocks::{
    BOOT_LEN, BootRefusal, STANDARD_CODE, clear, copy, copy_refusal, image_refusal, install,
    is_bootable,
};
use adf_runs::{Outcome, Sink, write_all, write_both};
use std::alloc::{AllocError, Global};

/// Refuses with a text and a line feed on errors; output gets nothing.
pub fn refuse(alloc: Global, text: &str) -> Outcome
    ensures silent { DoesSilently (λ reply. (reply.status ≡ 1) × (reply.output ≡ [])) result }
    ensures status { (status_of result ≡ 1) ⊎ (status_of result ≡ 3) }
{
    match format!(in alloc; "{text}\n") {
        Ok(line) => Outcome::Refused(line),
        Err(_) => Outcome::NoMemory,
    }
}

// Writes a text, at status 0 if an Amiga starts from the boot blocks that it tells of, else at status 1.
fn write_line<W: Sink>(output: &mut W, line: &[u8], bootable: bool) -> Outcome
    requires { W.has_failed output.old ≡ false }
    ensures { Does (λ reply. reply ≡ on_output (line_status bootable) line.now) result
        (seen W.held W.has_failed output.old output.new) }
{
    match write_all(output, line) {
        Ok(()) if bootable => Outcome::Done,
        Ok(()) => Outcome::FaultWritten,
        Err(_) => Outcome::WriteFault,
    }
}

/// Writes the line of the boot blocks of an image, or their object.
pub fn tell<W: Sink>(alloc: Global, image: &[u8], json: bool, output: &mut W) -> Outcome
    requires { W.has_failed output.old ≡ false }
    ensures { Does (λ reply. reply.status ≡ told_status image.now) result
        (seen W.held W.has_failed output.old output.new) }
{
    if image.len() < BOOT_LEN {
        return refuse(alloc, "bad size");
    }
    match boot_text(alloc, image, json) {
        Ok(line) => write_line(output, &line, is_bootable(image)),
        Err(_) => Outcome::NoMemory,
    }
}

// Writes boot blocks, and what is behind those of an image.
fn write_parts<W: Sink>(boot: &[u8], behind: &[u8], output: &mut W) -> Outcome
    requires { W.has_failed output.old ≡ false }
    ensures { Does (λ reply. reply ≡ on_output 0 (boot.now ++ behind.now)) result
        (seen W.held W.has_failed output.old output.new) }
{
    match write_both(output, boot, behind) {
        Ok(()) => Outcome::Done,
        Err(_) => Outcome::WriteFault,
    }
}

// Boot blocks, and what is behind those of an image.
fn joined(alloc: Global, boot: &[u8], behind: &[u8]) -> Result<Vec<u8>, AllocError>
    ensures { IfOk result (λ image. image.items ≡ boot.now ++ behind.now) }
{
    let mut image = Vec::new(alloc);
    image.extend_from_slice(boot)?;
    image.extend_from_slice(behind)?;
    Ok(image)
}

// The text of a refusal.
fn boot_refusal_text(refusal: BootRefusal) -> &'static str {
    match refusal {
        BootRefusal::BadSize => "bad size",
        BootRefusal::NotDos => "not dos",
        BootRefusal::BadSourceSize => "boot file: bad size",
        BootRefusal::SourceNotDos => "boot file: not dos",
    }
}

impl Work {
    // Why an image gets no other boot blocks, if it gets none.
    fn refusal(&self, image: &[u8]) -> Option<BootRefusal>
        ensures { result ≡ order_refusal (order_of self.now) image.now }
    {
        match self {
            Work::Copy(boot) => copy_refusal(image, boot),
            Work::Tell { .. } => image_refusal(image),
            Work::Install => image_refusal(image),
            Work::Clear => image_refusal(image),
        }
    }

    // The boot blocks that an image gets.
    fn changed(&self, image: &[u8]) -> [u8; BOOT_LEN]
        requires whole { BOOT_LEN ≤ length image.now }
        requires few { length image.now ≤ MOST_BYTES }
        requires boot { HasBoot (order_of self.now) }
        ensures { result ≡ changed_boot (order_of self.now) image.now }
    {
        let mut boot = [0; BOOT_LEN];
        boot.copy_from_slice(&image[..BOOT_LEN]);
        match self {
            Work::Tell { .. } => {}
            Work::Install => {
                let root = (image.len() / BLOCK_LEN / 2) as u32;
                install(&mut boot, root, &STANDARD_CODE);
            }
            Work::Clear => clear(&mut boot),
            Work::Copy(from) => copy(&mut boot, from),
        }
        boot
    }

    /// Writes an image with other boot blocks, if nothing refuses it.
    #[tactic(auto, using(crate::proofs::Replies::taken))]
    pub fn write<W: Sink>(&self, alloc: Global, image: &[u8], output: &mut W) -> Outcome
        requires { W.has_failed output.old ≡ false }
        ensures { Does (Writes (order_refusal (order_of self.now) image.now) (order_of self.now) image.now) result
            (seen W.held W.has_failed output.old output.new) }
    {
        match self.refusal(image) {
            Some(refusal) => refuse(alloc, boot_refusal_text(refusal)),
            None => {
                let boot = self.changed(image);
                write_parts(&boot, &image[BOOT_LEN..], output)
            }
        }
    }

    /// The image with other boot blocks, if nothing refuses it; else how the work went.
    #[tactic(auto, using(crate::proofs::Replies::taken))]
    pub fn new_image(&self, alloc: Global, image: &[u8]) -> Result<Vec<u8>, Outcome>
        ensures new { IfOk result (λ new.
            Writes (order_refusal (order_of self.now) image.now) (order_of self.now) image.now (on_output 0 new.items)) }
        ensures refused { IfErr result (λ outcome. (status_of outcome ≡ 3)
            ⊎ ((status_of outcome ≡ 1) × (order_refusal (order_of self.now) image.now ≢ None))) }
    {
        match self.refusal(image) {
            Some(refusal) => Err(refuse(alloc, boot_refusal_text(refusal))),
            None => {
                let boot = self.changed(image);
                match joined(alloc, &boot, &image[BOOT_LEN..]) {
                    Ok(new) => Ok(new),
                    Err(_) => Err(Outcome::NoMemory),
                }
            }
        }
    }
}
