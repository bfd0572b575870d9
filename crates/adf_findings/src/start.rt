// The size, the boot bytes and the root of an image, and whether it is surveyed further.

ghost use Rattle.std.specs.Prelude.{◌≡◌, IfErr, IfOk, false};
ghost use Rattle.adf_volume.specs.Demands.{FirstFails, IsSize, boot_demands};
ghost use Rattle.adf_findings.specs.Start.{boot_findings, root_findings, unread_findings};
ghost use Rattle.adf_findings.specs.Survey.{BootTells, RootJudged, RootTells, UnreadTells, is_other_type, JudgementValue.skipped};

use crate::image::SizedImage;
use adf_base::BLOCK_LEN;
use adf_blocks::{Cause, has_root_type, read_root};
use adf_volume::{Fault, boot_cause, kind_in};

/// An image to survey, and the causes of its boot block and its root, if they have any.
#[derive(Drop)]
pub struct Started<'a> {
    pub image: SizedImage<'a>,
    pub boot: Option<Cause>,
    pub root: Option<Fault>,
}

/// Why nothing of an image is taken: the cause of its boot block, if the survey went on to the root, and the last cause.
#[derive(Clone, Copy, PartialEq, Eq, Drop)]
pub struct Unread {
    pub boot: Option<Cause>,
    pub last: Fault,
}

// Whether a boot block with this cause is of another type, 2 to 5.
fn is_other_type(cause: Cause) -> bool
    ensures { result ≡ is_other_type cause }
{
    matches!(cause, Cause::International | Cause::DirCache)
}

// The cause of the boot block, if it is one of types 2 to 5; otherwise the only finding, at block 0.
fn judge_boot(bytes: &[u8]) -> Result<Option<Cause>, Cause>
    ensures reported { IfOk result (λ boot. BootTells bytes.now (boot_findings boot)) }
    ensures fails { IfErr result (λ c. FirstFails (boot_demands bytes.now) 0 c) }
    ensures bad { IfErr result (λ c. is_other_type c ≡ false) }
{
    match boot_cause(bytes) {
        None => Ok(None),
        Some(cause) => {
            if is_other_type(cause) {
                Ok(Some(cause))
            } else {
                Err(cause)
            }
        }
    }
}

/// The image of these bytes, of an allowed size.
pub fn sized<'a>(bytes: &'a [u8]) -> SizedImage<'a>
    requires { IsSize bytes.now }
    ensures { result ≡ bytes.now }
{
    SizedImage::new(bytes, kind_in(bytes), (bytes.len() / BLOCK_LEN) as u32)
}

// The cause of the root, if it has one; otherwise why it is not taken.
#[tactic(auto, using(crate::proofs::Starts::root_clean, crate::proofs::Starts::root_reported))]
fn judge_root(image: &SizedImage<'_>) -> Result<Option<Fault>, Fault>
    ensures reported { IfOk result (λ root. RootTells image.now (root_findings root)) }
    ensures skipped { IfErr result (λ u. RootJudged image.now (skipped u.block u.cause)) }
{
    let at = image.root();
    let root = image.block(at);
    let is_root = has_root_type(&root);
    match read_root(root) {
        Ok(_) => Ok(None),
        Err(cause) => {
            let fault = Fault { block: at, cause };
            if is_root { Ok(Some(fault)) } else { Err(fault) }
        }
    }
}

/// Reads the size, the boot bytes and the root of an image; if the root is not taken, returns the only findings.
#[tactic(auto, using(crate::proofs::Starts::boot_size))]
pub fn start<'a>(bytes: &'a [u8]) -> Result<Started<'a>, Unread>
    ensures image { IfOk result (λ s. s.image ≡ bytes.now) }
    ensures boot { IfOk result (λ s. BootTells bytes.now (boot_findings s.boot)) }
    ensures root { IfOk result (λ s. RootTells bytes.now (root_findings s.root)) }
    ensures unread { IfErr result (λ u. UnreadTells bytes.now (unread_findings u)) }
{
    let boot = match judge_boot(bytes) {
        Ok(boot) => boot,
        Err(cause) => {
            return Err(Unread {
                boot: None,
                last: Fault { block: 0, cause },
            });
        }
    };
    let image = sized(bytes);
    match judge_root(&image) {
        Ok(root) => Ok(Started { image, boot, root }),
        Err(last) => Err(Unread { boot, last }),
    }
}
