// Verdicts on images of volumes with directory caches.

ghost use Rattle.std.specs.Prelude.{◌≡◌, IfOk, string_bytes, true};
ghost use Rattle.adf_cached_files.specs.InPlace.{IsKeptOf};
ghost use Rattle.adf_volume.specs.declared.types.Types.TheVariants.{WithInternational};
ghost use Rattle.adf_verdicts.specs.Verdicts.{IsOkLine, IsVerdict, takes_caches};

use crate::verdicts::{Verdict, refused};
use adf_cached_files::check_in_place;
use adf_check::{Checked, Counts};
use adf_names::Kind;
use adf_texts::push_counts_of;
use adf_uncached::{Uncached, counts_with_caches, is_cached, without_caches};
use adf_volume::{Types, is_image_len};
use std::alloc::{AllocError, Global};

/// Whether an image is checked as that of a volume with directory caches where these types are accepted.
pub fn takes_caches(types: Types, image: &[u8]) -> bool
    ensures { result ≡ takes_caches types image.now }
{
    match types {
        Types::Plain => false,
        Types::WithInternational => is_cached(image) && is_image_len(image.len()),
    }
}

// The word for a kind of volumes with directory caches.
fn cached_kind_text(kind: Kind) -> &'static str {
    match kind {
        Kind::Ofs => "ofs-cached",
        Kind::Ffs => "ffs-cached",
    }
}

// The line of a sound volume with directory caches.
fn cached_line(alloc: Global, counts: &Counts) -> Result<String, AllocError>
    ensures { IfOk result (λ line. IsOkLine (string_bytes line)) }
{
    let mut line = String::new(alloc);
    push_counts_of(&mut line, cached_kind_text(counts.kind), counts)?;
    Ok(line)
}

// The verdict on an accepted image.
fn cached_acceptance(
    alloc: Global,
    uncached: &Uncached,
    volume: &Checked<'_>,
) -> Result<Verdict, AllocError>
    ensures sound { IfOk result (λ v. v.sound ≡ true) }
    ensures line { IfOk result (λ v. IsOkLine (string_bytes v.line)) }
{
    let line = cached_line(alloc, &counts_with_caches(uncached, volume))?;
    Ok(Verdict { sound: true, line })
}

// The verdict on an image that is kept as one without caches.
fn verdict_on_uncached(
    alloc: Global,
    image: &[u8],
    uncached: &Uncached,
) -> Result<Verdict, AllocError>
    requires kept { IsKeptOf image.now uncached.now }
    requires takes { takes_caches WithInternational image.now ≡ true }
    ensures { IfOk result (λ v. IsVerdict WithInternational image.now v.sound (string_bytes v.line)) }
{
    match check_in_place(alloc, image, uncached) {
        Ok(volume) => cached_acceptance(alloc, uncached, &volume),
        Err(fault) => refused(alloc, fault),
    }
}

/// The verdict on an image of a volume with directory caches. `AllocError` if an allocation failed; it says nothing about the
/// image.
pub fn verdict_on_cached(alloc: Global, image: &[u8]) -> Result<Verdict, AllocError>
    requires { takes_caches WithInternational image.now ≡ true }
    ensures { IfOk result (λ v. IsVerdict WithInternational image.now v.sound (string_bytes v.line)) }
{
    match without_caches(alloc, image) {
        Ok(uncached) => verdict_on_uncached(alloc, image, &uncached),
        Err(_) => Err(AllocError),
    }
}
