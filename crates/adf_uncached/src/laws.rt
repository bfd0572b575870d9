// The laws of verdicts on images of volumes with directory caches. Each is the contract of a function that does nothing at run time.

ghost use Rattle.std.specs.Prelude.{◌≡◌, ◌⊎◌, ℕ, List};
ghost use Rattle.adf_tree.specs.Tree.{Tree};
ghost use Rattle.adf_blocks.specs.declared.cause.Cause.{Cause};
ghost use Rattle.adf_volume.specs.Layout.{Layout};
ghost use Rattle.adf_uncached.specs.Cached.{FirstFaultCached, FitsCached};

/// An image has one verdict as that of a volume with directory caches: one tree and one layout fit it, or it has one first fault.
pub fn one_cached_verdict()
    ensures fit { (image : List ℕ) (t u : Tree) (l m : Layout)
        → FitsCached image t l → FitsCached image u m → (t ≡ u) × (l ≡ m) }
    ensures fault { (image : List ℕ) (b d : ℕ) (c e : Cause)
        → FirstFaultCached image b c → FirstFaultCached image d e → (b ≡ d) × (c ≡ e) }
    ensures none { (image : List ℕ) (b : ℕ) (c : Cause) (t : Tree) (l : Layout)
        → FirstFaultCached image b c → FitsCached image t l → ⊥ }
    ensures some { (image : List ℕ) → ((t : Tree) × (l : Layout) × FitsCached image t l)
        ⊎ ((b : ℕ) × (c : Cause) × FirstFaultCached image b c) }
{}
