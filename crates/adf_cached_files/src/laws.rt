// The laws of images of volumes with directory caches that are read as they are. Each is the contract of a function that does nothing
// at run time.

ghost use Rattle.std.specs.Prelude.{◌≡◌, ◌⊎◌, ℕ, List, length, take};
ghost use Rattle.adf_tree.specs.{declared.entry.Body.TheVariants.File, declared.entry.Entry.Entry, Tree.Tree};
ghost use Rattle.adf_blocks.specs.declared.cause.Cause.{Cause};
ghost use Rattle.adf_volume.specs.{Image.joined, Image.kind_of, Layout.EntryAt, Layout.Layout, Layout.datas_of};
ghost use Rattle.adf_cached_files.specs.InPlace.{FirstFaultInPlace, FitsInPlace};

/// An image has one verdict as that of a volume with directory caches that is read as it is: one tree and one layout fit it, or it
/// has one first fault.
pub fn one_verdict_in_place()
    ensures fit { (image : List ℕ) (t u : Tree) (l m : Layout)
        → FitsInPlace image t l → FitsInPlace image u m → (t ≡ u) × (l ≡ m) }
    ensures fault { (image : List ℕ) (b d : ℕ) (c e : Cause)
        → FirstFaultInPlace image b c → FirstFaultInPlace image d e → (b ≡ d) × (c ≡ e) }
    ensures none { (image : List ℕ) (b : ℕ) (c : Cause) (t : Tree) (l : Layout)
        → FirstFaultInPlace image b c → FitsInPlace image t l → ⊥ }
    ensures some { (image : List ℕ) → ((t : Tree) × (l : Layout) × FitsInPlace image t l)
        ⊎ ((b : ℕ) × (c : Cause) × FirstFaultInPlace image b c) }
{}

/// The bytes of each file of the tree are what its data blocks hold in the image as it is.
pub fn files_are_read_in_place()
    ensures { (image : List ℕ) (t : Tree) (l : Layout) (n : ℕ) (e : Entry) (bytes : List ℕ)
        → FitsInPlace image t l → EntryAt t n e → e.body ≡ File bytes
        → bytes ≡ take (length bytes) (joined image (kind_of image) (datas_of l n)) }
{}
