// The laws of walks, for names of any letters. Each is the contract of a function that does nothing at run time.

ghost use Rattle.std.specs.Prelude.{◌≡◌, ◌<◌, ℕ, List, ◌*◌, ◌-◌, ◌↔◌, length, map, Some, None};
ghost use Rattle.std.specs.List.{All, concat};
ghost use Rattle.adf_base.specs.declared.hash.Letters.{Letters};
ghost use Rattle.adf_tree.specs.{declared.entry.Entry.Entry, Bounds.IsBounded, Chain.chain_by, Tree.Tree, Tree.entry};
ghost use Rattle.adf_names.specs.declared.kind.Kind.{Kind};
ghost use Rattle.adf_blocks.specs.{declared.cause.Cause.Cause, Forms.Clause, Forms.first_cause, Sizes.blocks};
ghost use Rattle.adf_blocks.specs.declared.layout.TheConstants.{SIZE};
ghost use Rattle.adf_volume.specs.{Lists.At, Fits.FitsBy, Fits.FitsOf, LayoutRoles.LayoutHasBy, Made.layout_in, Made.tree_in_by};
ghost use Rattle.adf_volume.specs.Image.{content, letters_of, pieces, root_of, word_in};
ghost use Rattle.adf_volume.specs.Demands.{AllHold, FirstFails, boot_demands_by, root_demands, demands_at};
ghost use Rattle.adf_volume.specs.declared.types.Types.{Types};
ghost use Rattle.adf_volume.specs.Layout.{EntryAt, Layout, chain_nodes_by};
ghost use Rattle.adf_volume.specs.Walk.{FirstFaultBy, FirstFaultOf, Has, IsDue, IsWalkBy, IsWhole, NoCauseBy, Role, bitmap_demands, Walk};

/// The demands of a form all hold if and only if it has no first cause; the first that fails has its first cause.
pub fn demanded_form()
    ensures all { (b : ℕ) (form : List Clause)
        → AllHold (demands_at b form) ↔ (first_cause form ≡ None) }
    ensures first { (b a : ℕ) (c : Cause) (form : List Clause)
        → FirstFails (demands_at b form) a c ↔ ((first_cause form ≡ Some c) × (b ≡ a)) }
{}

/// If a tree and a layout fit, every part in a walk is theirs, and the part due next is theirs and has no cause.
pub fn agreement()
    ensures part { (letters : Letters) (image : List ℕ) (t : Tree) (l : Layout) (w : Walk)
        → FitsBy letters image t l → IsWalkBy letters image w
        → (r : Role) (b : ℕ) → Has w r b → LayoutHasBy letters image t l r b }
    ensures due { (letters : Letters) (image : List ℕ) (t : Tree) (l : Layout) (w : Walk)
        → FitsBy letters image t l → IsWalkBy letters image w
        → (r : Role) (a i : ℕ) → IsDue image w r a i
        → LayoutHasBy letters image t l r (word_in image a i)
        × NoCauseBy letters image w r a (word_in image a i) }
{}

/// If, in addition, nothing is due, the walk has every part.
pub fn completeness()
    ensures { (letters : Letters) (image : List ℕ) (t : Tree) (l : Layout) (w : Walk)
        → FitsBy letters image t l → IsWalkBy letters image w → IsWhole image w
        → (r : Role) (b : ℕ) → LayoutHasBy letters image t l r b → Has w r b }
{}

/// If an image has a first fault, no tree fits it; so also where some types are accepted.
pub fn none_fits()
    ensures by { (letters : Letters) (image : List ℕ) (b : ℕ) (c : Cause)
        → FirstFaultBy letters image b c → (t : Tree) (l : Layout) → FitsBy letters image t l → ⊥ }
    ensures of { (types : Types) (image : List ℕ) (b : ℕ) (c : Cause)
        → FirstFaultOf types image b c → (t : Tree) (l : Layout) → FitsOf types image t l → ⊥ }
{}

/// If a tree and a layout fit, there is a whole walk.
#[tactic(auto, using(crate::proofs::FitWalks::whole_walk))]
pub fn whole_walk()
    ensures { (letters : Letters) (image : List ℕ) (t : Tree) (l : Layout)
        → FitsBy letters image t l → (w : Walk) × IsWalkBy letters image w × IsWhole image w }
{}

/// Two trees that fit the same image, by whatever letters, are equal, and so are their layouts.
#[tactic(auto, using(crate::proofs::FitWalks::one_fit))]
pub fn one_fit()
    ensures { (letters others : Letters) (image : List ℕ) (t u : Tree) (l m : Layout)
        → FitsBy letters image t l → FitsBy others image u m → (t ≡ u) × (l ≡ m) }
{}

/// The letters by which a tree fits an image are those of the image, and of the tree.
#[tactic(auto, using(crate::proofs::ImageStart::own_letters))]
pub fn fits_by_own_letters()
    ensures image { (letters : Letters) (image : List ℕ) (t : Tree) (l : Layout)
        → FitsBy letters image t l → letters ≡ letters_of image }
    ensures tree { (letters : Letters) (image : List ℕ) (t : Tree) (l : Layout)
        → FitsBy letters image t l → letters ≡ t.letters }
{}

/// The fields of a tree that fits an image of bytes are within their bounds.
pub fn fits_are_bounded()
    ensures { (letters : Letters) (image : List ℕ) (t : Tree) (l : Layout)
        → All (λ byte. byte < 256) image → FitsBy letters image t l → IsBounded t }
{}

/// The tree and layout of a whole walk fit the image if its boot block, root and bitmap are sound.
pub fn layout_of_walk_fits()
    ensures { (letters : Letters) (image : List ℕ) (w : Walk)
        → AllHold (boot_demands_by letters image) → AllHold (root_demands image (root_of image))
        → IsWalkBy letters image w → IsWhole image w
        → AllHold (bitmap_demands image w 2 (blocks image - 2))
        → FitsBy letters image (tree_in_by letters image w) (layout_in w) }
{}

/// An image has at most one first fault; so also where some types are accepted.
pub fn one_fault()
    ensures by { (letters : Letters) (image : List ℕ) (b d : ℕ) (c e : Cause)
        → FirstFaultBy letters image b c → FirstFaultBy letters image d e → (b ≡ d) × (c ≡ e) }
    ensures of { (types : Types) (image : List ℕ) (b d : ℕ) (c e : Cause)
        → FirstFaultOf types image b c → FirstFaultOf types image d e → (b ≡ d) × (c ≡ e) }
{}

/// The numbers of a chain are those of its entries.
pub fn chains_of_numbers()
    ensures entries { (letters : Letters) (t : Tree) (p s : ℕ)
        → map (λ n. entry t.entries n) (chain_nodes_by letters t p s)
        ≡ map Some (chain_by letters t.entries p s) }
    ensures numbers { (t : Tree) (n : ℕ) (e : Entry)
        → EntryAt t n e ↔ (entry t.entries n ≡ Some e) }
{}

/// The pieces of a file, joined, are its content.
#[tactic(auto, using(crate::proofs::PieceBytes::pieces_joined, crate::proofs::PieceBytes::pieces_length))]
pub fn pieces_are_content()
    ensures joined { (image : List ℕ) (kind : Kind) (h : ℕ) (datas : List ℕ)
        → length image ≡ 512 * blocks image → ((i b : ℕ) → At datas i b → b < blocks image)
        → concat (pieces image kind (word_in image h SIZE) 1 datas) ≡ content image kind h datas }
    ensures one_each { (image : List ℕ) (kind : Kind) (size k : ℕ) (datas : List ℕ)
        → length (pieces image kind size k datas) ≡ length datas }
{}
