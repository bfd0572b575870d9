// Checked volumes.

ghost use Rattle.std.specs.Prelude.{◌≡◌, ◌+◌, ◌≤◌, ◌<◌, ◌↔◌, ℕ, [], length, IsOk, IsSome, Some, IfOk, IfSome, option_map};
ghost use Rattle.std.specs.{Option.unwrap_or, List.All, List.concat};
ghost use Rattle.adf_tree.specs.Tree.{Tree, entry, find_by};
ghost use Rattle.adf_blocks.specs.Sizes.{blocks};
ghost use Rattle.adf_volume.specs.{declared.owner.Owner.Owner, Layout.Layout, Layout.at_node, Layout.datas_of, Layout.owned};
ghost use Rattle.adf_volume.specs.{Lists.In, Rows.row_of_entry, Fits.FitsBy, Counts.counts_of, Image.letters_of};
ghost use Rattle.adf_check.specs.{Store.store_value, Pieces.bytes_of, Pieces.pieces_at, Volumes.IsChecked, Volumes.OnVolume};
ghost use Rattle.adf_volume.specs.OwnerClass.{class_of};

use crate::lookup::{block_of, find};
use crate::pieces::{blocks_of, pieces_of};
use crate::rebuild::tree_of;
use crate::store::Store;
use adf_base::{Letters, NoMemory};
use adf_blocks::Head;
use adf_tree::{Kind, Label, Name, Node, Stamps};
use adf_volume::{Counts, Image, Owner, OwnerClass, Pieces, Row, joined, owner_of, row_of};
use std::alloc::Global;
use std::marker::Model;

/// A checked volume, over its image.
#[derive(Drop)]
pub struct Checked<'a> {
    image: Image<'a>,
    store: Store,
    label: Label,
    stamps: Stamps,
}

impl<'a> Model for Checked<'a> {
    ghost use Rattle.std.specs.Prelude.{ℕ, List};
    ghost use Rattle.adf_check.specs.{Store.store_value, Volumes.IsChecked};

    ghost Value = { List ℕ };

    ghost view = { λ c. c.image };

    ghost invariant = { λ c. IsChecked c.image (store_value c.store) c.label c.stamps };
}

impl<'a> Checked<'a> {
    // A checked volume, from what was read of its image.
    pub(crate) fn new(image: Image<'a>, store: Store, label: Label, stamps: Stamps) -> Checked<'a>
        requires { IsChecked image (store_value store) label stamps }
        ensures { result ≡ image.entry }
    {
        Checked {
            image,
            store,
            label,
            stamps,
        }
    }
}

impl Checked<'_> {
    /// The owner of a block: the part that owns it, `Boot` for blocks 0 and 1, `Free` if no part owns it; `None` if
    /// there is no such block.
    pub fn owner(&self, b: u32) -> Option<Owner>
        ensures some { IsSome result ↔ (b < blocks self.now) }
        ensures part { OnVolume self.now (λ _ l. (o : Owner) → In (owned self.now l) (o, b) → result ≡ Some o) }
        ensures boot { b < 2 → result ≡ Some Owner.Boot }
        ensures free { OnVolume self.now (λ _ l. 2 ≤ b → b < blocks self.now
            → ((o : Owner) → In (owned self.now l) (o, b) → ⊥) → result ≡ Some Owner.Free) }
    {
        if b < self.image.blocks() {
            let kept = self.store.owners.at(b);
            Some(owner_of(&self.store.starts, kept))
        } else {
            None
        }
    }

    /// The class of the owner of a block, without a search for its file; `None` if there is no such block.
    #[tactic(auto, using(crate::proofs::StoreStands::keeps))]
    pub fn owner_class(&self, b: u32) -> Option<OwnerClass>
        ensures some { IsSome result ↔ (b < blocks self.now) }
        ensures part { OnVolume self.now (λ _ l. (o : Owner) → In (owned self.now l) (o, b)
            → result ≡ Some (class_of o)) }
        ensures boot { b < 2 → result ≡ Some OwnerClass.Boot }
        ensures free { OnVolume self.now (λ _ l. 2 ≤ b → b < blocks self.now
            → ((o : Owner) → In (owned self.now l) (o, b) → ⊥) → result ≡ Some OwnerClass.Free) }
    {
        if b < self.image.blocks() {
            Some(self.store.owners.at(b).class)
        } else {
            None
        }
    }

    /// The letters of its names.
    #[tactic(auto, using(adf_volume::proofs::ImageStart::own_letters))]
    pub fn letters(&self) -> Letters
        ensures image { result ≡ letters_of self.now }
        ensures tree { OnVolume self.now (λ t _. result ≡ t.letters) }
    {
        self.image.letters()
    }

    /// The label.
    pub fn label(&self) -> &Label
        ensures { OnVolume self.now (λ t _. result.now ≡ t.label) }
    {
        &self.label
    }

    /// The dates of the root, the last change and the creation.
    pub fn stamps(&self) -> Stamps
        ensures { OnVolume self.now (λ t _. result ≡ t.stamps) }
    {
        self.stamps
    }

    /// The number of entries, not counting the root.
    pub fn len(&self) -> usize
        ensures count { OnVolume self.now (λ t _. result ≡ length t.entries) }
        // A tree and a layout fit the image, by its letters.
        ensures fits { (t : Tree) × (l : Layout) × FitsBy (letters_of self.now) self.now t l }
    {
        self.store.headers.len()
    }

    /// The row of an entry; `None` for the root and past the last entry.
    pub fn row(&self, n: Node) -> Option<Row>
        ensures { OnVolume self.now (λ t _. result ≡ option_map row_of_entry (entry t.entries n)) }
    {
        if n.0 == 0 {
            return None;
        }
        let kept = self.store.headers.get(n.0 - 1)?;
        let head = Head::over(self.image.block(kept.head));
        Some(row_of(Node(kept.parent as usize), &head))
    }

    /// The node that the path leads to, ignoring the case of the volume's letters; 0 for the empty path.
    pub fn find(&self, path: &[Name]) -> Option<Node>
        ensures { OnVolume self.now (λ t _. result ≡ find_by t.letters t.entries path.now) }
    {
        find(&self.image, &self.store, path)
    }

    /// The block of the root or of an entry's header; `None` past the last entry.
    pub fn block_of(&self, n: Node) -> Option<u32>
        ensures some { OnVolume self.now (λ t _. IsSome result ↔ (n ≤ length t.entries)) }
        ensures block { OnVolume self.now (λ _ l. IfSome result (λ b. b ≡ at_node self.now l n)) }
    {
        if self.store.headers.len() < n.0 {
            return None;
        }
        Some(block_of(&self.image, &self.store, n))
    }

    /// The data blocks of a file, in file order; empty for the root, a directory, and past the last entry.
    pub fn blocks_of(&self, n: Node) -> &[u32]
        ensures { OnVolume self.now (λ _ l. result.now ≡ datas_of l n) }
    {
        blocks_of(&self.image, &self.store, n)
    }

    /// The bytes of a file as slices of the image, one for each data block; `None` for the root, a directory, and past
    /// the last entry.
    pub fn pieces(&self, n: Node) -> Option<Pieces<'_>>
        ensures exact { OnVolume self.now (λ t l. result ≡ pieces_at self.now t l n) }
        ensures joined { OnVolume self.now (λ t _. option_map concat result ≡ bytes_of (entry t.entries n)) }
        ensures one_each { OnVolume self.now (λ _ l. IfSome result (λ ps. length ps ≡ length (datas_of l n))) }
        ensures some { IfSome result (λ ps. All (λ p. 0 < length p) ps) }
    {
        pieces_of(&self.image, &self.store, n)
    }

    /// The bytes of a file; `None` for the root, a directory, and past the last entry. An empty file needs no memory.
    pub fn read(&self, alloc: Global, n: Node) -> Result<Option<Vec<u8>>, NoMemory>
        ensures bytes { OnVolume self.now (λ t _. IfOk result (λ r.
            option_map (λ v. v.items) r ≡ bytes_of (entry t.entries n))) }
        ensures empty { OnVolume self.now (λ t _. unwrap_or (bytes_of (entry t.entries n)) [] ≡ [] → IsOk result) }
    {
        match self.pieces(n) {
            None => Ok(None),
            Some(pieces) => Ok(Some(joined(alloc, pieces)?)),
        }
    }

    /// The tree of the volume. A volume with no entries needs no memory.
    pub fn to_tree(&self, alloc: Global) -> Result<adf_tree::Tree, NoMemory>
        ensures tree { OnVolume self.now (λ t _. IfOk result (λ u. u ≡ t)) }
        ensures empty { OnVolume self.now (λ t _. t.entries ≡ [] → IsOk result) }
    {
        tree_of(self, alloc)
    }

    /// The counts of the volume.
    pub fn counts(&self) -> Counts
        ensures exact { OnVolume self.now (λ t l. result ≡ counts_of self.now t l) }
        ensures blocks { result.blocks ≡ blocks self.now }
        ensures all { result.used + result.free + 2 ≡ result.blocks }
    {
        let blocks = self.image.blocks();
        let used = self.store.owners.used();
        Counts {
            kind: self.image.kind(),
            blocks,
            used,
            free: blocks - 2 - used,
            dirs: self.store.dirs,
            files: self.store.headers.len() - self.store.dirs,
        }
    }
}
