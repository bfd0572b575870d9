// Laws of outlines and of edits, for the proofs of callers. None of these functions does anything.

ghost use Rattle.std.specs.Prelude.{◌≡◌, ◌≢◌, ◌++◌, ◌∷◌, ℕ, List, None, Some, false, map, option_map, true};
ghost use Rattle.adf_base.specs.declared.hash.Letters.TheVariants.{Ascii};
ghost use Rattle.adf_names.specs.Texts.{uppers};
ghost use Rattle.adf_tree.specs.{declared.entry.Body.TheVariants.Dir, Paths.Content, Paths.content_at};
ghost use Rattle.adf_tree.specs.Additions.{Addition, AllHaveRoom, content_of, entries_of_additions};
ghost use Rattle.adf_tree.specs.Tree.{IsTree, Tree, last_of};
ghost use Rattle.adf_edits.specs.{declared.edits.Change.Change, Paths.is_at_or_under};
ghost use Rattle.adf_edits.specs.Edits.{EditValue, changed_meta, edited, edited_additions, file_of, new_addition};
ghost use Rattle.adf_edits.specs.Edits.EditValue.{change, dir, file, label, move, remove, replace};
ghost use Rattle.adf_edits.specs.Outline.{OutlineValue, outline_of, tree_of_outline};

/// The outline of a tree has that tree, and each of its additions has room.
pub fn outlines_have_their_trees()
    ensures tree { (t : Tree) → t.letters ≡ Ascii → IsTree t.entries → tree_of_outline (outline_of t) ≡ t }
    ensures room { (t : Tree) → IsTree t.entries → AllHaveRoom (outline_of t).additions }
{}

/// Where each addition has room, so it has after an edit that is applied.
pub fn edits_keep_room()
    ensures additions { (edit : EditValue) (given : List ℕ) (xs ys : List Addition) → AllHaveRoom xs
        → edited_additions edit given xs ≡ Some ys → AllHaveRoom ys }
    ensures outline { (edit : EditValue) (given : List ℕ) (o p : OutlineValue) → AllHaveRoom o.additions
        → edited edit given o ≡ Some p → AllHaveRoom p.additions }
{}

/// After a removal each other path leads to what it led to, and the removed one to nothing.
pub fn removals_keep_other_paths()
    ensures gone { (path : List (List ℕ)) (given : List ℕ) (xs ys : List Addition) → AllHaveRoom xs
        → edited_additions (remove path) given xs ≡ Some ys → content_at (entries_of_additions ys) path ≡ None }
    ensures others { (path : List (List ℕ)) (given : List ℕ) (xs ys : List Addition) → AllHaveRoom xs
        → edited_additions (remove path) given xs ≡ Some ys → (q : List (List ℕ)) → map uppers q ≢ map uppers path
        → content_at (entries_of_additions ys) q ≡ content_at (entries_of_additions xs) q }
{}

/// A new directory has its path, and each other path leads to what it led to.
pub fn directories_keep_other_paths()
    ensures there { (path : List (List ℕ)) (given : List ℕ) (xs ys : List Addition) → AllHaveRoom xs
        → edited_additions (dir path) given xs ≡ Some ys
        → content_at (entries_of_additions ys) path ≡ Some (content_of (new_addition path Dir)) }
    ensures others { (path : List (List ℕ)) (given : List ℕ) (xs ys : List Addition) → AllHaveRoom xs
        → edited_additions (dir path) given xs ≡ Some ys → (q : List (List ℕ)) → map uppers q ≢ map uppers path
        → content_at (entries_of_additions ys) q ≡ content_at (entries_of_additions xs) q }
{}

/// A new file has its path, and each other path leads to what it led to.
pub fn files_keep_other_paths()
    ensures there { (path : List (List ℕ)) (size : ℕ) (given : List ℕ) (xs ys : List Addition) → AllHaveRoom xs
        → edited_additions (file path size) given xs ≡ Some ys
        → content_at (entries_of_additions ys) path ≡ Some (content_of (new_addition path (file_of size given))) }
    ensures others { (path : List (List ℕ)) (size : ℕ) (given : List ℕ) (xs ys : List Addition) → AllHaveRoom xs
        → edited_additions (file path size) given xs ≡ Some ys → (q : List (List ℕ)) → map uppers q ≢ map uppers path
        → content_at (entries_of_additions ys) q ≡ content_at (entries_of_additions xs) q }
{}

/// After its bytes are replaced a path leads to the same content but for the bytes, and each other path to what it led to.
pub fn replacements_keep_other_paths()
    ensures there { (path : List (List ℕ)) (size : ℕ) (given : List ℕ) (xs ys : List Addition) → AllHaveRoom xs
        → edited_additions (replace path size) given xs ≡ Some ys → content_at (entries_of_additions ys) path
        ≡ option_map (λ (c : Content). record c { body = file_of size given }) (content_at (entries_of_additions xs) path) }
    ensures others { (path : List (List ℕ)) (size : ℕ) (given : List ℕ) (xs ys : List Addition) → AllHaveRoom xs
        → edited_additions (replace path size) given xs ≡ Some ys → (q : List (List ℕ)) → map uppers q ≢ map uppers path
        → content_at (entries_of_additions ys) q ≡ content_at (entries_of_additions xs) q }
{}

/// After a change its path leads to the same content but for what is changed, and each other path to what it led to.
pub fn changes_keep_other_paths()
    ensures there { (path : List (List ℕ)) (what : Change) (given : List ℕ) (xs ys : List Addition) → AllHaveRoom xs
        → edited_additions (change path what) given xs ≡ Some ys → content_at (entries_of_additions ys) path
        ≡ option_map (λ (c : Content). record c { meta = changed_meta what c.meta }) (content_at (entries_of_additions xs) path) }
    ensures others { (path : List (List ℕ)) (what : Change) (given : List ℕ) (xs ys : List Addition) → AllHaveRoom xs
        → edited_additions (change path what) given xs ≡ Some ys → (q : List (List ℕ)) → map uppers q ≢ map uppers path
        → content_at (entries_of_additions ys) q ≡ content_at (entries_of_additions xs) q }
{}

/// Under a new label each path leads to what it led to.
pub fn labels_keep_paths()
    ensures { (text given : List ℕ) (xs ys : List Addition) → edited_additions (label text) given xs ≡ Some ys
        → (q : List (List ℕ)) → content_at (entries_of_additions ys) q ≡ content_at (entries_of_additions xs) q }
{}

/// After a move the new path leads to what the old one led to, under the last name of the new path, and what was in the old
/// path is in the new one. Other paths at or in the old one lead to nothing, and all other paths to what they led to.
pub fn moves_keep_other_paths()
    ensures there { (from to : List (List ℕ)) (given : List ℕ) (xs ys : List Addition) → AllHaveRoom xs
        → edited_additions (move from to) given xs ≡ Some ys
        → content_at (entries_of_additions ys) to
        ≡ option_map (λ (c : Content). record c { name = last_of to }) (content_at (entries_of_additions xs) from) }
    ensures within { (from to : List (List ℕ)) (given : List ℕ) (xs ys : List Addition) → AllHaveRoom xs
        → edited_additions (move from to) given xs ≡ Some ys → (name : List ℕ) (rest : List (List ℕ))
        → content_at (entries_of_additions ys) (to ++ name ∷ rest) ≡ content_at (entries_of_additions xs) (from ++ name ∷ rest) }
    ensures gone { (from to : List (List ℕ)) (given : List ℕ) (xs ys : List Addition) → AllHaveRoom xs
        → edited_additions (move from to) given xs ≡ Some ys → (q : List (List ℕ)) → is_at_or_under from q ≡ true
        → is_at_or_under to q ≡ false → content_at (entries_of_additions ys) q ≡ None }
    ensures others { (from to : List (List ℕ)) (given : List ℕ) (xs ys : List Addition) → AllHaveRoom xs
        → edited_additions (move from to) given xs ≡ Some ys → (q : List (List ℕ)) → is_at_or_under from q ≡ false
        → is_at_or_under to q ≡ false → content_at (entries_of_additions ys) q ≡ content_at (entries_of_additions xs) q }
{}
