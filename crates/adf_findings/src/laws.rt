// The laws of surveys. Each is the contract of a function that does nothing at run time.

ghost use Rattle.std.specs.Prelude.{◌≡◌, ◌<◌, ◌↔◌, ℕ, Bool, List, [], ◌∷◌, ◌++◌, Some};
ghost use Rattle.adf_base.specs.declared.hash.Letters.TheVariants.{Ascii};
ghost use Rattle.adf_tree.specs.declared.entry.Body.TheVariants.{File};
ghost use Rattle.adf_tree.specs.{declared.entry.Entry.Entry, Tree.Tree, Tree.entry, Tree.find};
ghost use Rattle.adf_volume.specs.{Fits.FitsBy, Image.name_of, Image.word_in, Layout.Layout, Walk.Role.Data};
ghost use Rattle.adf_volume.specs.{Walk.Role.Head, Types.letters_for, declared.types.Types.Types};
ghost use Rattle.adf_volume.specs.Made.{layout_in, tree_in, tree_in_by};
ghost use Rattle.adf_volume.specs.Walk.{Asks, FileAt, FirstFaultBy, Has, HeadAt, NodeAt, Role, Walk};
ghost use Rattle.adf_findings.specs.Files.{IsSoundFile, file_content, file_in, grave, named_from};
ghost use Rattle.adf_findings.specs.{Lookup.LeadsTo, Lookup.path_to, Remains.data_found, Remains.gaps_of, Remains.left_of};
ghost use Rattle.adf_findings.specs.{SoundMarks.AreMarks, Types.passed};
ghost use Rattle.adf_findings.specs.Verdict.{FitsOrHasFault, FitsOrHasFaultBy, FitsOrHasFaultOf};
ghost use Rattle.adf_findings.specs.Survey.{FindingValue, IsSurvey, OnSurvey};
ghost use Rattle.adf_findings.specs.Sound.{DatasInOrder, FileHolds, HeaderHolds, IsOfItsKind, IsSound};

/// Every image has a survey.
#[tactic(auto, using(crate::proofs::SomeSurvey::some_survey))]
pub fn some_survey()
    ensures { (image : List ℕ)
        → (w : Walk) × (fs : List FindingValue) × IsSurvey image w fs }
{}

/// An image has at most one survey.
#[tactic(auto, using(crate::proofs::OneSurvey::one_survey))]
pub fn one_survey()
    ensures { (image : List ℕ) (w u : Walk) (fs gs : List FindingValue)
        → IsSurvey image w fs
        → IsSurvey image u gs
        → (w ≡ u) × (fs ≡ gs) }
{}

/// The first finding of an image is its first fault by ASCII letters.
pub fn first_finding()
    ensures { (image : List ℕ) (w : Walk) (f : FindingValue) (fs : List FindingValue)
        → IsSurvey image w (f ∷ fs)
        → FirstFaultBy Ascii image f.block f.cause }
{}

/// An image without findings is a volume of type 0 or 1, of any size, with the tree and the layout of the walk; and such a
/// volume has no findings.
pub fn no_finding()
    ensures fits { (image : List ℕ) (w : Walk) → IsSurvey image w []
        → FitsBy Ascii image (tree_in image w) (layout_in w) }
    ensures none { (image : List ℕ) (t : Tree) (l : Layout) (w : Walk) (fs : List FindingValue)
        → FitsBy Ascii image t l
        → IsSurvey image w fs → fs ≡ [] }
{}

/// The same where volumes of these types are accepted. A volume of type 2 or 3 has the finding of its type, and no other.
pub fn findings_of_types()
    ensures first { (types : Types) (image : List ℕ) (w : Walk) (f : FindingValue) (fs : List FindingValue)
        → IsSurvey image w (passed types image ++ f ∷ fs)
        → FirstFaultBy (letters_for types image) image f.block f.cause }
    ensures fits { (types : Types) (image : List ℕ) (w : Walk) → IsSurvey image w (passed types image)
        → FitsBy (letters_for types image) image (tree_in_by (letters_for types image) image w) (layout_in w) }
    ensures none { (types : Types) (image : List ℕ) (t : Tree) (l : Layout) (w : Walk) (fs : List FindingValue)
        → FitsBy (letters_for types image) image t l
        → IsSurvey image w fs → fs ≡ passed types image }
{}

/// Every image is that of a volume, or has a first fault, where volumes of these types are accepted; so also by their letters
/// alone, whatever the size.
pub fn fits_or_fault()
    ensures plain { (image : List ℕ) → FitsOrHasFault image }
    ensures types { (types : Types) (image : List ℕ) → FitsOrHasFaultOf types image }
    ensures letters { (types : Types) (image : List ℕ) → FitsOrHasFaultBy types image }
{}

/// Of each survey it is decided which entries are sound, by all findings and by the grave ones.
pub fn some_marks()
    ensures sound { (image : List ℕ) (w : Walk) (fs : List FindingValue)
        → IsSurvey image w fs
        → (sound : ℕ → Bool) × AreMarks image w fs sound }
    ensures whole { (image : List ℕ) (w : Walk) (fs : List FindingValue)
        → IsSurvey image w fs
        → (whole : ℕ → Bool) × AreMarks image w (grave fs) whole }
{}

/// A block in the walk of a survey has one role.
#[tactic(auto, using(crate::proofs::SoundEntries::one_part))]
pub fn one_part()
    ensures { (image : List ℕ) → OnSurvey image (λ w _.
        (r q : Role) (b : ℕ) → Has w r b → Has w q b → r ≡ q) }
{}

/// The header of a sound entry has its form. Each data block of a sound file, by its size, is in the walk, at the
/// block in the file's table. All blocks of the file have their forms, and its data blocks are in the walk in order. Each
/// header that a chain of a sound directory names is in the walk, at its place in the chain.
pub fn sound_entries()
    ensures header { (image : List ℕ) (w : Walk) (fs : List FindingValue) (n h : ℕ)
        → IsSurvey image w fs
        → IsSound image w fs n h → HeaderHolds image w n h }
    ensures file { (image : List ℕ) (w : Walk) (fs : List FindingValue) (n h : ℕ)
        → IsSurvey image w fs
        → IsSound image w fs n h → FileAt image w n h → FileHolds image w n h }
    ensures order { (image : List ℕ) (w : Walk) (fs : List FindingValue) (n h : ℕ)
        → IsSurvey image w fs
        → IsSound image w fs n h → DatasInOrder w n }
    ensures chains { (image : List ℕ) (w : Walk) (fs : List FindingValue) (n h : ℕ)
        → IsSurvey image w fs
        → IsSound image w fs n h → (m s j a i : ℕ) → Asks image w (Head m n s j) a i
        → (k : ℕ) × Has w (Head k n s j) (word_in image a i) }
{}

/// The directory of an entry is in the walk, and has a smaller number.
pub fn directories_first()
    ensures { (image : List ℕ) (w : Walk) (fs : List FindingValue) (n h : ℕ)
        → IsSurvey image w fs
        → (g : HeadAt w n h) → (g.parent < n) × ((up : ℕ) × NodeAt w g.parent up) }
{}

/// The path of an entry is the path of its directory, followed by the name in its header.
#[tactic(auto, using(crate::proofs::Directories::path_of_directory))]
pub fn paths_of_directories()
    ensures { (image : List ℕ) (w : Walk) (fs : List FindingValue) (n h : ℕ)
        → IsSurvey image w fs
        → (g : HeadAt w n h)
        → path_to image w n ≡ path_to image w g.parent ++ name_of image h ∷ [] }
{}

/// If a survey has no finding, and no data block of an FFS volume says that it is an OFS one, all of its entries are sound.
pub fn all_sound()
    ensures { (image : List ℕ) (w : Walk) (n h : ℕ) → IsSurvey image w []
        → IsOfItsKind image w → HeadAt w n h
        → IsSound image w [] n h }
{}

/// On a volume, a path leads to the same entry in the survey as in the tree. Where no data block of an FFS volume says that it is
/// an OFS one, each file of the tree is a sound one with the same bytes; and there are no others.
pub fn found_as_in_the_tree()
    ensures paths { (image : List ℕ) (t : Tree) (l : Layout) (w : Walk) (fs : List FindingValue)
        → FitsBy Ascii image t l
        → IsSurvey image w fs
        → (path : List (List ℕ)) (n : ℕ) → LeadsTo image w 0 path n ↔ (find t.entries path ≡ Some n) }
    ensures files { (image : List ℕ) (t : Tree) (l : Layout) (w : Walk) (fs : List FindingValue)
        → FitsBy Ascii image t l
        → IsSurvey image w fs → IsOfItsKind image w
        → (n : ℕ) (e : Entry) (bytes : List ℕ) → entry t.entries n ≡ Some e
        → e.body ≡ File bytes
        → IsSoundFile image w fs n × (file_content (file_in image w n) ≡ bytes) }
    ensures entries { (image : List ℕ) (t : Tree) (l : Layout) (w : Walk) (fs : List FindingValue)
        → FitsBy Ascii image t l
        → IsSurvey image w fs
        → (n : ℕ) → IsSoundFile image w fs n
        → (e : Entry) × (entry t.entries n ≡ Some e)
        × (e.body ≡ File (file_content (file_in image w n))) }
{}

/// What is left of a sound file before a block that is behind its data blocks is its content, and none of its bytes are made up.
pub fn left_of_sound()
    ensures { (image : List ℕ) (w : Walk) (fs : List FindingValue) (n end : ℕ)
        → IsSurvey image w fs → IsSoundFile image w fs n → ((k b : ℕ) → Has w (Data n k) b → b < end)
        → (left_of image w fs end n ≡ file_content (file_in image w n)) × (gaps_of image w fs end n ≡ []) }
{}

/// A data block that is found of a file is the one that the table of the file names.
pub fn found_as_named()
    ensures { (image : List ℕ) (w : Walk) (fs : List FindingValue) (n h k b : ℕ)
        → IsSurvey image w fs → FileAt image w n h → data_found w n k ≡ Some b
        → named_from image h k ≡ b }
{}
