// The definitions tried on small images. Each function does nothing; its contract is the test.

ghost use Rattle.adf_base.specs.declared.hash.Letters.TheVariants.{Ascii, International};
ghost use Rattle.adf_blocks.specs.declared.cause.Cause.{Cause, TheVariants.LostBlock};
ghost use Rattle.adf_volume.specs.{Fits.Fits, Fits.FitsBy, Walk.FirstFault};
ghost use Rattle.adf_volume.specs.Samples.{one_file, one_file_layout, one_file_tree, one_lost, tiny, tiny_layout, tiny_tree};

/// The empty tree fits an empty volume of 4 blocks.
#[tactic(auto, using(crate::proofs::SampleEmpty::tiny_fits))]
pub fn tiny_volume_fits()
    ensures { Fits (tiny 1) (tiny_tree Ascii) tiny_layout }
{}

/// The empty tree fits the same volume of type 3 by international letters; by ASCII letters its type is the first fault.
#[tactic(auto, using(crate::proofs::SampleEmpty::international_fits, crate::proofs::SampleEmpty::international_refused))]
pub fn international_volume_fits()
    ensures fits { FitsBy International (tiny 3) (tiny_tree International) tiny_layout }
    ensures refused { FirstFault (tiny 3) 0 Cause.International }
{}

/// The tree of a file of one byte fits an OFS volume of 6 blocks with that file.
#[tactic(auto, using(crate::proofs::SampleFile::one_file_fits))]
pub fn file_volume_fits()
    ensures { Fits one_file one_file_tree one_file_layout }
{}

/// Of an empty volume of 6 blocks whose page tells its last block as in use, that is the first fault.
pub fn lost_block_is_first_fault()
    ensures { FirstFault one_lost 5 LostBlock }
{}
