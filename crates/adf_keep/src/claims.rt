// The blocks of the entries that are kept.

ghost use Rattle.std.specs.Prelude.{◌≡◌, ◌<◌, ◌≤◌, ◌∷◌, ◌++◌, ℕ, List, [], IfErr, IfOk, OnErr, OnOk};
ghost use Rattle.adf_keep.specs.{Marks.AreClaimed, Reasons.IsBlockFault};

use crate::proposal::Why;
use adf_base::NoMemory;
use std::alloc::Global;

/// The marks of `blocks` blocks, of which none is claimed.
pub fn no_claims(alloc: Global, blocks: u32) -> Result<Vec<bool>, NoMemory>
    ensures { IfOk result (λ v. AreClaimed blocks v.items []) }
{
    Ok(vec![in alloc; false; blocks as usize]?)
}

/// Claims a block; else says why it cannot be claimed.
pub fn claim(marks: &mut Vec<bool>, b: u32) -> Result<(), Why>
    ensures claimed { (n : ℕ) (bs : List ℕ) → AreClaimed n marks.old.items bs
        → OnOk result (AreClaimed n marks.new.items (bs ++ b ∷ [])) }
    ensures refused { IfErr result (λ why. (n : ℕ) (bs : List ℕ) → AreClaimed n marks.old.items bs → IsBlockFault n bs b why) }
    ensures same { OnErr result (marks.new ≡ marks.old) }
{
    if b < 2 || b as usize >= marks.len() {
        return Err(Why::NoData);
    }
    if marks[b as usize] {
        return Err(Why::Taken);
    }
    marks[b as usize] = true;
    Ok(())
}

/// Gives back the blocks that were claimed last.
pub fn release(marks: &mut Vec<bool>, claimed: Vec<u32>)
    ensures { (n : ℕ) (bs : List ℕ) → AreClaimed n marks.old.items (bs ++ claimed.items)
        → AreClaimed n marks.new.items bs }
{
    let mut claimed = claimed;
    while let Some(b) = claimed.pop() {
        if (b as usize) < marks.len() {
            marks[b as usize] = false;
        }
    }
}
