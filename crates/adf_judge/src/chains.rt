// Following hash chains: what is a member of a chain, and where one is broken.

use crate::judgement::Origin;
use crate::objects::object_of;
use crate::walk::Walk;
use adf_base::NoMemory;
use adf_blocks::{
    FIRST_SLOT, NEXT_IN_CHAIN, OWN_KEY, PARENT, SECONDARY_TYPE, SLOTS, T_SHORT, TYPE,
};
use adf_evidence::Image;

/// A place in a hash chain: the directory and the slot.
#[derive(Clone, Copy)]
pub(crate) struct Chain {
    pub(crate) directory: u32,
    pub(crate) slot: u32,
}

impl Walk {
    /// Takes what the chains lead to of the directories from a place in the order on, and of those that are found so.
    pub(crate) fn follow(
        &mut self,
        image: &Image<'_>,
        first: usize,
        origin: Origin,
    ) -> Result<(), NoMemory> {
        for at in first..image.blocks() as usize {
            let Some(&p) = self.order.get(at) else {
                break;
            };
            if self.is_dir(image, p) {
                self.follow_directory(image, p, origin)?;
            }
        }
        Ok(())
    }

    fn follow_directory(
        &mut self,
        image: &Image<'_>,
        directory: u32,
        origin: Origin,
    ) -> Result<(), NoMemory> {
        for slot in 0..SLOTS {
            self.follow_chain(image, Chain { directory, slot }, origin)?;
        }
        Ok(())
    }

    fn follow_chain(
        &mut self,
        image: &Image<'_>,
        chain: Chain,
        origin: Origin,
    ) -> Result<(), NoMemory> {
        let mut b = image.word(chain.directory, FIRST_SLOT + chain.slot as usize);
        for _ in 0..image.blocks() {
            if b == 0 || !self.is_next(image, chain, b) {
                break;
            }
            self.take(b, chain.directory, origin)?;
            b = image.word(b, NEXT_IN_CHAIN);
        }
        Ok(())
    }

    /// Whether the block that a chain leads to is a member of it; where it is not wholly one, the chain is broken there.
    fn is_next(&mut self, image: &Image<'_>, chain: Chain, b: u32) -> bool {
        let p = chain.directory;
        let is_new = image.has(b) && b != image.root() && !self.origin.has(b);
        if is_new && self.is_at_home(chain, b) {
            return true;
        }
        self.broken.mark(p, chain.slot);
        self.has_gap = true;
        if !is_new {
            return false;
        }
        if self.led.get(b) == 0 {
            self.led.set(b, p);
        }
        self.is_like_member(image, chain, b)
    }

    /// Whether a sound header states this directory and slot.
    pub(crate) fn is_at_home(&self, chain: Chain, b: u32) -> bool {
        self.is_header.has(b)
            && self.home.get(b) == chain.directory
            && self.slot.get(b) == chain.slot
    }

    /// A sound header in another slot of its directory; else four of the five words of a header in this chain are there.
    fn is_like_member(&mut self, image: &Image<'_>, chain: Chain, b: u32) -> bool {
        let is_here = image.word(b, PARENT) == chain.directory;
        if self.is_header.has(b) {
            if is_here {
                self.misplaced.set(b, true);
            }
            return is_here;
        }
        // A whole block of something else is no member.
        !image.is_sealed(b) && self.words_of_member(image, chain, b) >= 4
    }

    /// How many of the five words of a header in this chain a block has.
    fn words_of_member(&self, image: &Image<'_>, chain: Chain, b: u32) -> u32 {
        let said = [
            image.word(b, TYPE) == T_SHORT,
            image.word(b, OWN_KEY) == b,
            object_of(image.word(b, SECONDARY_TYPE)).is_some(),
            image.word(b, PARENT) == chain.directory,
            image.slot_of(b, self.letters()) == chain.slot,
        ];
        let mut count = 0u32;
        for is_there in said {
            count = count.saturating_add(u32::from(is_there));
        }
        count
    }
}
