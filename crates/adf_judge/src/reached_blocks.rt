// The blocks of files that are reached or lost, by their tables.

use crate::files::Files;
use crate::walk::Walk;
use adf_base::NoMemory;
use adf_evidence::{Image, Marks, Numbers};
use std::alloc::Global;

impl Files {
    /// The blocks of what is reached: those that parts are in, and the data that files with right checksums claim and that agrees.
    pub(crate) fn firm(
        &self,
        alloc: Global,
        image: &Image<'_>,
        walk: &Walk,
    ) -> Result<Marks, NoMemory> {
        let mut firm = Marks::new(alloc, image.blocks())?;
        for b in 0..image.blocks() {
            firm.set(b, self.is_part.has(b));
        }
        for at in 1..walk.order.len() {
            let h = walk.order.get(at).copied().unwrap_or(0);
            if walk.is_file(image, h) && self.rank(walk, h) == 0 {
                self.mark_agreed(image, walk, &mut firm, h);
            }
        }
        Ok(firm)
    }

    fn mark_agreed(&self, image: &Image<'_>, walk: &Walk, firm: &mut Marks, h: u32) {
        for at in 0..self.told.get(h) {
            let k = at.saturating_add(1);
            if self.is_agreed(image, walk, h, k) {
                firm.set(self.names(image, h, k), true);
            }
        }
    }

    /// For each block that files name which are reached or lost the latest of their headers; 0 if there is none.
    pub(crate) fn latest(
        &self,
        alloc: Global,
        image: &Image<'_>,
        walk: &Walk,
    ) -> Result<Numbers, NoMemory> {
        let mut latest = Numbers::new(alloc, image.blocks())?;
        for at in 1..walk.order.len() {
            let h = walk.order.get(at).copied().unwrap_or(0);
            if walk.is_file(image, h) && self.rank(walk, h) <= 1 {
                self.put_latest(image, &mut latest, h);
            }
        }
        Ok(latest)
    }

    fn put_latest(&self, image: &Image<'_>, latest: &mut Numbers, h: u32) {
        for at in 0..self.told.get(h) {
            let d = self.names(image, h, at.saturating_add(1));
            let other = latest.get(d);
            if image.has(d) && (other == 0 || image.moment(h) > image.moment(other)) {
                latest.set(d, h);
            }
        }
    }
}
