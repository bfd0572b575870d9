// The blocks that the root of a volume of unknown length may be in.

use crate::image::{DATE, Image};
use crate::moment::Moment;
use adf_base::NoMemory;
use adf_blocks::{BITMAP_FLAG, FIRST_PAGE, FIRST_SLOT, PARENT, SLOTS, VALID};
use std::alloc::Global;

// The first words of the dates of the last change and of the creation of a volume.
const ALTERED: usize = 118;

const CREATED: usize = 121;

/// The block in the middle of a volume of some length.
#[derive(Clone, Copy, Debug, PartialEq, Eq)]
pub struct Middle {
    pub block: u32,
    /// No sound header of an entry is there.
    pub is_open: bool,
    /// It is like a root, and no copy of another one.
    pub has_root: bool,
    /// How many sound headers name it as their directory.
    pub naming: u32,
    /// The earliest date of these headers.
    pub earliest: Moment,
    /// The latest civil date of these headers.
    pub latest: Moment,
}

/// The middles of a volume of the stated length, which is the first one, and of other lengths.
#[derive(Drop)]
pub struct Middles {
    all: Vec<Middle>,
}

// How many sound headers the table of a block leads to, and whether one of these names the block as its directory.
#[derive(Clone, Copy)]
struct Leads {
    headers: u32,
    is_named: bool,
    is_empty: bool,
}

// What the table of a block leads to.
fn leads_of(image: &Image<'_>, b: u32) -> Leads {
    let mut leads = Leads {
        headers: 0,
        is_named: false,
        is_empty: true,
    };
    for slot in 0..SLOTS as usize {
        let header = image.word(b, FIRST_SLOT + slot);
        leads.is_empty = leads.is_empty && header == 0;
        if image.has(header) && image.is_header(header) {
            leads.headers = leads.headers.saturating_add(1);
            leads.is_named = leads.is_named || image.word(header, PARENT) == b;
        }
    }
    leads
}

// Whether a block is like a root and no copy of another one: where its table leads to headers, one names it; where it leads to none, the
// page that it names is one.
fn is_own_root(image: &Image<'_>, b: u32) -> bool {
    if !image.is_like_root(b) {
        return false;
    }
    let leads = leads_of(image, b);
    if leads.headers > 0 {
        leads.is_named
    } else {
        !image.is_sealed(b) || leads.is_empty || image.is_page(image.word(b, FIRST_PAGE))
    }
}

// The latest civil date that a root says.
fn date_of_root(image: &Image<'_>, b: u32) -> Moment {
    let changed = Moment::of_civil(image.stamp(b, DATE));
    let altered = Moment::of_civil(image.stamp(b, ALTERED));
    let created = Moment::of_civil(image.stamp(b, CREATED));
    changed.latest(altered).latest(created)
}

impl Middle {
    // The middle in a block that no header names.
    fn new(image: &Image<'_>, b: u32) -> Middle {
        let is_open = !image.is_header(b);
        Middle {
            block: b,
            is_open,
            has_root: is_open && is_own_root(image, b),
            naming: 0,
            earliest: Moment::NONE,
            latest: Moment::NONE,
        }
    }

    // Counts a header that names the middle as its directory.
    fn count(&mut self, image: &Image<'_>, header: u32) {
        let moment = image.moment(header);
        if self.naming == 0 || moment < self.earliest {
            self.earliest = moment;
        }
        let civil = Moment::of_civil(image.stamp(header, DATE));
        self.latest = self.latest.latest(civil);
        self.naming = self.naming.saturating_add(1);
    }

    // The latest date that its root says; where that is not sound, also of those that the headers say that name it.
    fn date(&self, image: &Image<'_>) -> Moment {
        let said = if self.has_root {
            date_of_root(image, self.block)
        } else {
            Moment::NONE
        };
        if image.is_root(self.block) {
            said
        } else {
            said.latest(self.latest)
        }
    }
}

impl Middles {
    /// The middles of a volume of the stated length, and of the other lengths whose middle the input holds.
    pub fn new(
        alloc: Global,
        image: &Image<'_>,
        stated: u32,
        lengths: &[u32],
    ) -> Result<Middles, NoMemory> {
        let mut all = Vec::new(alloc);
        all.push(Middle::new(image, stated / 2))?;
        for blocks in lengths {
            if *blocks != stated && *blocks / 2 < image.held() {
                all.push(Middle::new(image, *blocks / 2))?;
            }
        }
        let mut middles = Middles { all };
        middles.count_headers(image);
        middles.open_one(image);
        Ok(middles)
    }

    // Counts the headers that name a middle.
    fn count_headers(&mut self, image: &Image<'_>) {
        for b in 2..image.held() {
            if image.is_header(b) {
                self.count_header(image, b);
            }
        }
    }

    // Counts a header, if it names a middle.
    fn count_header(&mut self, image: &Image<'_>, header: u32) {
        let directory = image.word(header, PARENT);
        for middle in self.all.iter_mut() {
            if middle.block == directory {
                middle.count(image, header);
                return;
            }
        }
    }

    // Takes the first middle for one without a header, if each has one.
    fn open_one(&mut self, image: &Image<'_>) {
        if self.all.iter().any(|middle| middle.is_open) {
            return;
        }
        if let Some(first) = self.all.first_mut() {
            first.is_open = true;
            first.has_root = is_own_root(image, first.block);
        }
    }

    /// Whether a middle has a root.
    pub fn has_root(&self) -> bool {
        self.all.iter().any(|middle| middle.has_root)
    }

    /// Whether a header names a middle.
    pub fn is_named(&self) -> bool {
        self.all.iter().any(|middle| middle.naming > 0)
    }

    /// The middle of the stated length.
    pub fn stated(&self) -> Option<Middle> {
        self.all.first().copied()
    }

    /// The middle with the latest root, or, if none has a root, the one that most headers name; of equals the first one. But a middle
    /// without a root comes first if each header that names it is later than that root, which is sound, with a valid bitmap.
    pub fn best(&self, image: &Image<'_>) -> Option<Middle> {
        match self.heaviest(image) {
            Some(best) if is_flushed(image, best.block) => Some(self.later(image, best)),
            best => best,
        }
    }

    // The middle with the latest root, or, if none has a root, the one that most headers name; of equals the first one.
    fn heaviest(&self, image: &Image<'_>) -> Option<Middle> {
        let has_root = self.has_root();
        let mut heaviest = None;
        for middle in &self.all {
            if middle.is_open && (middle.has_root || !has_root) {
                heaviest = Some(heavier(image, has_root, heaviest, *middle));
            }
        }
        heaviest
    }

    // The middle without a root that most headers name, each later than this sound root; of equals the first one. This one if there is none.
    fn later(&self, image: &Image<'_>, root: Middle) -> Middle {
        let since = date_of_root(image, root.block);
        let mut best = root;
        for middle in &self.all {
            let is_lost = middle.is_open && !middle.has_root && middle.naming > 0;
            let is_first = best.block == root.block || middle.naming > best.naming;
            if is_lost && middle.earliest > since && is_first {
                best = *middle;
            }
        }
        best
    }

    /// The other middles with a sound root that is not older, in order.
    pub fn rivals(
        &self,
        alloc: Global,
        image: &Image<'_>,
        best: Middle,
    ) -> Result<Vec<u32>, NoMemory> {
        let since = best.date(image);
        let mut rivals = Vec::new(alloc);
        for middle in &self.all {
            let is_other = middle.has_root && middle.block != best.block;
            let is_sound = image.is_root(middle.block);
            if is_other && is_sound && date_of_root(image, middle.block) >= since {
                rivals.push(middle.block)?;
            }
        }
        rivals.sort()?;
        Ok(rivals)
    }
}

// Whether a block is a sound root with a valid bitmap: then no header of its volume is later.
fn is_flushed(image: &Image<'_>, b: u32) -> bool {
    image.is_root(b) && image.word(b, BITMAP_FLAG) == VALID
}

// Of two middles that with the later root, or the one that more headers name; of equals the first one.
fn heavier(image: &Image<'_>, by_root: bool, first: Option<Middle>, second: Middle) -> Middle {
    match first {
        None => second,
        Some(first) => {
            let is_heavier = if by_root {
                second.date(image) > first.date(image)
            } else {
                second.naming > first.naming
            };
            if is_heavier { second } else { first }
        }
    }
}
