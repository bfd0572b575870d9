// The dates of a volume, and the metadata of an entry.

ghost use Rattle.std.specs.Prelude.{◌≡◌};
ghost use Rattle.adf_base.specs.Dates.{IsStamp};
ghost use Rattle.adf_names.specs.Meta.{AreStamps, IsBoundedMeta, new_meta};

use crate::short_text::Comment;
use adf_base::{NO_STAMP, Stamp};

/// The dates of a volume.
#[derive(Clone, Copy, Debug, PartialEq, Eq)]
pub struct Stamps {
    pub root: Stamp,
    pub altered: Stamp,
    pub created: Stamp,
}

/// The dates of a volume that is given none.
pub const NO_STAMPS: Stamps = Stamps {
    root: NO_STAMP,
    altered: NO_STAMP,
    created: NO_STAMP,
};

impl Stamps {
    /// States that each date is within the bounds of its type; does nothing at run time.
    pub fn bounds(&self)
        ensures { AreStamps self.now }
    {
        date_bounds(&self.root);
        date_bounds(&self.altered);
        date_bounds(&self.created);
    }
}

/// The metadata of an entry: all but its name and its body.
#[derive(Drop)]
pub struct Meta {
    pub comment: Comment,
    pub protect: u32,
    pub stamp: Stamp,
}

impl Meta {
    /// The metadata with this comment, these protection bits and this date.
    pub fn new(comment: Comment, protect: u32, stamp: Stamp) -> Meta
        ensures { result ≡ new_meta comment protect stamp }
    {
        Meta {
            comment,
            protect,
            stamp,
        }
    }

    /// The same comment, protection bits and date.
    pub fn copy(&self) -> Meta
        ensures { result ≡ self.now }
    {
        Meta {
            comment: self.comment.copy(),
            protect: self.protect,
            stamp: self.stamp,
        }
    }

    /// States that each field is within the bounds of its type; does nothing at run time.
    pub fn bounds(&self)
        ensures { IsBoundedMeta self.now }
    {
        let _comment = self.comment.bytes();
        let _protect = self.protect;
        date_bounds(&self.stamp);
    }
}

// The numbers of a date fit in 32 bits.
fn date_bounds(stamp: &Stamp)
    ensures { IsStamp stamp.now }
{
    let _days = stamp.days;
    let _mins = stamp.mins;
    let _ticks = stamp.ticks;
}
