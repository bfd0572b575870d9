//! The judge of a damaged volume: which entries exist, by which name, and what is amiss. It promises nothing: it is measured.
#![tactic(auto)]

mod amiss;
mod caches;
mod chains;
mod claims;
mod deleted;
mod dumping;
mod entries;
mod files;
mod fronts;
mod judgement;
mod judging;
mod keys;
mod kind;
mod making;
mod names;
mod objects;
mod origins;
mod orphans;
mod own_blocks;
mod owners;
mod reached_blocks;
mod texts;
mod volumes;
mod waiting;
mod walk;
mod whole_files;

pub use crate::dumping::{dump, refusal_text};
pub use crate::judgement::{Amiss, Claim, DeletedHeader, Object, Origin, Reading, Refusal, Sign};
pub use crate::judging::{DataBlock, Judgement, Question, judge};
