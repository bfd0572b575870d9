//! Surveys: every part of an image that has a cause, and the parts of the volume that are still found.
#![tactic(auto)]

mod bits;
mod concern;
mod course;
mod file;
mod finding;
mod forms;
mod found;
mod free;
mod given_places;
mod header_name;
mod image;
mod judge;
mod laws;
mod lookup;
mod marks;
mod opening;
mod own_kind;
mod owners;
mod progress;
mod remains;
mod start;
mod survey_result;
mod surveyor;
mod walk_owners;

pub use crate::concern::Concern;
pub use crate::file::SoundFile;
pub use crate::finding::Finding;
pub use crate::header_name::slot_named;
pub use crate::image::{SizedImage, says_data_of};
pub use crate::laws::{
    all_sound, directories_first, findings_of_types, first_finding, fits_or_fault,
    found_as_in_the_tree, found_as_named, left_of_sound, no_finding, one_part, one_survey,
    paths_of_directories, some_marks, some_survey, sound_entries,
};
pub use crate::opening::Opening;
pub use crate::own_kind::{FILES_THAT_TELL, Tally, retype};
pub use crate::remains::{Gap, Remains, count_stated, size_stated};
pub use crate::start::sized as sized_image;
pub use crate::survey_result::{Survey, has_mark};
pub use crate::surveyor::survey;
pub use adf_volume::{Part, Types};
