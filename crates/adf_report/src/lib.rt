//! The text of surveys and rescues: lines, JSON objects and paths of what a judge says exists, of findings, and of losses.
#![tactic(auto)]

mod byte_ranges;
mod cache_lines;
mod deleted_lines;
mod deleted_paths;
mod entry_lines;
mod entry_objects;
mod finding_lines;
mod finding_runs;
mod links;
mod lookup;
mod loss_lines;
mod losses;
mod path_text;
mod paths;
mod remarks;
mod reports;
mod salvaging;
mod typed_image;

pub use crate::byte_ranges::ByteRange;
pub use crate::cache_lines::{directories_with_wrong_cache, wrong_cache_text};
pub use crate::finding_lines::run_text;
pub use crate::finding_runs::{Run, runs_of};
pub use crate::loss_lines::push_losses;
pub use crate::losses::{Loss, Reason, RescueResult};
pub use crate::paths::entry_path;
pub use crate::remarks::{Remark, Saying, push_blocks, remarks_text};
pub use crate::reports::{Report, is_whole};
pub use crate::salvaging::{Gap, Salvage, push_gaps};
pub use crate::typed_image::{SurveyedImage, surveyed_blocks, surveyed_image};
