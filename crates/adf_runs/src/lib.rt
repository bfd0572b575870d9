//! Programs and their runs: devices, whole reads and writes, and how a run ends.
#![tactic(auto)]

mod devices;
mod inputs;
mod outcome;
mod parts;
mod programs;
mod streams;
mod system;
mod work_fault;

pub use crate::devices::{Device, Failed, SeekingDevice, Sink, Source};
pub use crate::inputs::read_input;
pub use crate::outcome::Outcome;
pub use crate::parts::{Excerpt, read_excerpt, read_first};
pub use crate::programs::{Program, Ran, run_program, run_program_on};
pub use crate::streams::{
    StreamFault, flush_long, read_all, read_into, say, write_all, write_both,
};
pub use crate::system::{command_words, refuse_words};
pub use crate::work_fault::WorkFault;
