//! Verdicts on images of volumes of types 0 to 5.
#![tactic(auto)]

mod cached;
mod verdicts;

pub use crate::verdicts::{Verdict, verdict_of, verdict_of_input};
