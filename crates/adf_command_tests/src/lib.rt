//! Tests of devices, and of inputs and standard errors over them: what no row shows.
#![tactic(auto)]

#[cfg(test)]
mod devices;
#[cfg(test)]
mod inputs;
#[cfg(test)]
mod memory;
#[cfg(test)]
mod named_errors;
