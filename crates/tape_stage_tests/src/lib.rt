//! Tests of `tape_stage`: checkpoints, disks and stages, with bytes written out from the
//! description of the formats.
#![tactic(auto)]

#[cfg(test)]
mod disks;
#[cfg(test)]
mod files;
#[cfg(test)]
mod fixtures;
#[cfg(test)]
mod forgets;
#[cfg(test)]
mod held;
#[cfg(test)]
mod points;
#[cfg(test)]
mod salvage;
#[cfg(test)]
mod sinks;
#[cfg(test)]
mod stages;
#[cfg(test)]
mod stops;
