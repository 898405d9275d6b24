//! Tests of `tape_writer`: sets written, with items and bytes calculated from the formats.
#![tactic(auto)]

#[cfg(test)]
mod as_in_memory;
#[cfg(test)]
mod blanks;
#[cfg(test)]
mod calls;
#[cfg(test)]
mod capacity;
#[cfg(test)]
mod devices;
#[cfg(test)]
mod folders;
#[cfg(test)]
mod handed_on;
#[cfg(test)]
mod images;
#[cfg(test)]
mod input_faults;
#[cfg(test)]
mod inputs;
#[cfg(test)]
mod memory_images;
#[cfg(test)]
mod refusals;
#[cfg(test)]
mod refusing;
#[cfg(test)]
mod sets;
#[cfg(test)]
mod texts;
#[cfg(test)]
mod volumes;
#[cfg(test)]
mod whole;
