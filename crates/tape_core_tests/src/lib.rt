//! Tests of `tape_core`: the reader's answers to labels and blocks written out by hand,
//! checkpoints, and the sinks.
#![tactic(auto)]

#[cfg(test)]
mod checkpoints;
#[cfg(test)]
mod damaged;
#[cfg(test)]
mod labels;
#[cfg(test)]
mod normal_form;
#[cfg(test)]
mod normal_image;
#[cfg(test)]
mod padding;
#[cfg(test)]
mod parts;
#[cfg(test)]
mod passed_over;
#[cfg(test)]
mod plans;
#[cfg(test)]
mod readers;
#[cfg(test)]
mod readings;
#[cfg(test)]
mod reels;
#[cfg(test)]
mod sections;
#[cfg(test)]
mod sinks;
#[cfg(test)]
mod small_sets;
#[cfg(test)]
mod table;
#[cfg(test)]
mod wide;
