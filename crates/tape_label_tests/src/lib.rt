//! Tests of the labels, with bytes written out from the standard's description of the format.
#![tactic(auto)]

#[cfg(test)]
mod faults;
#[cfg(test)]
mod fields;
#[cfg(test)]
mod kinds;
#[cfg(test)]
mod producers;
#[cfg(test)]
mod reading;
#[cfg(test)]
mod samples;
#[cfg(test)]
mod wide;
#[cfg(test)]
mod writing;
