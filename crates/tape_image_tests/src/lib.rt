//! Tests of `tape_image`, for everything outside the contracts: devices that fail or split their
//! bytes, and images written out by hand.
#![tactic(auto)]

#[cfg(test)]
mod checks;
#[cfg(test)]
mod devices;
#[cfg(test)]
mod failing;
#[cfg(test)]
mod faults;
#[cfg(test)]
mod formats;
#[cfg(test)]
mod images;
#[cfg(test)]
mod items;
#[cfg(test)]
mod limit;
#[cfg(test)]
mod long;
#[cfg(test)]
mod readers;
#[cfg(test)]
mod resync;
#[cfg(test)]
mod takers;
#[cfg(test)]
mod worked;
#[cfg(test)]
mod writers;
#[cfg(test)]
mod writing;
