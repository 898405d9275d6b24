//! Uses of the crates, as in a program that depends on them: each file has a function that calls
//! only public items, and a test that runs it. The files are under `cfg(test)`, so that CI proves
//! them once, with their tests.
#![tactic(auto)]

#[cfg(test)]
mod catalogue;
#[cfg(test)]
mod items;
#[cfg(test)]
mod labels;
#[cfg(test)]
mod packing;
#[cfg(test)]
mod readings;
#[cfg(test)]
mod reel;
#[cfg(test)]
mod staged;
