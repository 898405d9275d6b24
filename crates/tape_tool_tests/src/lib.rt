//! Tests of the commands: command lines, files, and output.
#![tactic(auto)]

#[cfg(test)]
mod contrary;
#[cfg(test)]
mod differing;
#[cfg(test)]
mod explain;
#[cfg(test)]
mod extract_program;
#[cfg(test)]
mod guards;
#[cfg(test)]
mod json_program;
#[cfg(test)]
mod orders;
#[cfg(test)]
mod seen;
#[cfg(test)]
mod show_program;
#[cfg(test)]
mod staging;
#[cfg(test)]
mod tape;
