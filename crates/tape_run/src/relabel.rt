//! Labels that get another file set identifier, or other numbers, on request: `--join` and
//! `--renumber`.

pub mod image;
mod numbering;
pub mod plan;
pub mod seen;
mod steps;
