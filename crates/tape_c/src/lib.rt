//! The read-only calls for C: the items of an image and their labels, a listing, and a survey of
//! several images. Images are in memory, results go to buffers of the caller, and nothing is kept
//! between calls. `include/tape.h` declares the calls.
#![tactic(auto)]

mod end;
mod items;
mod label;
mod list;
mod survey;

pub use end::End;
pub use items::{Entry, tape_items};
pub use label::{LabelFields, tape_label};
pub use list::tape_list;
pub use survey::{Image, tape_survey};

#[cfg(test)]
mod tests;
