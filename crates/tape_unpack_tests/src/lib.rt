//! Tests of `unpack` and `salvage`, and of images of other systems and formats.
#![tactic(auto)]

#[cfg(test)]
mod completion;
#[cfg(test)]
mod counted_program;
#[cfg(test)]
mod images;
#[cfg(test)]
mod manifest_program;
#[cfg(test)]
mod normal_form;
#[cfg(test)]
mod record_program;
#[cfg(test)]
mod relabel_program;
#[cfg(test)]
mod staged_program;
#[cfg(test)]
mod tape;
#[cfg(test)]
mod text_program;
#[cfg(test)]
mod unpack_program;
#[cfg(test)]
mod verify_program;
