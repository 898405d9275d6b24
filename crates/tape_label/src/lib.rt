//! The labels of a tape volume (ECMA-13, 4th edition): blocks of 80 characters with fields at fixed
//! positions.
#![tactic(auto)]

mod label;
pub mod laws;
mod reading;
mod values;
mod wide_head2;
mod writing;

pub use label::{Label, LabelFault, is_volume_label, kind, no_kind, read_label};
pub use reading::{digits_of, digits_value, read_head1, read_head2, read_trail1, read_vol1};
pub use values::{
    Field, Format, Head1, Head2, Kind, Trail1, Vol1, first_other, is_a_character, same_field,
};
pub use wide_head2::{absent_head2, is_further_header, read_wide_head2};
pub use writing::{put, write_head1, write_head2, write_trail1, write_vol1};
