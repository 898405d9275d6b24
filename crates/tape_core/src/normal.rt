//! The normal form of a tape: turns the items of a real tape, one by one, into those that the
//! standard would have there: labels in ASCII, a volume label before the first file, numbers in
//! second labels, nothing before the first label and nothing after the end. Data are never changed.

mod code;
mod counting;
mod held;
mod image;
pub mod laws;
mod looking;
mod machine;
mod mend;
mod numbers;
mod other;
mod rules;

pub use code::{Code, to_ascii};
pub use image::NormalImage;
pub use machine::{Change, Missing, Replacement, TapePlace, step};
pub use numbers::FileSeen;
pub use rules::Rules;
