//! Scripts of calls of the program in a fake system, for the tests of its commands.
#![tactic(auto)]

mod calls;
mod fake_system;
mod image;
mod steps;

pub use calls::{follow, follow_in};
pub use fake_system::{FakeSystem, Odd, Program, Seen, called, words_of};
pub use steps::{holds, put};
