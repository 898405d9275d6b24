//! The program that the tests run.
use tape_tool::run_on;
use tape_tool_calls::{FakeSystem, Program};

/// The program `tape`.
#[derive(Clone, Copy)]
pub struct Tape;

impl Program for Tape {
    fn run(&self, system: &FakeSystem<'_>, is_terminal: bool) -> u8 {
        run_on(system, is_terminal)
    }
}
