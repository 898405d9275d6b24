//! How a session reads its reels.

ghost use Rattle.std.specs.Prelude.{◌≡◌};
ghost use Rattle.tape_run.specs.SessionState.{widened};

use super::Session;
use tape_core::PartSink;

impl<S: PartSink + Drop> Session<S> {
    /// Takes the reels that follow in the wider reading: files of formats `U` and `V` too, sections
    /// without HDR2, and blocks padded with NULs or spaces.
    pub fn widen(&mut self)
        ensures { self.new ≡ widened self.old }
    {
        self.reel_reader.wide = true;
    }
}
