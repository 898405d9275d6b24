//! Comparisons of checkpoints with the session's position.

ghost use Rattle.std.specs.Bool.{OnTrue, OnFalse};
ghost use Rattle.tape_run.specs.{Reeling.HasNotedHere, Seen.IfSeen};

use super::Session;
use tape_core::PartSink;

impl<S: PartSink> Session<S> {
    /// Returns whether the last checkpoint has the session's position.
    pub fn is_noted(&self) -> bool
        ensures yes { OnTrue result (IfSeen S.PartSink self.now HasNotedHere) }
        ensures no { OnFalse result (IfSeen S.PartSink self.now
            (λ now. HasNotedHere now → ⊥)) }
    {
        let here = self.reel_reader.core.save(self.reel_reader.sink.weight());
        match self.notes.last() {
            Some(last) => *last == here,
            None => false,
        }
    }
}
