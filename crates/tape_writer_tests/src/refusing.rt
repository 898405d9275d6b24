//! Tapes that refuse a call.

ghost use Rattle.std.specs.Prelude.{◌≡◌, ◌+◌, ◌≤◌, MatchBool};
ghost use Rattle.std.specs.Bool.{OnTrue, OnFalse};
ghost use Rattle.tape_writer.specs.Tapes.{Rose};

use tape_label::Vol1;
use tape_writer::{OutFault, TapeOut};

/// Tapes that forward all calls except one, which they refuse as if a device had failed.
#[derive(Drop)]
pub(crate) struct Refusing<T> {
    inner: T,
    left: usize,
    refused: u64,
}

impl<T: TapeOut> Refusing<T> {
    /// Creates tapes that refuse the call after the next `left` calls.
    pub(crate) fn new(inner: T, left: usize) -> Self
        ensures inner { result.inner ≡ inner }
        ensures left { result.left ≡ left }
        ensures refused { result.refused ≡ 0 }
    {
        Refusing {
            inner,
            left,
            refused: 0,
        }
    }

    /// Returns the tapes to which the calls are forwarded.
    pub(crate) fn inner(&self) -> &T
        ensures { result.now ≡ self.now.inner }
    {
        &self.inner
    }

    /// Returns true if this call must be refused.
    fn is_refused(&mut self) -> bool
        ensures when { MatchBool result (self.old.left ≡ 0) (self.old.left ≡ self.new.left + 1) }
        ensures inner { self.new.inner ≡ self.old.inner }
        ensures yes { OnTrue result (Rose self.old.refused self.new.refused) }
        ensures no { OnFalse result (self.new.refused ≡ self.old.refused) }
        ensures grew { self.old.refused ≤ self.new.refused }
    {
        if self.left == 0 {
            self.left = usize::MAX;
            self.refused = self.refused.saturating_add(1);
            return true;
        }
        self.left -= 1;
        false
    }
}

impl<T: TapeOut> TapeOut for Refusing<T> {
    ghost holds = { λ w tapes. T.holds w.inner tapes };

    ghost failures = { λ w. record {
      device = (T.failures w.inner).device + w.refused;
      memory = (T.failures w.inner).memory;
    } };

    ghost asked = { λ w volume. T.asked w.inner volume };

    fn block(&mut self, bytes: &[u8]) -> Result<(), OutFault> {
        if self.is_refused() {
            return Err(OutFault::Device);
        }
        self.inner.block(bytes)
    }

    fn mark(&mut self) -> Result<(), OutFault> {
        if self.is_refused() {
            return Err(OutFault::Device);
        }
        self.inner.mark()
    }

    fn change_volume(&mut self, volume: &Vol1) -> Result<(), OutFault> {
        if self.is_refused() {
            return Err(OutFault::Device);
        }
        self.inner.change_volume(volume)
    }

    fn close(&mut self) -> Result<(), OutFault> {
        if self.is_refused() {
            return Err(OutFault::Device);
        }
        self.inner.close()
    }
}
