//! How a call ends, and texts in buffers of the caller.

ghost use Rattle.std.specs.Prelude.{◌≡◌};
ghost use Rattle.tape_c.specs.Ends.{Gives, nothing_given};

/// The state of a call that gave everything.
pub(crate) const ALL: u32 = 0;

/// The state of a call that was refused memory.
pub(crate) const NO_MEMORY: u32 = 6;

/// The state of a call whose answer has more than the buffer has room for.
pub(crate) const FULL: u32 = 7;

/// The end of a call.
#[repr(C)]
#[derive(Clone, Copy, Drop)]
pub struct End {
    /// The number of entries or bytes that were written, from the start of the buffer.
    pub count: usize,
    /// The room that the whole answer needs: more than the buffer has exactly if it is full.
    /// `tape_items` does not count the items after the first one that has no room.
    pub needed: usize,
    /// The offset at which the items given by `tape_items` end, or that of a fault of the image.
    pub place: u64,
    /// Why the call ended: 0 if everything was given, the number of the image fault, 6 if memory
    /// was refused, 7 if the buffer is full, 8 if everything was given and something is missing.
    pub state: u32,
}

/// Copies as much of `text` to `out` as has room. Returns the end of the call, with the state
/// `FULL` if that was not all of the text.
pub(crate) fn give(text: &[u8], out: &mut [u8], place: u64, state: u32) -> End
    ensures { Gives text.now place state out.old out.new result }
{
    let count = text.len().min(out.len());
    out[..count].copy_from_slice(&text[..count]);
    End {
        count,
        needed: text.len(),
        place,
        state: if count < text.len() { FULL } else { state },
    }
}

/// Returns the end of a call that gave nothing.
pub(crate) fn give_nothing(state: u32) -> End
    ensures { result ≡ nothing_given state }
{
    End {
        count: 0,
        needed: 0,
        place: 0,
        state,
    }
}
