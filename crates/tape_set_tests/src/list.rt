//! Copies and parts of lists.

ghost use Rattle.std.specs.Prelude.{◌≡◌, take, drop, IfOk};
ghost use Rattle.std.specs.Option.{option_copied};
ghost use Rattle.tape_set.specs.Layout.{nth};

use std::alloc::{AllocError, Global};
use tape_set::Sequence;

/// Returns a copy of `bytes`.
///
/// # Errors
///
/// Returns `AllocError` if an allocation fails.
pub(crate) fn copied(alloc: Global, bytes: &[u8]) -> Result<Sequence<u8>, AllocError>
    ensures { IfOk result (λ copy. copy ≡ bytes.now) }
{
    Ok(Sequence::of_vec(bytes.to_vec(alloc)?))
}

/// Returns the first `n` elements, or all elements if there are fewer.
pub(crate) fn first<T>(elements: &[T], n: usize) -> &[T]
    ensures { result.now ≡ take n elements.now }
{
    elements.get(..n).unwrap_or(elements)
}

/// Returns the elements after the first `n`.
pub(crate) fn rest<T>(elements: &[T], n: usize) -> &[T]
    ensures { result.now ≡ drop n elements.now }
{
    elements.get(n..).unwrap_or(&[])
}

/// Returns element number `n`, counted from 1, or `None` if there is no such element.
pub(crate) fn nth<T>(elements: &[T], n: usize) -> Option<&T>
    ensures { option_copied result ≡ nth elements.now n }
{
    elements.get(n.checked_sub(1)?)
}
