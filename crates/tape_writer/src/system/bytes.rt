//! Writes bytes, in pieces as the system accepts them.
ghost use Rattle.std.specs.{Prelude.OnOk, Prelude.OnErr, Prelude.IsOkUnless, Io.KnownBytes.Appends};
ghost use Rattle.tape_image.specs.Written.{AppendsFront};

use crate::system::fault::FileFault;
use std::io::Write;
use tape_image::write_bytes;

/// Writes all of `bytes`, or a prefix of them if the writer fails.
///
/// # Errors
///
/// Returns `WriteFailed` if the writer returns an error, or accepts none of the remaining bytes. An
/// interruption is also a failure, whereas std's own function would try again.
pub fn put_all<W: Write>(writer: &mut W, bytes: &[u8]) -> Result<(), FileFault>
    ensures ok { OnOk result (Appends (W.contents writer.old) (W.contents writer.new) bytes.now) }
    ensures err { OnErr result
        (AppendsFront (W.contents writer.old) (W.contents writer.new) bytes.now) }
    ensures fault { IsOkUnless result FileFault.WriteFailed }
{
    match write_bytes(writer, bytes) {
        Ok(()) => Ok(()),
        Err(_) => Err(FileFault::WriteFailed),
    }
}
