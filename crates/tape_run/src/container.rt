//! The kind of a file that may be a tape image, by its first bytes.
ghost use Rattle.std.specs.Prelude.{◌≡◌};
ghost use Rattle.tape_run.specs.Container.{container_of, walked, foreign};

mod frames;
mod marks;
mod records;
mod text;

use frames::{begins_text, is_e11, is_extended, whole_len};
use marks::{from, labelled, other_medium, packed};
use records::recorded;
pub use text::container_text;

/// The number of bytes at the start of a file by which its kind is recognised.
pub const KIND_BYTES: usize = 36_864;

/// A kind of file, as far as its first bytes show it.
#[derive(Clone, Copy, Debug, PartialEq, Eq)]
pub enum Container {
    /// None of the others.
    Unknown,
    /// A SIMH image.
    Simh,
    /// A SIMH image with items of the extended format.
    Extended,
    /// A SIMH image without pad bytes.
    E11,
    /// A SIMH image with CR LF for each LF.
    TextCopy,
    /// An AWS image.
    Aws,
    /// A HET image.
    Het,
    /// A FakeTape image.
    FakeTape,
    /// A TPC image.
    Tpc,
    /// An image with a length of two bytes before and after each block.
    TwoByteWords,
    /// A P7B image.
    P7b,
    /// An image with lengths of four bytes, the greatest byte first.
    BigEndian,
    /// The blocks of a tape, without their lengths.
    Raw,
    /// A file compressed with gzip.
    Gzip,
    /// A file compressed with compress.
    Compress,
    /// A file compressed with bzip2.
    Bzip2,
    /// A file compressed with xz.
    Xz,
    /// A file compressed with zstd.
    Zstd,
    /// A zip archive.
    Zip,
    /// A 7z archive.
    SevenZip,
    /// A tar archive.
    Tar,
    /// An ISO 9660 image.
    Iso,
    /// A cassette of a Commodore computer.
    Commodore,
    /// A cassette of a ZX Spectrum.
    Spectrum,
}

/// Returns the kind of the file that begins with `front`. `Simh` says no more than that the first
/// block is whole: what follows may be damaged.
pub fn container_of(front: &[u8]) -> Container
    ensures { result ≡ container_of front.now }
{
    let (block, rest) = walk(front);
    if is_e11(rest) {
        Container::E11
    } else if is_extended(rest) {
        Container::Extended
    } else if begins_text(rest) {
        Container::TextCopy
    } else if block {
        Container::Simh
    } else {
        foreign(front)
    }
}

/// Returns the kind of a file that does not begin with a whole SIMH block.
fn foreign(front: &[u8]) -> Container
    ensures { result ≡ foreign front.now }
{
    if let Some(kind) = other_medium(front) {
        return kind;
    }
    if let Some(kind) = packed(front) {
        return kind;
    }
    if let Some(kind) = recorded(front) {
        return kind;
    }
    labelled(front).unwrap_or(Container::Unknown)
}

/// Passes over the whole items at the start of `front`. Returns whether one of them is a block, and
/// the bytes after them.
#[tactic(auto, using(crate::proofs::ContainerSteps::walked_stop))]
fn walk(front: &[u8]) -> (bool, &[u8])
    ensures block { result.0 ≡ (walked front.now).0 }
    ensures rest { result.1.now ≡ (walked front.now).1 }
{
    let (mut block, mut rest, mut left) = (false, front, front.len());
    'items: while left > 0 {
        let Some(len) = whole_len(rest) else {
            return (block, rest);
        };
        block |= len > 4;
        rest = from(rest, len);
        left -= 1;
    }
    (block, rest)
}
