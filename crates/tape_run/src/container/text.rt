//! The kind of a file in words.
ghost use Rattle.std.specs.Prelude.{◌≡◌};
ghost use Rattle.tape_run.specs.ContainerText.{container_text, packed_text, image_text};

use crate::container::Container;

/// Returns what a file of the kind is, and the program that makes a SIMH image of it, if `tape`
/// does not read it.
pub fn container_text(kind: Container) -> &'static str
    ensures { result.now ≡ container_text kind }
{
    match kind {
        Container::Unknown => "not a SIMH image, or damaged in its first block",
        Container::Iso => "an image of a disc (ISO 9660), not of a tape",
        Container::Commodore => "a cassette of a Commodore computer, which tape does not read",
        Container::Spectrum => "a cassette of a ZX Spectrum, which tape does not read",
        Container::Gzip
        | Container::Compress
        | Container::Bzip2
        | Container::Xz
        | Container::Zstd
        | Container::Zip
        | Container::SevenZip
        | Container::Tar => packed_text(kind),
        _ => image_text(kind),
    }
}

/// Returns the text of a compressed file or an archive.
fn packed_text(kind: Container) -> &'static str
    ensures { result.now ≡ packed_text kind }
{
    match kind {
        Container::Gzip => "compressed with gzip: 'gunzip -k' decompresses it",
        Container::Compress => "compressed with compress: 'gunzip -k' decompresses it",
        Container::Bzip2 => "compressed with bzip2: 'bunzip2 -k' decompresses it",
        Container::Xz => "compressed with xz: 'unxz -k' decompresses it",
        Container::Zstd => "compressed with zstd: 'unzstd' decompresses it",
        Container::Zip => "a zip archive: 'unzip' unpacks it",
        Container::SevenZip => "a 7z archive: '7z x' unpacks it",
        _ => "a tar archive: 'tar -xf' unpacks it",
    }
}

/// Returns the text of an image of a tape.
fn image_text(kind: Container) -> &'static str
    ensures { result.now ≡ image_text kind }
{
    match kind {
        Container::Simh => "a SIMH image",
        Container::Extended =>
            "a SIMH image of the extended format: 'tape convert' makes a plain one of it",
        Container::E11 => "an E11 image: 'tape convert' makes a SIMH image of it",
        Container::TextCopy => "a SIMH image with CR LF for LF: copy it again, not as text",
        Container::Aws => "an AWS image: 'tape convert' makes a SIMH image of it",
        Container::Het =>
            "a HET image: 'hetupd -d' makes an AWS image, 'tape convert' a SIMH image",
        Container::FakeTape => "a FakeTape image, which tape does not read",
        Container::Tpc => "a TPC image: 'tpc2mt' of the SIMH tools makes a SIMH image of it",
        Container::TwoByteWords => "an image with lengths of two bytes, which tape does not read",
        Container::P7b => "a P7B image of a tape with 7 tracks, which tape does not read",
        Container::BigEndian =>
            "an image with its lengths in big-endian order, which tape does not read",
        _ => "the blocks of a tape without their lengths, which cannot be found again",
    }
}
