//! Explanations of faults, printed after the line of the fault if `--explain` is specified.
mod container;
mod differing;
mod files;
mod missing;

use crate::convert::ShownPart;
use crate::fault::{
    FaultLine, FileFault, OUT_OF_MEMORY, ToolFault, number_of_file, number_of_write,
};
use crate::names::ImageName;
use crate::screen::Progress;
use crate::shown::Shown;
use crate::write::failed::OddRecord;
use crate::write::run::split;
use container::{kind_of, unread};
use files::{
    FILE_OF_FOLDER, FILE_OF_IMAGE, FILE_OF_IMAGES, FILE_OF_INPUT, FILE_OF_LINES, FILE_OF_LIST,
    FILE_OF_LOG, FILE_OF_MANIFEST, FILE_OF_NEW, FILE_OF_OUT, FILE_OF_PROVENANCE, FILE_OF_STAGE,
    FILE_OF_VOLUME,
};
pub use missing::explain_missing;
use std::rt::Runtime;
use std::{fmt, fs, io};
use tape_image::ImageCause;
use tape_run::{Container, RunFault, container_text};
use tape_stage::StageFault;
use tape_writer::Prefix;
use tape_writer::system::folder_of;

/// The file or stream that the program was working on when a fault occurred, as far as it is known.
#[derive(Clone, Copy)]
pub enum FaultSite<'a> {
    /// The site is unknown.
    Unknown,
    /// The report on standard output.
    Lines,
    /// The image on standard input.
    Stdin,
    /// The image at a path.
    Image(&'a str),
    /// The image at a path that `convert` reads.
    Converted(&'a str),
    /// The image of a volume, by its directory and number.
    Volume(&'a str, Prefix, u16),
    /// The input of `write` that this argument names.
    Input(&'a str),
    /// A record of the input of `write` that this argument names.
    Record(&'a str, OddRecord),
    /// The image of a volume that `write` was writing, by its directory and number.
    Written(&'a str, Prefix, u16),
    /// The images that `write` creates in a directory.
    Images(&'a str),
    /// The list of images in a file, or on standard input.
    List(Option<&'a str>),
    /// The image with this number in a list.
    Listed(usize),
    /// Two images that are in conflict.
    Conflict(ImageName<'a>, ImageName<'a>),
    /// The output file for the records.
    Out(&'a str),
    /// The output file for a new image.
    New(&'a str),
    /// One of several new images, by the name of the first one and its number.
    Part(&'a str, usize),
    /// The log of a merge.
    Log(&'a str),
    /// The stage, where recovered data is saved.
    Stage(&'a str),
    /// The directory that files are unpacked into.
    Folder(&'a str),
    /// The list of checksums in a directory.
    Manifest(&'a str),
    /// The record of how an output was recovered.
    Provenance(&'a str),
}

impl fmt::Display for FaultSite<'_> {
    fn fmt<W: fmt::Write>(&self, f: &mut fmt::Formatter<W>) -> fmt::Result {
        match self {
            FaultSite::Record(word, odd) => write!(f, "  Input: {}, {odd}", Shown(*word)),
            FaultSite::Volume(folder, prefix, number)
            | FaultSite::Written(folder, prefix, number) => {
                let [a, b, c] = prefix.characters.map(char::from);
                let folder = Shown(*folder);
                write!(f, "  Image: {folder}/{a}{b}{c}{number:03}.tap")
            }
            FaultSite::Listed(number) => write!(f, "  Image: {}", ImageName::Listed(*number)),
            FaultSite::Conflict(one, other) => write!(f, "  Image: {one}\n  Image: {other}"),
            FaultSite::Part(out, number) => write!(f, "  OUT: {}", ShownPart(*out, *number)),
            _ => {
                let (kind, name, _) = self.described();
                write!(f, "  {kind}: {}", Shown(name))
            }
        }
    }
}

impl<'a> FaultSite<'a> {
    /// Returns the kind of the site, the name of the file, and the explanations of file faults.
    fn described(&self) -> (&'static str, &'a str, &'static str) {
        match *self {
            FaultSite::Unknown => ("", "", FILE_OF_IMAGES),
            FaultSite::Lines => ("Output", "standard output", FILE_OF_LINES),
            FaultSite::Stdin => ("Image", "standard input", FILE_OF_IMAGE),
            FaultSite::Image(path) | FaultSite::Converted(path) => ("Image", path, FILE_OF_IMAGE),
            FaultSite::Listed(_) => ("Image", "", FILE_OF_IMAGE),
            FaultSite::Conflict(_, _) => ("Image", "", FILE_OF_IMAGES),
            FaultSite::Volume(_, _, _) => ("Image", "", FILE_OF_VOLUME),
            FaultSite::Input(word) | FaultSite::Record(word, _) => ("Input", word, FILE_OF_INPUT),
            FaultSite::Written(_, _, _) => ("Image", "", FILE_OF_IMAGES),
            FaultSite::Images(path) => ("DIR", path, FILE_OF_IMAGES),
            FaultSite::List(path) => ("List", path.unwrap_or("standard input"), FILE_OF_LIST),
            FaultSite::Out(path) => ("OUT", path, FILE_OF_OUT),
            FaultSite::New(path) | FaultSite::Part(path, _) => ("OUT", path, FILE_OF_NEW),
            FaultSite::Log(path) => ("LOG", path, FILE_OF_LOG),
            FaultSite::Stage(path) => ("Stage", path, FILE_OF_STAGE),
            FaultSite::Folder(path) => ("DIR", path, FILE_OF_FOLDER),
            FaultSite::Manifest(path) => ("DIR", path, FILE_OF_MANIFEST),
            FaultSite::Provenance(path) => ("JSONL", path, FILE_OF_PROVENANCE),
        }
    }
}

/// An explanation: a fault, its site and the system's reason, as lines of text.
#[derive(Clone, Copy)]
pub struct Explanation<'a> {
    /// The fault.
    pub fault: ToolFault,
    /// Where it occurred.
    pub site: FaultSite<'a>,
    /// The system's message about the file, if there is one.
    pub reason: Option<io::Error>,
    /// The kind of the image that cannot be read further, if it is known.
    pub kind: Option<Container>,
}

impl fmt::Display for Explanation<'_> {
    fn fmt<W: fmt::Write>(&self, f: &mut fmt::Formatter<W>) -> fmt::Result {
        let is_image = matches!(self.fault, ToolFault::Image(_));
        let text = match self.reason {
            Some(reason) if is_image && reason.kind() == io::ErrorKind::IsADirectory => A_FOLDER,
            _ => text_of(self.fault, self.site),
        };
        let is_stage = matches!(
            self.fault,
            ToolFault::Stage(_) | ToolFault::StageInUse | ToolFault::Run(RunFault::OtherFile)
        );
        let site = match self.site {
            // In `unpack`, a fault of a stage is one of the stage of the file.
            FaultSite::Folder(_) if is_stage => FaultSite::Stage(STAGE_OF_FAILED),
            site => site,
        };
        let is_known = match self.fault {
            ToolFault::Run(_) => matches!(site, FaultSite::Stage(_)),
            _ => !matches!(site, FaultSite::Unknown),
        };
        if text != NO_MEMORY && is_known {
            write!(f, "{site}")?;
            if let Some(reason) = self.reason {
                write!(f, ": {reason}")?;
            }
            f.write_str("\n")?;
        }
        write!(f, "  {text}\n")?;
        match self.kind {
            Some(Container::Unknown | Container::Simh) | None => {
                if text == NO_IMAGE {
                    write!(f, "  {UNKNOWN_KIND}\n")?;
                }
            }
            Some(kind) => {
                let is = container_text(kind);
                write!(f, "  It is {is}.\n")?;
            }
        }
        Ok(())
    }
}

/// Reports a fault and, if it has a site, explains it. If standard error is closed, it cannot be
/// reported.
pub fn report_fault<R: Progress>(rt: &R, fault: ToolFault, site: Option<FaultSite<'_>>) {
    let _ = rt.eprint(FaultLine(fault));
    if let Some(site) = site {
        let reason = reason_of(rt.host(), fault, site);
        let kind = match (fault, site) {
            (ToolFault::Image(_), FaultSite::Image(path)) => kind_of(rt.host(), rt.alloc(), path),
            _ => None,
        };
        let _ = rt.eprint(Explanation {
            fault,
            site,
            reason,
            kind,
        });
    }
}

/// Accesses the file with the fault again, and returns the system's error. Returns `None` if there
/// is no error now, or if there is no file that can be accessed again.
fn reason_of<R: Runtime>(rt: &R, fault: ToolFault, site: FaultSite<'_>) -> Option<io::Error> {
    match fault {
        ToolFault::File(FileFault::NotOpened | FileFault::ReadFailed) => {}
        ToolFault::Image(fault) if fault.cause == ImageCause::Device => {}
        _ => return None,
    }
    match site {
        FaultSite::Image(path)
        | FaultSite::Converted(path)
        | FaultSite::List(Some(path))
        | FaultSite::Stage(path) => unread(rt, path),
        FaultSite::Input(word) => unread(rt, split(word).1),
        FaultSite::Out(path)
        | FaultSite::New(path)
        | FaultSite::Part(path, _)
        | FaultSite::Log(path)
        | FaultSite::Provenance(path) => fs::metadata(rt, folder_of(path)).err(),
        FaultSite::Folder(path)
        | FaultSite::Manifest(path)
        | FaultSite::Images(path)
        | FaultSite::Volume(path, _, _)
        | FaultSite::Written(path, _, _) => fs::metadata(rt, path).err(),
        _ => None,
    }
}

/// Returns the explanation of `fault`: what happened, what was saved, and what to do next.
fn text_of(fault: ToolFault, site: FaultSite<'_>) -> &'static str {
    match fault {
        ToolFault::Image(_) if matches!(site, FaultSite::New(_) | FaultSite::Lines) =>
            MERGED_TOO_LONG,
        ToolFault::Image(fault) => match fault.cause {
            ImageCause::OutOfMemory => NO_MEMORY,
            ImageCause::Truncated | ImageCause::LengthsDiffer | ImageCause::Reserved(_)
                if fault.place == 0 => NO_IMAGE,
            cause => nth(IMAGE, cause.number()),
        },
        OUT_OF_MEMORY | ToolFault::Stage(StageFault::OutOfMemory) => NO_MEMORY,
        ToolFault::Label(fault) => nth(LABEL, fault.number()),
        ToolFault::Write(fault) => nth(WRITE, number_of_write(fault)),
        ToolFault::File(fault) => nth(site.described().2, number_of_file(fault)),
        ToolFault::Run(fault) => nth(RUN, fault.number()),
        ToolFault::Stage(fault) => nth(STAGE, fault.number()),
        ToolFault::StageInUse => nth(STAGE, 7),
        ToolFault::Conflict => CONFLICT,
    }
}

/// Returns the explanation of fault number `number` among `texts`, each of which follows a `#` and
/// the fault's number.
fn nth(texts: &'static str, number: u8) -> &'static str {
    for text in texts.split("\n#") {
        if let Some((digits, text)) = text.split_once("  ")
            && digits.parse::<u8>().is_ok_and(|digits| digits == number)
        {
            return text;
        }
    }
    NEVER
}

/// The stage of the file for which `unpack` failed, described by the line about that file.
const STAGE_OF_FAILED: &str = "the path reported as FAILED, with .stage after it";

// The texts for each kind of fault: see `nth`.

/// The explanation of faults that the program never reports.
const NEVER: &str = "This should never happen: it is a bug in tape.
  CONTRIBUTING.md says what to include in a report.";

const NO_MEMORY: &str = "Out of memory. What was written before it remains.
  Close other programs and try again.";

const CONFLICT: &str = "These images have labels of different files with this SET and FILE, or
  copies of a section that differ. Nothing was recovered. Use only the images
  of one file: 'tape survey' and 'tape compare' show how they differ.";

const NO_IMAGE: &str = "This does not look like a .tap image. Nothing was listed.";

/// What follows `NO_IMAGE` if the kind of the file is unknown.
const UNKNOWN_KIND: &str = "Is it compressed, cut off, or of a different kind? 'file NAME' may tell.
  tape reads no compressed images, but 'gunzip -c NAME | tape ..' works.";

const A_FOLDER: &str = "This is a directory, not an image. Nothing was listed.
  Name an image in it.";

const MERGED_TOO_LONG: &str =
    "The merged image would have more than 4,294,967,295 bytes. Nothing was
  created. Leave out an image whose good blocks replace short bad ones.";

const IMAGE: &str = "
#1  The image ends in the middle of a block: it was cut off, or the length there
  is wrong. All items before that block were listed. Copy it again from its
  source, or use 'extract' with this and other copies.
#2  The lengths before and after a block differ: damage, no pad bytes (E11), a
  copy made as text, or an older recording after the end. All items before that
  were listed. Copy it again, use other copies, or see 'tape convert --resync'.
#3  The bytes there are not a record length: damage, a record or marker of SIMH's
  extended format, or an older recording after the end. All items before that
  were listed. 'tape convert' reads that format. If the image is damaged, copy it
  again, use other copies, or see 'tape convert --resync'.
#4  The image is longer than 4,294,967,295 bytes; tape reads no further.
  All items before that were listed.
#5  The image could not be read there: is it a directory, or is the disk failing?
  All items before that, if any, were listed.
  If the disk is failing, copy the image to another disk and use the copy.";

const LABEL: &str = "
#6  The ID contains a character that labels do not allow. Nothing was written.
  Allowed: A to Z, 0 to 9, space and ! \" % & ' ( ) * + , - . / : ; < = > ? _
#7  The ID is longer than 17 characters. Nothing was written.
  Shorten the part before the '='.";

const WRITE: &str = "
#2  These block and record lengths are not possible. Nothing was written.
  'tape write --help' gives the ranges of --block, --record and --offset.
#3  CAPACITY is less than the block length plus 1,024 bytes. Nothing was written.
  With the default --block of 2048 it must be at least 3072.
#4  A record is too long or, with --format F, not as long as --record says.
  Increase --block and --record, or use --format S, which has no limit.
  Created images were removed; remove blank ones that were begun.
#7  The set does not fit on 256 volumes. Increase CAPACITY or write fewer files.
  Created images were removed; remove blank ones that were begun.
#8  A set can have at most 9,999 files: split it into several sets.
  Created images were removed; remove blank ones that were begun.
#10  Out of memory.
  Created images were removed; remove blank ones that were begun.";

const RUN: &str = "
#1  The recovered data could not be saved: out of memory, or the disk is full or
  failing. Data saved in the stage earlier is safe. Free some space and run it
  again; if the disk is failing, continue with a copy of the stage.
#5  This stage belongs to another file or set; its data were not changed.
  Give the SET and FILE it belongs to, or name another stage.";

const STAGE: &str = "
#1  This is not a stage, and it was not changed. Is the name right? A file of at
  most 256 bytes may be left from an interrupted first run, without recovered
  data: look at it before you delete it.
#2  The stage was damaged by another program; it was not changed.
  Use an older copy or start a new stage. 'tape stage --damaged' recovers the
  records before the damage.
#3  The stage could not be read or written: the disk is full or failing.
  Data saved earlier is safe. Free some space and run it again; if the disk is
  failing, continue with a copy of the stage.
#7  Another run is using this stage. It was neither read nor changed.
  Wait until that run has finished.";
