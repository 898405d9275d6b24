//! The draft of an output: a new file, which gets the output's name when it is complete.

ghost use Rattle.std.specs.Prelude.{◌≡◌, None};
ghost use Rattle.tape_tool.specs.Guards.{is_written_in_place};

use crate::fault::{FileFault, OUT_OF_MEMORY, ToolFault};
use crate::help;
use crate::names::List;
use crate::program::End;
use crate::refusal::{FileId, Refusal, Taking, remove, way_to_take};
use crate::screen::{Host, Progress};
use std::fs::{File, OpenOptions, Permissions};
use std::io::{BufWriter, Error, ErrorKind};
use std::os::unix::fs::{MetadataExt, PermissionsExt, fchown};
use std::{fs, io};
use tape_run::{Place, WriteFailed};
use tape_writer::system::{LockFault, found, locked, name_in_folder, sync_folder_of};

/// Returns whether the output may be written in place after creating a draft failed with error
/// `kind`: either its directory accepts no new files, or the directory does not exist, so that
/// nothing can be lost.
pub fn is_written_in_place(kind: ErrorKind, there: bool) -> bool
    ensures { result ≡ is_written_in_place kind there }
{
    match kind {
        ErrorKind::PermissionDenied | ErrorKind::ReadOnlyFilesystem => true,
        ErrorKind::NotFound => !there,
        _ => false,
    }
}

/// The maximum number of output bytes that are buffered.
pub const HELD: usize = 65_536;

/// The maximum number of draft names that are tried.
const MOST_DRAFTS: u16 = 9_999;

/// The draft of an output, by its path and by the output's name.
#[derive(Drop)]
pub struct Draft<'a, R: Progress> {
    rt: &'a R,
    path: String,
    name: &'a str,
    /// The draft, locked while this is open: until it gets the output's name or is removed.
    file: File,
    /// The file found under the output's name, before anything was read.
    before: Option<FileId>,
    /// Whether the draft has a name of its own.
    is_draft: bool,
    /// Whether another file has the output's name.
    is_taken: bool,
}

/// A draft, and the file that is written.
pub type Drafted<'a, R> = (Draft<'a, R>, BufWriter<File>);

impl<'a, R: Progress> Draft<'a, R> {
    /// Creates a draft of the file `name`, which must not exist.
    ///
    /// # Errors
    ///
    /// Returns `Exists` if it does; the other errors are those of `over`.
    pub fn new(rt: &'a R, name: &'a str) -> Result<Drafted<'a, R>, ToolFault> {
        match found(fs::symlink_metadata(rt.host(), name))? {
            Some(_) => Err(ToolFault::File(FileFault::Exists)),
            None => Draft::over(rt, name, None),
        }
    }

    /// Creates a draft of the file `name`, which is never written in place. It replaces `before`.
    ///
    /// # Errors
    ///
    /// Returns `NotOpened` if no draft can be created, or `OUT_OF_MEMORY`.
    pub fn over(
        rt: &'a R,
        name: &'a str,
        before: Option<FileId>,
    ) -> Result<Drafted<'a, R>, ToolFault> {
        Draft::make(rt, name, before)?.ok_or(ToolFault::File(FileFault::NotOpened))
    }

    /// Creates a draft in the output's directory, with the owner and the permissions of the file
    /// that it will replace. Returns `None` if the output may be written in place.
    ///
    /// # Errors
    ///
    /// Returns `File` with `NotOpened` if no draft can be created, or `OUT_OF_MEMORY`.
    pub fn make(
        rt: &'a R,
        name: &'a str,
        before: Option<FileId>,
    ) -> Result<Option<Drafted<'a, R>>, ToolFault> {
        let folder = name.strip_suffix(name_in_folder(name)).unwrap_or("");
        for number in 1..=MOST_DRAFTS {
            // It is short, since the output's name may be as long as the system permits. Only this
            // program uses such names.
            let path = format!(in rt.alloc(); "{folder}.tape-{number}.part")?;
            match make_new(rt, path.as_str()) {
                Ok(Some(out)) => return Ok(Some(Draft::in_file(rt, name, before, path, out)?)),
                Ok(None) => {}
                Err(kind) if is_written_in_place(kind, before.is_some()) => return Ok(None),
                Err(_) => break,
            }
        }
        Err(ToolFault::File(FileFault::NotOpened))
    }

    /// Returns the draft of the file `name` in the new file `out` at `path`, with the owner and the
    /// permissions of the file that it will replace, as far as the user may set them. On error,
    /// removes the new file.
    fn in_file(
        rt: &'a R,
        name: &'a str,
        before: Option<FileId>,
        path: String,
        out: File,
    ) -> Result<Drafted<'a, R>, ToolFault> {
        let Ok(file) = out.try_clone() else {
            remove(rt, path.as_str());
            return Err(ToolFault::File(FileFault::NotOpened));
        };
        let mut draft = Draft {
            rt,
            path,
            name,
            file,
            before,
            is_draft: true,
            is_taken: false,
        };
        if before.is_some() {
            let Ok(there) = fs::metadata(rt.host(), name) else {
                draft.clear();
                return Err(ToolFault::File(FileFault::NotOpened));
            };
            // Set-user-ID and set-group-ID are not copied, since the contents are different.
            let rights = Permissions::from_mode(there.mode() & 0o777);
            let _ = fchown(&draft.file, Some(there.uid()), Some(there.gid()));
            let _ = draft.file.set_permissions(rights);
        }
        let Ok(out) = BufWriter::with_capacity(rt.alloc(), HELD, out) else {
            draft.clear();
            return Err(OUT_OF_MEMORY);
        };
        Ok((draft, out))
    }

    /// Gives the draft the output's name, and syncs the directory. A name that no file had is never
    /// taken from a file that appears meanwhile.
    pub fn take(&mut self) -> io::Result<()> {
        let (rt, name) = (self.rt, self.name);
        self.file.sync_all()?;
        let now = found(fs::symlink_metadata(rt.host(), name));
        let now = now.map(|there| there.map(|there| FileId::of(&there)));
        match way_to_take(self.before, now) {
            Ok(Taking::New) => match fs::hard_link(rt.host(), self.path.as_str(), name) {
                // The draft got it as a second name, and loses its own.
                Ok(()) => self.clear(),
                Err(error) if error.kind() == ErrorKind::AlreadyExists => {
                    self.is_taken = true;
                    return Err(error);
                }
                // On a file system without hard links, an empty file takes the name first.
                Err(_) => {
                    if let Err(error) = File::create_new(rt.host(), name) {
                        self.is_taken = error.kind() == ErrorKind::AlreadyExists;
                        return Err(error);
                    }
                    if let Err(error) = fs::rename(rt.host(), self.path.as_str(), name) {
                        remove(rt, name);
                        return Err(error);
                    }
                }
            },
            Ok(Taking::Over) => fs::rename(rt.host(), self.path.as_str(), name)?,
            Err(fault) => {
                self.is_taken = fault == FileFault::Exists;
                return Err(Error::from(ErrorKind::Other));
            }
        }
        self.is_draft = false;
        sync_folder_of(rt.host(), name)
    }

    /// Removes the draft, unless it got the output's name.
    fn clear(&mut self) {
        if self.is_draft {
            remove(self.rt, self.path.as_str());
            self.is_draft = false;
        }
    }

    /// Returns the path of the draft until it gets the output's name.
    pub fn path(&self) -> &str {
        self.path.as_str()
    }

    /// Returns whether the draft got the output's name.
    pub fn has_taken(&self) -> bool {
        !self.is_draft
    }

    /// Removes the output if the draft got its name and no other file has the name now.
    pub fn give_back(&mut self) {
        if self.has_taken() && has_name(self.rt.host(), &self.file, self.name) {
            remove(self.rt, self.name);
        }
    }

    /// Ends a run with `end`, or with `Exists` if another file prevented the draft from getting the
    /// output's name. Removes the draft.
    pub fn ended(&mut self, end: End) -> End {
        self.clear();
        if self.is_taken {
            return End::Faulted(ToolFault::File(FileFault::Exists));
        }
        end
    }
}

impl<R: Progress> Place<BufWriter<File>> for Draft<'_, R> {
    ghost stands = { λ _. None };

    fn place(&mut self, out: BufWriter<File>) -> Result<(), WriteFailed> {
        // The buffer is written before the file gets its name. If only the directory cannot be
        // synced, it has the name already.
        let Ok(_written) = out.into_inner() else {
            return Err(WriteFailed);
        };
        self.take().map_err(|_| WriteFailed)
    }
}

/// Refuses names that drafts have: a file of such a name is removed before anything is read.
///
/// # Errors
///
/// Returns `Words` if one of the paths, or that of the list, ends in a name that begins with
/// `.tape-` and ends with `.part`.
pub fn no_draft(paths: &[&str], list: Option<List<'_>>) -> Result<(), Refusal> {
    let list = list.and_then(|list| list.file).unwrap_or("");
    if paths.iter().any(|path| has_draft_name(path)) || has_draft_name(list) {
        return Err(Refusal::Words(help::NAME_OF_DRAFT));
    }
    Ok(())
}

/// Returns whether the name at the end of the path is one that drafts have.
fn has_draft_name(path: &str) -> bool {
    let name = name_in_folder(path);
    name.starts_with(".tape-") && name.ends_with(".part")
}

/// Creates a file at `path` and locks it as long as the draft is open. Returns `None` if another
/// run has a file with this name. A file left by a killed run is not locked, and is removed.
fn make_new<R: Progress>(rt: &R, path: &str) -> Result<Option<File>, ErrorKind> {
    let host = rt.host();
    match fs::symlink_metadata(host, path) {
        Err(error) if error.kind() == ErrorKind::NotFound => {}
        Err(error) => return Err(error.kind()),
        Ok(left) if !left.is_file() => return Ok(None),
        Ok(_) => match OpenOptions::new().read(true).write(true).open(host, path) {
            Ok(left)
                if left.try_lock().is_ok()
                    && has_name(host, &left, path)
                    && fs::remove_file(host, path).is_ok() => {}
            _ => return Ok(None),
        },
    }
    let file = match File::create_new(host, path) {
        Ok(file) => file,
        Err(error) if error.kind() == ErrorKind::AlreadyExists => return Ok(None),
        Err(error) => return Err(error.kind()),
    };
    match locked(file.try_lock()) {
        Ok(()) if has_name(host, &file, path) => Ok(Some(file)),
        // Another run took it for a leftover file, which that run then removes.
        Ok(()) | Err(LockFault::InUse) => Ok(None),
        Err(LockFault::Failed) => {
            remove(rt, path);
            Err(ErrorKind::Other)
        }
    }
}

/// Returns whether `file` is the file at `path`.
fn has_name<R: Host>(host: &R, file: &File, path: &str) -> bool {
    match (file.metadata(), fs::symlink_metadata(host, path)) {
        (Ok(open), Ok(named)) => open.dev() == named.dev() && open.ino() == named.ino(),
        _ => false,
    }
}
