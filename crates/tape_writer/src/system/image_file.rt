//! Image files, each created when it is first written to.
ghost use Rattle.std.specs.Prelude.{◌≡◌, ◌⊎◌, [], length, None, Some, IsSome, OnSome, OnOk, OnErr};
ghost use Rattle.std.specs.{Prelude.IfOk, Prelude.IsErr, Prelude.false, Option.option_map_or};
ghost use Rattle.std.specs.Io.{WritesAtMost};
ghost use Rattle.std.specs.Io.KnownBytes.{WriteAppends};
ghost use Rattle.tape_writer.specs.Holding.{Opens, FilePasses, FileStops, FileTakes};

use crate::blank::Prefix;
use crate::fault::WriteFault;
use crate::system::Host;
use crate::system::fault::{FileFault, SystemFault};
use crate::system::folder::{image_path, sync_folder_of};
use crate::system::opening::{open_image, try_image};
use crate::system::write_behind::{ROOM, WriteBehind};
use std::fs::File;
use std::io;
use std::io::{Error, ErrorKind, Write};

/// Allocating memory failed.
pub const NO_MEMORY: SystemFault = SystemFault::Write(WriteFault::OutOfMemory);

/// The file of an image. It is created at the first write; an existing file must be a blank volume.
///
/// Bytes are buffered and written together. A flush makes all of them durable, under the file's
/// name. After a fault every later call is refused. If the image is dry, an existing file is
/// checked in the same way, but nothing is created or changed: the bytes are only counted.
#[derive(Drop)]
pub struct ImageFile<'a, R: Host> {
    rt: &'a R,
    folder: &'a str,
    prefix: Prefix,
    number: u16,
    /// Whether the bytes are only counted.
    dry: bool,
    /// Whether the file was created by this value.
    made: bool,
    file: Option<WriteBehind<File>>,
    fault: Option<SystemFault>,
}

impl<'a, R: Host> ImageFile<'a, R> {
    /// Returns the image file of volume number `number`, from 1 to 999, without opening it. If
    /// `dry` is true, nothing will be written to it.
    pub fn new(
        rt: &'a R,
        folder: &'a str,
        prefix: Prefix,
        number: u16,
        dry: bool,
    ) -> ImageFile<'a, R>
        ensures place { (result.prefix ≡ prefix) × (result.number ≡ number) }
        ensures dry { result.dry ≡ dry }
        ensures unopened { (result.file ≡ None) × (result.fault ≡ None) }
        ensures unmade { result.made ≡ false }
    {
        ImageFile {
            rt,
            folder,
            prefix,
            number,
            dry,
            made: false,
            file: None,
            fault: None,
        }
    }

    /// Returns the number of bytes accepted.
    pub fn size(&self) -> u64
        ensures { result ≡ option_map_or (λ file. file.size) self.now.file 0 }
    {
        match &self.file {
            Some(file) => file.size(),
            None => 0,
        }
    }

    /// Returns the number of the volume, and whether its file was created by this value.
    pub(crate) fn origin(&self) -> (u16, bool)
        ensures { result ≡ (self.now.number, self.now.made) }
    {
        (self.number, self.made)
    }

    /// Writes the buffered bytes, and returns the fault if anything failed.
    pub fn end(&mut self) -> Option<SystemFault>
        ensures passed { result ≡ None → FilePasses self.old.file self.new.file }
        ensures stops { self.old.fault ≡ None → IsSome result
            → FileStops [] self.old.file self.new.file }
        ensures fault { result ≡ self.new.fault }
        ensures kept { OnSome self.old.fault (self.new ≡ self.old) }
    {
        if self.fault.is_some() {
            return self.fault;
        }
        self.fault = self.pass_on().err();
        self.fault
    }

    /// Records a fault, after which every call is refused.
    fn fail(&mut self, fault: SystemFault) -> Error
        ensures { self.new ≡ record self.old { fault = Some fault } }
    {
        self.fault = Some(fault);
        Error::from(ErrorKind::Other)
    }

    fn path(&self) -> Result<String, SystemFault> {
        let alloc = self.rt.alloc();
        image_path(alloc, self.folder, self.prefix, self.number).map_err(|_| NO_MEMORY)
    }

    /// Opens the file if it is not open yet, after allocating its buffer.
    fn make_ready(&mut self) -> Result<(), SystemFault>
        ensures ok { OnOk result (Opens self.old.file self.new.file) }
        ensures err { OnErr result ((self.old.file ≡ None) × (self.new.file ≡ None)) }
        ensures fault { self.new.fault ≡ self.old.fault }
    {
        if self.file.is_some() {
            return Ok(());
        }
        let Ok(room) = Vec::with_capacity(self.rt.alloc(), ROOM) else {
            return Err(NO_MEMORY);
        };
        let path = self.path()?;
        let opened = if self.dry {
            try_image(self.rt, path.as_str(), self.prefix, self.number)
        } else {
            open_image(self.rt, path.as_str(), self.prefix, self.number)
        };
        let (file, made) = opened.map_err(|fault| SystemFault::File(fault))?;
        self.made = made;
        self.file = Some(WriteBehind::over(room, file));
        Ok(())
    }

    /// Accepts bytes, and opens the file when the first bytes are accepted.
    fn take(&mut self, bytes: &[u8]) -> Result<(), SystemFault>
        ensures ok { OnOk result (FileTakes bytes.now self.old.file self.new.file) }
        ensures err { OnErr result (FileStops bytes.now self.old.file self.new.file) }
    {
        self.make_ready()?;
        match &mut self.file {
            Some(file) => file.take(bytes).map_err(|fault| SystemFault::File(fault)),
            None => unreachable!(),
        }
    }

    /// Writes the buffered bytes.
    fn pass_on(&mut self) -> Result<(), SystemFault>
        ensures ok { OnOk result (FilePasses self.old.file self.new.file) }
        ensures err { OnErr result (FileStops [] self.old.file self.new.file) }
    {
        match &mut self.file {
            Some(file) => file.pass_on().map_err(|fault| SystemFault::File(fault)),
            None => Ok(()),
        }
    }

    /// Makes the written bytes and the file's name durable.
    fn sync(&self) -> Result<(), SystemFault> {
        let Some(file) = &self.file else {
            return Ok(());
        };
        if self.dry {
            return Ok(());
        }
        let path = self.path()?;
        let synced = file.device().sync_all();
        if synced.is_err() || sync_folder_of(self.rt, path.as_str()).is_err() {
            return Err(SystemFault::File(FileFault::WriteFailed));
        }
        Ok(())
    }
}

impl<R: Host> Write for ImageFile<'_, R> {
    fn write(&mut self, buf: &[u8]) -> io::Result<usize>
        ensures bound { WritesAtMost result buf.now }
        ensures bytes { WriteAppends None None result buf.now }
        ensures took { IfOk result (λ n. (n ≡ length buf.now)
            × FileTakes buf.now self.old.file self.new.file) }
        ensures stops { OnErr result (self.old.fault ≡ None
            → FileStops buf.now self.old.file self.new.file) }
        ensures refused { OnSome self.old.fault (IsErr result × (self.new ≡ self.old)) }
        ensures kept { OnErr result (IsSome self.new.fault) }
    {
        if self.fault.is_some() {
            return Err(Error::from(ErrorKind::Other));
        }
        match self.take(buf) {
            Ok(()) => Ok(buf.len()),
            Err(fault) => Err(self.fail(fault)),
        }
    }

    fn flush(&mut self) -> io::Result<()>
        ensures passed { OnOk result (FilePasses self.old.file self.new.file) }
        // The bytes may also be written, but not durable.
        ensures stops { OnErr result (self.old.fault ≡ None
            → FileStops [] self.old.file self.new.file ⊎ FilePasses self.old.file self.new.file) }
        ensures refused { OnSome self.old.fault (IsErr result × (self.new ≡ self.old)) }
        ensures kept { OnErr result (IsSome self.new.fault) }
    {
        if self.end().is_some() {
            return Err(Error::from(ErrorKind::Other));
        }
        match self.sync() {
            Ok(()) => Ok(()),
            Err(fault) => Err(self.fail(fault)),
        }
    }
}
