//! Tests of images and inputs that are files. Each test uses its own directory.

use crate::inputs::payroll;
use crate::sets::{FIXED, head, spanned};
use crate::volumes::one_volume;
use std::alloc::{AllocError, Global};
use std::fs;
use std::fs::File;
use std::io::{Read, Write};
use std::process::Abort;
use std::rt::Runtime;
use std::test::Fail;
use tape_blocks::{Form, Shape};
use tape_writer::system::{
    Ended, FileFault, FolderPlan, Host, InputFile, SystemFault, Unwritten, image_path, make_image,
    write_in_folder,
};
use tape_writer::{Input, Prefix, WriteFault};

/// The image of the first volume while it is blank: its label, two tape marks and the end-of-medium
/// marker.
const BLANK: &[u8] = b"\
    P\0\0\0VOL1ABC001                                                                     4P\0\0\0\
    \0\0\0\0\0\0\0\0\xFF\xFF\xFF\xFF";

pub const ABC: Prefix = Prefix {
    characters: *b"ABC",
};

/// Creates a file with contents `bytes`.
fn put<R: Runtime>(rt: &R, path: &str, bytes: &[u8]) -> Result<(), Fail> {
    let mut file = File::create(rt, path)?;
    Ok(file.write_all(bytes)?)
}

/// Checks that the contents of the file are `bytes`.
fn holds<R: Host + Abort>(rt: &R, path: &str, bytes: &[u8]) -> Result<(), Fail> {
    let found = fs::read(rt, path)?;
    assert!(rt; found.as_slice() == bytes, "{path}");
    Ok(())
}

/// A directory, the number of a volume, the result of creating its image, and the path of the
/// image. The second and the third image already exist.
const MADE: &[(&str, u16, Option<FileFault>, &str)] = &[
    ("made", 1, None, "made/ABC001.tap"),
    ("made", 1, Some(FileFault::Exists), "made/ABC001.tap"),
    ("made", 20, Some(FileFault::Exists), "made/ABC020.tap"),
    (
        "missing",
        1,
        Some(FileFault::NotOpened),
        "missing/ABC001.tap",
    ),
];

#[test]
fn blank_images(rt: HostRuntime) -> Result<(), Fail> {
    fs::create_dir(&rt, "made")?;
    put(&rt, "made/ABC020.tap", b"kept")?;
    for (folder, number, wanted, place) in MADE {
        let path = image_path(rt.alloc(), *folder, ABC, *number)?;
        let fault = make_image(&rt, path.as_str(), ABC, *number).err();
        assert!(rt;
            fault == *wanted && path.as_str() == *place,
            "{place}: {fault:?}"
        );
    }
    holds(&rt, "made/ABC001.tap", BLANK)?;
    holds(&rt, "made/ABC020.tap", b"kept")
}

/// Writes the bytes as a file on volumes in the directory, and returns the volumes.
pub fn ended<R: Host>(
    rt: &R,
    folder: &str,
    capacity: u32,
    shape: Shape,
    bytes: &[u8],
) -> Result<Vec<Ended>, Unwritten> {
    let plan = FolderPlan {
        folder,
        prefix: ABC,
        capacity,
        shape,
        form: Form::Raw,
        ebcdic: false,
        dry: false,
    };
    planned(rt, &plan, bytes)
}

/// Writes the bytes as the only file of a set.
fn planned<R: Host>(rt: &R, plan: &FolderPlan<'_>, bytes: &[u8]) -> Result<Vec<Ended>, Unwritten> {
    let mut files = [Input {
        head: head(),
        reader: bytes,
    }];
    write_in_folder(rt, plan, &mut files)
}

/// Writes the bytes as `ended` does, and returns the number of volumes and the size of the last
/// one.
fn write<R: Host>(
    rt: &R,
    folder: &str,
    capacity: u32,
    shape: Shape,
    bytes: &[u8],
) -> Result<(usize, u64), SystemFault> {
    let ended = match ended(rt, folder, capacity, shape, bytes) {
        Ok(ended) => ended,
        Err(unwritten) => return Err(unwritten.fault),
    };
    let size = match ended.as_slice() {
        [.., last] => last.size,
        [] => 0,
    };
    Ok((ended.len(), size))
}

/// Returns the first `kept` bytes of the blank image, followed by `zeros` zeros.
fn changed(alloc: Global, kept: usize, zeros: u8) -> Result<Vec<u8>, AllocError> {
    let mut bytes = Vec::from_slice(alloc, BLANK)?;
    bytes.truncate(kept);
    for _ in 0..zeros {
        bytes.push(0)?;
    }
    Ok(bytes)
}

/// The number of bytes of the blank image that already exist, and the number of zeros after them.
/// All files except the last remain unchanged.
const THERE: &[(usize, u8)] = &[(100, 1), (99, 0), (99, 1), (0, 0), (100, 0)];

#[test]
fn images_that_are_there(rt: HostRuntime) -> Result<(), Fail> {
    let path = "there/ABC001.tap";
    fs::create_dir(&rt, "there")?;
    for (kept, zeros) in THERE {
        let image = changed(rt.alloc(), *kept, *zeros)?;
        put(&rt, path, image.as_slice())?;
        let fault = write(&rt, "there", 100_000, spanned(800), b"AB").err();
        let stays = fs::read(&rt, path)?.as_slice() == image.as_slice();
        let wanted = (*kept, *zeros) != (100, 0);
        let left = fault == Some(SystemFault::File(FileFault::Exists));
        assert!(rt;
            stays == wanted && left == wanted,
            "{kept} {zeros}: {fault:?}"
        );
    }
    Ok(())
}

/// Checks that writing the example records has the result `wanted`.
fn comes_to<R: Host + Abort>(
    rt: &R,
    folder: &str,
    capacity: u32,
    wanted: Result<(usize, u64), SystemFault>,
) -> Result<(), Fail> {
    let records = payroll(rt.alloc(), b"")?;
    let written = write(rt, folder, capacity, FIXED, records.as_slice());
    assert!(rt; written == wanted, "{folder}: {written:?}");
    Ok(())
}

/// A blank volume that another run has locked, in either way, is not written to.
#[test]
fn an_image_that_another_run_has(rt: HostRuntime) -> Result<(), Fail> {
    let path = "locked/ABC001.tap";
    fs::create_dir(&rt, "locked")?;
    put(&rt, path, BLANK)?;
    let wanted = Some(SystemFault::File(FileFault::Exists));
    for shared in [true, false] {
        let held = File::open(&rt, path)?;
        let had = if shared {
            held.try_lock_shared()
        } else {
            held.try_lock()
        };
        assert!(rt; had.is_ok());
        let fault = write(&rt, "locked", 100_000, spanned(800), b"AB").err();
        assert!(rt; fault == wanted, "{fault:?}");
        holds(&rt, path, BLANK)?;
    }
    assert!(rt; write(&rt, "locked", 100_000, spanned(800), b"AB").is_ok());
    Ok(())
}

/// The example volume is written; it is refused when written again; then it is written on two
/// volumes, the second of which already exists; with a directory in place of the first image; and
/// in a directory that does not exist.
#[test]
fn a_set_in_a_folder(rt: HostRuntime) -> Result<(), Fail> {
    let exists = Err(SystemFault::File(FileFault::Exists));
    let not_opened = Err(SystemFault::File(FileFault::NotOpened));
    for folder in ["one", "second", "folder", "folder/ABC001.tap"] {
        fs::create_dir(&rt, folder)?;
    }
    put(&rt, "second/ABC002.tap", b"kept")?;
    comes_to(&rt, "one", 100_000, Ok((1, 2_484)))?;
    comes_to(&rt, "one", 100_000, exists)?;
    comes_to(&rt, "second", 2_500, exists)?;
    comes_to(&rt, "folder", 100_000, not_opened)?;
    comes_to(&rt, "missing", 100_000, not_opened)?;
    let records = payroll(rt.alloc(), b"")?;
    let wanted = one_volume(rt.alloc(), records.as_slice())?;
    holds(&rt, "one/ABC001.tap", wanted.as_slice())?;
    holds(&rt, "second/ABC002.tap", b"kept")
}

/// A directory and the second image in it, the image that fails, and the images that were created.
/// The first image is created, or was blank before.
const BEGUN: &[(&str, bool, Option<u16>, &[u16])] = &[
    ("begun", false, Some(2), &[1]),
    ("reused", true, Some(2), &[]),
];

/// If the second image of a set already exists, the first is reported, if it was created.
#[test]
fn what_was_begun(rt: HostRuntime) -> Result<(), Fail> {
    let records = payroll(rt.alloc(), b"")?;
    for (folder, is_blank, image, made) in BEGUN {
        fs::create_dir(&rt, *folder)?;
        let path = image_path(rt.alloc(), folder, ABC, 2)?;
        put(&rt, path.as_str(), b"kept")?;
        if *is_blank {
            let path = image_path(rt.alloc(), folder, ABC, 1)?;
            put(&rt, path.as_str(), BLANK)?;
        }
        match ended(&rt, *folder, 2_500, FIXED, records.as_slice()) {
            Ok(_) => return Err(Fail::from("a set that was refused")),
            Err(begun) => {
                assert!(rt;
                    begun.image == *image && begun.made.as_slice() == *made,
                    "{folder}"
                );
            }
        }
    }
    Ok(())
}

/// A dry plan has the volumes of the set, and the faults of existing images. It creates nothing.
#[test]
fn a_dry_run(rt: HostRuntime) -> Result<(), Fail> {
    fs::create_dir(&rt, "dry")?;
    let records = payroll(rt.alloc(), b"")?;
    let plan = FolderPlan {
        folder: "dry",
        prefix: ABC,
        capacity: 100_000,
        shape: FIXED,
        form: Form::Raw,
        ebcdic: false,
        dry: true,
    };
    for (blank, fault) in [
        (None, None),
        (Some(BLANK), None),
        (Some(b"kept"), Some(SystemFault::File(FileFault::Exists))),
    ] {
        if let Some(bytes) = blank {
            put(&rt, "dry/ABC001.tap", bytes)?;
        }
        match planned(&rt, &plan, records.as_slice()) {
            Ok(ended) => {
                let is_size = match ended.as_slice() {
                    [volume] => volume.size == 2_484,
                    _ => false,
                };
                assert!(rt; is_size && fault.is_none(), "{fault:?}");
            }
            Err(begun) => {
                let none = begun.made.is_empty();
                assert!(rt; fault == Some(begun.fault) && none, "{fault:?}");
            }
        }
        match blank {
            Some(bytes) => holds(&rt, "dry/ABC001.tap", bytes)?,
            None => assert!(rt; fs::metadata(&rt, "dry/ABC001.tap").is_err()),
        }
    }
    Ok(())
}

/// There are at most 256 volumes. Each has room for 22 blocks of 18 bytes, of which 13 bytes belong
/// to the record.
#[test]
fn the_last_volume(rt: HostRuntime) -> Result<(), Fail> {
    fs::create_dir(&rt, "full")?;
    let bytes = Vec::from_elem(rt.alloc(), b'9', 13 * 22 * 256)?;
    let fault = write(&rt, "full", 1_042, spanned(18), bytes.as_slice()).err();
    let full = SystemFault::Write(WriteFault::OutOfVolumes);
    assert!(rt; fault == Some(full), "{fault:?}");
    assert!(rt; fs::read(&rt, "full/ABC255.tap")?.len() == 1_032);
    assert!(rt; fs::metadata(&rt, "full/ABC257.tap").is_err());
    Ok(())
}

/// Paths of inputs, and the fault if the input cannot be found.
const INPUTS: &[(&str, Option<FileFault>)] = &[
    ("input.txt", None),
    ("missing.txt", Some(FileFault::NotOpened)),
    (".", Some(FileFault::ReadFailed)),
];

#[test]
fn inputs_are_looked_for(rt: HostRuntime) -> Result<(), Fail> {
    put(&rt, "input.txt", b"AB\n")?;
    for (path, wanted) in INPUTS {
        let fault = InputFile::find(&rt, *path).err();
        assert!(rt; fault == *wanted, "{path}: {fault:?}");
    }
    Ok(())
}

/// An input is opened when it is first read, and stays at its end.
#[test]
fn an_input_is_read(rt: HostRuntime) -> Result<(), Fail> {
    put(&rt, "late.txt", b"AB\n")?;
    let Ok(mut input) = InputFile::find(&rt, "late.txt") else {
        return Err(Fail::from("an input"));
    };
    put(&rt, "late.txt", b"CDE\n")?;
    let mut room = [0; 3];
    for wanted in [3, 1, 0, 0] {
        let count = input.read(&mut room)?;
        assert!(rt; count == wanted, "{count}");
    }
    assert!(rt; room == *b"\nDE");
    Ok(())
}
