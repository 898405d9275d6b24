//! Explanations of file faults, by the purpose of the file: see `nth`.

pub const FILE_OF_INPUT: &str = "
#2  The input could not be opened. Nothing was written.
  Check its name and your permissions.
#3  The input could not be read: is it a directory, or is the disk failing?
  Created images were removed; remove blank ones that were begun.";

/// Faults of the images of `write`.
pub const FILE_OF_IMAGES: &str = "
#1  The image already exists and is not blank; it was not changed. Remove it, or
  choose another PRE or DIR.
  Created images were removed; remove blank ones that were begun.
#2  The image could not be opened or created. Does DIR exist, and may you read
  and write there?
  Created images were removed; remove blank ones that were begun.
#3  The image already exists and could not be read: is the disk failing?
  Created images were removed; remove blank ones that were begun.
#4  The image could not be written completely: is the disk full?
  Created images were removed; remove blank ones that were begun.";

pub const FILE_OF_LINES: &str = "
#4  Output failed: the disk is full, or the pipe was closed (by 'head', say).
  Everything printed so far is correct, and files created so far remain.";

pub const FILE_OF_IMAGE: &str = "
#2  The image could not be opened. Nothing was read.
  Check its name and your permissions.";

pub const FILE_OF_VOLUME: &str = "
#1  The image already exists; it was not changed. Images created before it, if
  any, are complete. Choose another PRE or DIR, or remove the image.
#2  The image could not be created. Does DIR exist, and may you write to it?
  Images created before it, if any, are complete.
#4  The image could not be written completely: is the disk full? It was removed.
  Images created before it, if any, are complete.";

pub const FILE_OF_LIST: &str = "
#2  The list could not be opened. No image was read.
  Check its name and your permissions.
#3  The list could not be read: is it a directory, or is the disk failing?
  No image was read.";

pub const FILE_OF_OUT: &str = "
#1  OUT already exists and might be a tape image, an archive or a stage. It was
  not changed. With 'extract' OUT comes before the images: SET FILE OUT IMAGE..
  Or another program created it meanwhile. Choose another name, or remove it.
#2  OUT could not be opened or created. Data saved in a stage is safe.
  Does its directory exist, and may you read and write there?
#3  OUT already exists and could not be read, so tape cannot tell whether it is a
  tape image. It was not changed. Choose another name.
#4  Writing to OUT or standard output failed: the disk is full, or a pipe was
  closed. OUT may be incomplete. Data saved in a stage is safe.
  Free some space, or choose an OUT on another disk, and try again.";

pub const FILE_OF_NEW: &str = "
#1  OUT already exists, or another program created it meanwhile. It was not
  changed, and no image was created. Choose a new name.
  With 'merge' and 'convert' OUT comes before IMAGE.
#2  OUT could not be created. Nothing was read.
  Does its directory exist, and may you write there?
#4  Writing to OUT or standard output failed: the disk is full, or a pipe was
  closed. Free some space, or choose an OUT on another disk, and try again.";

pub const FILE_OF_LOG: &str = "
#1  The log already exists. It was not changed, and no image was created.
  Choose a new name.
#2  The log could not be created. Nothing was read.
  Does its directory exist, and may you write there?
#4  The log could not be written: the disk is full or failing. Neither it nor the
  merged image was created. Free some space, or choose another disk for it.";

pub const FILE_OF_STAGE: &str = "
#2  The stage could not be opened or created. No image was read. Check its name,
  that its directory exists, and your permissions ('extract' needs to write).";

pub const FILE_OF_FOLDER: &str = "
#2  DIR, or a file in it, could not be opened or created. Files reported earlier
  are kept. Does DIR exist, and may you read and write there?
#3  An existing file in DIR could not be read: is the disk failing? It was not
  changed. Files reported earlier are kept.
#4  Writing to DIR or standard output failed: the disk is full, or a pipe was
  closed. Files reported earlier, and the stages, are kept. Free some space and
  try again.";

pub const FILE_OF_MANIFEST: &str = "
#1  MANIFEST.sha256 or MANIFEST.jsonl in DIR is not a list as tape writes it,
  or was changed by another program. It was left as it is: rename it, and try
  again. Files that were reported are kept.
#2  MANIFEST.sha256 or MANIFEST.jsonl in DIR could not be opened or created.
  With --verify: there is no MANIFEST.sha256; 'tape unpack --manifest' writes
  it. Files reported earlier are kept.
#3  MANIFEST.sha256 or MANIFEST.jsonl in DIR could not be read, or is not a
  list as tape writes it. Nothing was recovered. 'sha256sum -c' may read it.
#4  MANIFEST.sha256 or MANIFEST.jsonl could not be written: the disk is full or
  failing. An older list is unchanged, and reported files are kept. Free some
  space and try again: the list is then completed.";

pub const FILE_OF_PROVENANCE: &str = "
#1  JSONL already exists, or another program created it meanwhile. It was not
  changed. OUT and the stage, if reported, are kept. Choose a new name.
#2  JSONL could not be created. OUT and the stage, if reported, are kept.
  Does its directory exist, and may you write there?
#4  JSONL could not be written: the disk is full or failing. OUT and the stage
  are kept. Free some space, or choose another disk for it.";
