//! The help texts of the option `--provenance` of `extract` and `salvage`.

pub const PROVENANCE: &str = "Also create JSONL, with lines of JSON about OUT:
its labels and its checksum, and the images and blocks
it was made of; JSONL must not exist";

pub const PROVENANCE_NEEDS_AGAIN: &str = "--provenance needs --again";

pub const PROVENANCE_IS_DASH: &str =
    "JSONL must be a file, because the report goes to standard output:
write './-' for a file of that name";

pub const PROVENANCE_IS_FOLDER: &str =
    "JSONL is empty or a directory: name a new file, such as ../out/payroll.jsonl";

pub const PROVENANCE_IS_OUT: &str =
    "JSONL is OUT or the stage: choose another name for one of them";

pub const PROVENANCE_OF_FILES: &str =
    "with --provenance each IMAGE and OUT must be a file: images are read again for it";
