//! The help texts of `show`.

// Descriptions of arguments and commands.
pub const ABOUT_SHOW: &str = "Show items of an image in full: label fields, or bytes";

pub const SHOWN_IMAGE: &str = "SIMH .tap image";

pub const FIRST_ITEM: &str = "Number of an item, as 'tape list' prints it";

pub const LAST_ITEM: &str = "Number of the last item to show [default: N]";

pub const RAW: &str = "Write the bytes of the items as they are";

pub const EBCDIC: &str = "Show the text of blocks in EBCDIC (code page 037)";

// Errors in arguments.
pub const WRONG_ITEM: &str = "M must be one number from N to 4294967295";

pub const NO_ITEM: &str = "the image ends before item N: 'tape list' shows its items";

pub const AFTER_SHOW: &str =
    "A block of 80 characters that begins as a label, in ASCII or in EBCDIC, is
shown by its fields: positions, name and characters; so is one with padding.
A byte that is not a printable character is shown in hexadecimal,
after '\\x'; dates are shown as days, too.
  Item 1: label, 80 bytes at 4
     1-4   label identifier        \"VOL1\"
     5-10  volume identifier       \"ABC001\"
Any other block is shown in rows of 16 bytes: the offset in the block, the bytes
in hexadecimal, and their text, with '.' for what cannot be printed.
  Item 6: unreadable block, 400 bytes at 1080
    00000000  41 42 43 44 45 46 47 48 49 4A 4B 4C 4D 4E 4F 50  ABCDEFGHIJKLMNOP
The offset in the first line is that of the first byte in the image.

The bytes of an unreadable block may be wrong. If the image is damaged, the part
of the block that it has is shown before the error. If it ends before item M,
the items up to its end are shown.

Exit status: 0 shown, 1 error, 2 usage error, or the image ends before item N

Examples:
  tape show reel.tap 2
  tape show reel.tap 5 6
  tape show --raw reel.tap 5 >block.bin";
