//! Tests of whole runs as a caller sees them: exit status, both streams, and the files that are
//! opened.
use crate::tape::Tape;
use std::test::Fail;
use tape_tool_calls::{Odd, called, follow_in};

const CALLS: &str = "
    front seen_cut.tap 2288
    first seen1.tap
    second seen2.tap
    fill seen_long.bin 120000 9
    fill seen_span.bin 290 9
    put seen_one.txt AB\\0ACDE\\0A
    put seen_none.txt
    link seen_link.txt seen_behind.txt
    2$ quit
    ! error: unrecognized subcommand 'quit'
    !
    ! Usage: tape [OPTIONS] <COMMAND>
    !
    ! For more information, try '--help'.
    ?
    image fault 1 at 1884$ list --offsets seen_cut.tap
    > 0 88 000001 VOL1 ABC001
    > 88 88 000002 HDR1 PAYROLL           ABC001 0001 0001
    > 176 88 000003 HDR2 F 00800 00080 00
    > 264 4 000004 MARK
    > 268 808 000005 BLOCK 00800
    > 1076 808 000006 BLOCK 00800
    ? seen_cut.tap
    # A list of names is enough, but something has to be named.
    2$ check
    ! error: name at least one image, or a list of names with --files-from
    !
    ! Usage: tape check [OPTIONS] [IMAGE]...
    !
    ! For more information, try '--help'.
    ?
    2$ extract ABC001 1 a.txt
    ! error: name at least one image, or a list of names with --files-from
    !
    ! Usage: tape extract [OPTIONS] <SET> <FILE> <OUT> [IMAGE]...
    !
    ! For more information, try '--help'.
    ?
    # Each image is opened once, in the order of the arguments.
    $ check seen2.tap lost.tap seen1.tap
    > IMAGE 1 9 MARKED
    > IMAGE 2 0 NOT OPENED
    > IMAGE 3 12 MARKED
    > SECTION ABC001 1 2 ABC002 0 GOOD
    > SECTION ABC001 1 1 ABC001 3 GOOD
    > ALL SECTIONS FOUND
    ? seen2.tap lost.tap? seen1.tap
    # Standard input is an image of one mark.
    3$ check - seen2.tap
    > IMAGE 1 1 MARKED
    > IMAGE 2 9 MARKED
    > SECTION ABC001 1 2 ABC002 0 GOOD
    > LACKS ABC001 1 1
    ? seen2.tap
    # A missing section, and an image that does not exist. What is missing may follow a wrong word:
    # then each image is opened to see its format, and once more to look for one.
    3$ survey lost.tap seen1.tap
    > Not opened: check the names, and that you may read the files
    >   lost.tap
    > Missing: look for the reel, or for other images of it
    >   ABC001 file 1 PAYROLL: section 2, after volume ABC001 (seen1.tap)
    >
    > 2 images: 1 ok, 1 not opened
    > 1 set, 1 file: 0 complete, 1 incomplete
    >
    > lost.tap                  not opened
    > seen1.tap                 ok           volume ABC001, 1 section
    > Set ABC001: 0 of 1 files complete
    >   Volumes: ABC001, missing (follows ABC001)
    >    1 PAYROLL                        incomplete
    ? lost.tap? seen1.tap lost.tap? seen1.tap seen1.tap
    # A section after the one that ends its file.
    worked seen_whole.tap
    3: survey seen_whole.tap seen2.tap
    | section 2 is good on ABC002, after the file's end (seen2.tap)
    # No image is opened after the one that completes the file, but for its labels. The directory
    # is opened to be synced.
    $ extract ABC001 1 seen.txt lost.tap seen1.tap seen2.tap seen1.tap
    > REEL 1 NOT OPENED
    > REEL 2 SECTION DONE
    > REEL 3 COMPLETE
    > COMPLETE 25
    ? .tape-1.part lost.tap? seen1.tap seen2.tap . lost.tap? seen1.tap
    # Blocks that are longer than the buffer, on one volume of more than 100,000 bytes.
    $ write . SEL 150000 LONG=seen_long.bin --format S --block 9999 --form raw
    > VOLUME SEL001 120642
    > FILES 1 VOLUMES 1
    $ extract SEL001 1 seen_again.bin SEL001.tap --form raw
    > REEL 1 COMPLETE
    > COMPLETE 1
    # A file on two volumes.
    $ write . SES 1042 SPAN=seen_span.bin --format S --block 18 --form raw
    > VOLUME SES001 1032
    > VOLUME SES002 486
    > FILES 1 VOLUMES 2
    # A file without records whose output is a link.
    $ write . SEN 100000 NOTHING=seen_none.txt
    > VOLUME SEN001 460
    > FILES 1 VOLUMES 1
    $ extract SEN001 1 seen_link.txt SEN001.tap
    > REEL 1 COMPLETE
    > COMPLETE 0
    # An output that cannot be created: first a new file and then writing in place are tried.
    file fault 2$ extract ABC001 1 missing/a.txt seen1.tap seen2.tap
    > REEL 1 SECTION DONE
    > REEL 2 COMPLETE
    ? missing/.tape-1.part? seen1.tap seen2.tap missing/a.txt?
    $ init . SEI 11
    > INIT 11
    # An image that accepts no bytes is not reported as created.
    file fault 4$ init . FUL 1
    file fault 4$ write . FUL 100000 ONE=seen_one.txt
    # The contents of the files after these runs.
    length seen.txt 2025
    length seen_again.bin 120000
    has seen_behind.txt
    at SEI011.tap 8 SEI011
    missing SEI012.tap
";

#[test]
fn whole_calls(rt: HostRuntime) -> Result<(), Fail> {
    follow_in(&rt, &Tape, "calls", CALLS)
}

/// How the program was built: a note of 128 bytes at the end of its file.
const NOTED: &str = "
    $ --version
    > tape 0.1.0
    ? /proc/self/exe?
    put program bytes\\0Abuild of tape: proved: commit 0123abcd with changes, a toolchain \
        whose name is so long that only three spaces follow it now\\20\\20\\20\\0A
    $ --version
    > tape 0.1.0
    > proved: commit 0123abcd with changes, a toolchain \
        whose name is so long that only three spaces follow it now
    ? /proc/self/exe
    $ list
    > 000001 MARK
    > END MARKED
    ?
    # What is no note is not printed.
    put program bytes\\0Abuild of xape: proved: commit 0123abcd with changes, a toolchain \
        whose name is so long that only three spaces follow it now\\20\\20\\20\\0A
    $ --version
    > tape 0.1.0
    put program bytes\\0Abuild of tape: \\FFroved: commit 0123abcd with changes, a toolchain \
        whose name is so long that only three spaces follow it now\\20\\20\\20\\0A
    $ --version
    > tape 0.1.0
    put program build of tape: proved
    $ --version
    > tape 0.1.0
";

#[test]
fn notes(rt: HostRuntime) -> Result<(), Fail> {
    follow_in(&rt, &Tape, "noted", NOTED)
}

/// Commands that read images: the files opened before the images, how often each image is then
/// opened, and the end of the output for 300 images that do not exist.
const READERS: &[(&str, &str, usize, &str)] = &[
    ("check", "many.names ", 1, "\nIMAGE 300 0 NOT OPENED\n"),
    (
        "survey",
        "many.names ",
        2,
        "\n  lost.tap\n\n300 images: 0 ok, 300 not opened\nNo files were found.\n\n\
            With --all: also each image, each set with its volumes and files, and copies.\n",
    ),
    (
        "extract ABC001 1 many.txt",
        "many.names .tape-1.part ",
        1,
        "\nREEL 300 NOT OPENED\nAWAITS 1 1 0\n",
    ),
    (
        "unpack many",
        "many.names ",
        2,
        "INCOMPLETE IMAGE lost.tap\n\
            TOTAL 0 complete 0 existing 0 incomplete 0 in conflict 0 not found 0 failed\n",
    ),
];

/// All images are read, however many are named by arguments and a list. Arguments may name 256.
#[test]
fn many_images(rt: HostRuntime) -> Result<(), Fail> {
    follow_in(
        &rt,
        &Tape,
        "many_images",
        "folder many\nfill many.names 44 lost.tap\\0A",
    )?;
    for (line, first, times, last) in READERS {
        let mut line = line.to_string(rt.alloc())?;
        for _ in 0..256 {
            line.push_str(" lost.tap")?;
        }
        line.push_str(" --files-from many.names")?;
        let seen = called(&rt, &Tape, line.as_str(), Odd::Nothing)?;
        let (opened, out) = (seen.opened.as_str(), seen.out.as_str());
        let looked_for = opened.len() == first.len() + 300 * *times * "lost.tap? ".len();
        let is_last = opened.starts_with(*first) && looked_for && out.ends_with(*last);
        assert!(rt; seen.status == 3 && is_last, "{line}: {out}");
        line.push_str(" lost.tap")?;
        assert_eq!(rt; called(&rt, &Tape, line.as_str(), Odd::Nothing)?.status, 2);
    }
    Ok(())
}
