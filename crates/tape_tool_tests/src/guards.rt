//! Tests of the program when the system refuses a call, or files change during a run. No existing
//! data is lost.
use crate::tape::Tape;
use std::test::Fail;
use tape_tool_calls::follow_in;

/// A file that appears during a run contains `mine`.
const GUARDED: &str = "
    worked guard.tap
    front guard_front.tap 2288
    put guard.txt kept
    put guard.names guard.tap\\0A
    put guard_one.txt AB\\0A
    put guard_two.txt F\\0A
    folder guard guard_new
    0: write . GRD 100000 ONE=guard_one.txt TWO=guard_two.txt
    put guard/GRD001.1.ONE kept
    # A lookup that fails does not mean that the file does not exist.
    file fault 2$ extract ABC001 1 guard.txt guard.tap
    * look guard.txt stale
    file fault 2$ extract ABC001 1 guard.txt guard.tap
    * look guard.tap denied
    file fault 2$ extract ABC001 1 guard.txt guard.tap --stage guard.stage
    * look guard.stage late
    file fault 2$ extract ABC001 1 guard.txt --files-from guard.names
    * look guard.names stale
    has guard.txt kept
    file fault 2$ write . GRD 100000 ONE=guard_one.txt
    * look ./GRD001.tap stale
    # If unpacking one file fails, the others are still unpacked.
    file fault 2$ unpack guard GRD001.tap
    * look guard/GRD001.1.ONE stale
    > FILE GRD001 1 FAILED file fault 2 guard/GRD001.1.ONE
    > FILE GRD001 2 COMPLETE 1 guard/GRD001.2.TWO
    > TOTAL 1 complete 0 existing 0 incomplete 0 in conflict 0 not found 1 failed
    has guard/GRD001.1.ONE kept
    file fault 2$ unpack guard GRD001.tap
    * look guard/GRD001.2.TWO stale
    > FILE GRD001 1 DIFFERENT guard/GRD001.1.ONE
    > FILE GRD001 2 FAILED file fault 2 guard/GRD001.2.TWO
    > TOTAL 0 complete 1 existing 0 incomplete 0 in conflict 0 not found 1 failed
    has guard/GRD001.2.TWO F\\0A
    # Output is written in place only in a directory that accepts no new files.
    file fault 2$ extract ABC001 1 guard.txt guard.tap
    * open .tape-1.part full
    file fault 2$ extract ABC001 1 guard.txt guard.tap
    * open .tape-1.part lost
    3$ extract ABC001 1 guard.txt guard_front.tap
    * open .tape-1.part denied
    > REEL 1 REEL ENDED IMAGE 1 1884
    > AWAITS 1 1 2
    has guard.txt kept
    # A file that appears during the run is not replaced.
    file fault 1$ extract ABC001 1 guard_comes.txt guard.tap
    * comes guard.tap guard_comes.txt
    > REEL 1 COMPLETE
    has guard_comes.txt mine
    file fault 1$ extract ABC001 1 guard.txt guard.tap
    * comes guard.tap guard.txt
    > REEL 1 COMPLETE
    has guard.txt mine
    # A file to which a link leads is replaced, too: it stays if that fails, and so does another
    # name of it. A file that is created through a link is written in place.
    put guard/linked.txt kept
    link guard_link.txt guard/linked.txt
    name guard_name.txt guard/linked.txt
    file fault 4$ extract ABC001 1 guard_link.txt guard.tap
    * rename
    > REEL 1 COMPLETE
    has guard/linked.txt kept
    missing guard/.tape-1.part
    0: extract ABC001 1 guard_link.txt guard.tap
    length guard/linked.txt 2025
    has guard_name.txt kept
    link guard_free.txt guard/free.txt
    0: extract ABC001 1 guard_free.txt guard.tap
    length guard/free.txt 2025
    # The draft of another output is not replaced through a link.
    put guard/.tape-2.part kept
    link guard_draft.txt guard/.tape-2.part
    2: extract ABC001 1 guard_draft.txt guard.tap => unfinished output
    has guard/.tape-2.part kept
    3$ unpack guard guard.tap
    * comes guard/.tape-1.part guard/ABC001.1.PAYROLL
    > FILE ABC001 1 DIFFERENT guard/ABC001.1.PAYROLL
    > TOTAL 0 complete 1 existing 0 incomplete 0 in conflict 0 not found 0 failed
    has guard/ABC001.1.PAYROLL mine
    # An unpacked file is never written in place.
    file fault 2$ unpack guard_new guard.tap
    * open guard_new/.tape-1.part denied
    > FILE ABC001 1 FAILED file fault 2 guard_new/ABC001.1.PAYROLL
    > TOTAL 0 complete 0 existing 0 incomplete 0 in conflict 0 not found 1 failed
    missing guard_new/ABC001.1.PAYROLL
    # If a file cannot get a second name, an empty file takes the name first.
    file fault 1$ extract ABC001 1 guard_lost.txt guard.tap
    * link exists
    > REEL 1 COMPLETE
    missing guard_lost.txt
    $ extract GRD001 2 guard_second.txt GRD001.tap
    * link unsupported
    > REEL 1 COMPLETE
    > COMPLETE 1
    has guard_second.txt F\\0A
    # A file that could not be removed is reported, and the next run removes it.
    $ extract GRD001 1 guard_third.txt GRD001.tap
    * remove
    > REEL 1 COMPLETE
    > COMPLETE 1
    ! tape: \".tape-1.part\" could not be removed
    has guard_third.txt AB\\0A
    file fault 4$ extract GRD001 1 guard.names GRD001.tap
    * rename
    > REEL 1 COMPLETE
    has guard.names guard.tap\\0A
    0: extract GRD001 1 guard_fourth.txt GRD001.tap
    missing .tape-1.part
    # Help that could not be written is an error, and a usage error remains one.
    file fault 4$ list --help
    * full
    file fault 4$ --version
    * full
    # If the reader of the output has closed its pipe, nothing is reported.
    141$ list guard.tap --explain
    * pipe
    141$ survey guard.tap
    * pipe
    141$ list --help
    * pipe
    2$ lost
    * terminal 0
    # Arguments that are not text.
    2$ list b\\.tap
    * no_text
    ! error: a name on the command line is not valid UTF-8. Find it with
    !   ls | grep -axv '.*'
    ! and rename it, name a link to it (ln -s), or use 'tape list < NAME'
    !   word 1: \\xFFist
";

#[test]
fn nothing_is_lost(rt: HostRuntime) -> Result<(), Fail> {
    follow_in(&rt, &Tape, "guards", GUARDED)
}

/// Runs on a terminal, which shows progress. Each read of an image comes later than the pause.
const SHOWN: &str = "
    worked progress.tap progress_copy.tap
    front progress_cut.tap 2288
    $ list progress.tap
    > ..
    0: list progress.tap
    * terminal 9
    ! image 1 of 1: 0 MB<
    # An error is printed after the line was removed.
    1: list progress_cut.tap
    * terminal 9
    ! image 1 of 1: 0 MB<
    ! image 1 of 1: 0 MB<
    ! tape: image fault 1 at 1884
    !   Image: progress_cut.tap
    !   The image ends in the middle of a block: it was cut off, or the length there
    !   is wrong. All items before that block were listed. Copy it again from its
    !   source, or use 'extract' with this and other copies.
    1: list progress_cut.tap --no-explain
    * terminal 9
    ! image 1 of 1: 0 MB<
    ! image 1 of 1: 0 MB<
    ! tape: image fault 1 at 1884
    # An image that cannot be opened is counted.
    0: check lost.tap progress.tap
    * terminal 9
    ! image 2 of 2: 0 MB<
    0: extract ABC001 1 progress.txt progress.tap --now
    * terminal 9
    ! image 1 of 1: 0 MB<
    # After an error nothing more is printed.
    0: compare progress.tap progress_copy.tap
    * terminal 1
    ! image 1 of 2: 0 MB
    $ compare progress.tap progress_copy.tap
    * terminal 0
    > ..
";

#[test]
fn progress(rt: HostRuntime) -> Result<(), Fail> {
    follow_in(&rt, &Tape, "progress", SHOWN)
}
