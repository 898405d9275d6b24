//! Tests of `stage`, of stages of `extract`, and of two runs that use one stage.
use crate::tape::Tape;
use std::fs::File;
use std::test::Fail;
use tape_label::Field;
use tape_stage::{MemoryDisk, StageFault};
use tape_tool::{StagingFault, open_session};
use tape_tool_calls::{follow, follow_in};

const SHOWN: &str = "
    damaged shown.tap 3
    3: extract ABC001 1 shown.txt shown.tap --stage shown.stage
    # For an intact stage, the lines are the same with and without `--damaged`.
    3$ stage shown.stage shown_first.txt | stage shown.stage --damaged
    > STAGE ABC001 1 15
    > AWAITS 1 1 3
    length shown_first.txt 1215
    at shown_first.txt 1134 0015 \\20
    3: stage shown.stage shown_raw.txt --form raw
    length shown_raw.txt 1200
    # The stage is unchanged, and a file that might be a tape is never overwritten.
    length shown.stage 1531
    2: stage shown.stage shown.stage | stage shown.stage one.txt two.txt | stage shown.stage -
    file fault 1: stage shown.stage shown.tap
    stage fault 1: stage shown.tap
    file fault 2: stage lost.stage
    length shown.stage 1531
    missing lost.stage
    # A stage without records, and one that is complete and then loses its end.
    damaged torn.tap 0
    3: extract ABC001 1 torn.txt torn.tap --stage torn.stage
    3$ stage torn.stage torn.txt
    > STAGE ABC001 1 0
    > AWAITS 1 1 0
    length torn.txt 0
    damaged torn.tap 9
    0: extract ABC001 1 torn.all torn.tap --stage torn.stage
    $ stage torn.stage torn.txt | stage torn.stage whole.txt --damaged
    > STAGE ABC001 1 25
    > COMPLETE 25
    length torn.txt 2025
    length whole.txt 2025
    cut torn.stage 2380
    stage fault 2: stage torn.stage
    3$ stage torn.stage torn.txt --damaged
    > STAGE ABC001 1 24
    > TRUNCATED AT 2296
    length torn.txt 1944
    cut torn.stage 1300
    3$ stage torn.stage torn.txt --damaged
    > STAGE ABC001 1 12
    > TRUNCATED AT 1276
    length torn.txt 972
    cut torn.stage 1276
    3$ stage torn.stage torn.txt --damaged
    > STAGE ABC001 1 12
    > TRUNCATED AT 1276
    length torn.txt 972
    cut torn.stage 256
    3$ stage torn.stage torn.txt --damaged
    > STAGE ABC001 1 0
    > TRUNCATED AT 256
    length torn.txt 0
";

/// A run whose stage another run is using.
const SECOND: &str = "
    stage fault 7$ extract ABC001 1 second.txt shown.tap --stage shown.stage --explain
    !   Stage: shown.stage
    !   Another run is using this stage. It was neither read nor changed.
    !   Wait until that run has finished.
    # The files of the other run are unchanged.
    length shown.stage 1531
    missing second.txt
";

#[test]
fn stages_are_shown(rt: HostRuntime) -> Result<(), Fail> {
    follow_in(&rt, &Tape, "shown", SHOWN)?;
    let first = File::open(&rt, "shown.stage")?;
    // A run that only shows the stage excludes others too.
    first.lock_shared()?;
    follow(&rt, &Tape, SECOND)?;
    first.lock()?;
    follow(&rt, &Tape, SECOND)?;
    follow(&rt, &Tape, "stage fault 7: stage shown.stage")?;
    drop(first);
    follow(
        &rt,
        &Tape,
        "3: extract ABC001 1 second.txt shown.tap --stage shown.stage",
    )
}

#[test]
fn a_disk_that_fails(rt: HostRuntime) -> Result<(), Fail> {
    let notes = b"notes of another kind".as_slice();
    let mut disk = MemoryDisk::from_bytes(rt.alloc(), notes.to_vec(rt.alloc())?);
    for calls in 0..3 {
        disk.stop_after(calls);
        let Err(refused) = open_session(rt.alloc(), disk, Field::of_bytes(*b"ABC001"), 1) else {
            return Err(Fail::from("a session over a disk that fails"));
        };
        let is_told = refused.fault == StagingFault::Stage(StageFault::Device);
        assert!(rt; is_told, "{calls}");
        disk = refused.disk;
    }
    Ok(())
}

const STAGED: &str = "
    damaged monday.tap 3
    damaged tuesday.tap 1
    3$ extract ABC001 1 days.txt monday.tap --stage days.stage
    > REEL 1 BAD ITEM
    > AWAITS 1 1 3
    length days.stage 1531
    missing .tape-1.part
    0: extract ABC001 1 days.txt tuesday.tap --stage days.stage
    length days.stage 2381
    # The frames are in the order of the records: a span, a length, and 80 bytes.
    at days.stage 256 0\\00\\00\\00P0001 \\20
    at days.stage 1531 0\\00\\00\\00P0016 \\20
    at days.stage 2296 0\\00\\00\\00P0025 \\20
    length days.txt 2025
    at days.txt 1944 0025 \\20
    # With a complete stage no image is read.
    0: extract ABC001 1 days_again.txt lost.tap --stage days.stage
    length days_again.txt 2025
    # A stage of the file at its start, and complete: `D` means done; the record format and the
    # record length follow.
    worked once.tap
    3: extract ABC001 1 once.txt lost.tap --stage once.stage
    length once.stage 256
    at once.stage 0 O000000000000001TPCK2ABC001
    at once.stage 128 C000000000000000
    0: extract ABC001 1 once.txt once.tap --stage once.stage
    length once.stage 2381
    at once.stage 0 O000000000000001TPCK2ABC001
    at once.stage 128 O000000000000002TPCK2ABC001
    at once.stage 178 D01F00080
    # A reel that lost a block, before a good reel and alone: none of its data is in the stage.
    lost doubt.tap
    worked sure.tap
    3: extract ABC001 1 doubt.txt doubt.tap --stage doubt.stage
    length doubt.stage 256
    missing doubt.txt
    0: extract ABC001 1 doubt.txt doubt.tap sure.tap --stage doubt.stage
    length doubt.stage 2381
    length doubt.txt 2025
    at doubt.txt 810 0011 \\20
    # A stage of file 1 of the set ABC001, and files that are not stages: all are unchanged.
    damaged refused.tap 3
    3: extract ABC001 1 refused.txt refused.tap --stage refused.stage
    run fault 5: extract ABC001 2 refused.txt refused.tap --stage refused.stage
    run fault 5: extract ABC00 1 refused.txt refused.tap --stage refused.stage
    length refused.tap 2500
    stage fault 1: extract ABC001 1 refused.txt refused.tap --stage refused.tap
    length refused.tap 2500
    file fault 2: extract ABC001 1 refused.txt refused.tap --stage missing/a.stage
    missing refused.txt
    # The stage cannot be OUT.
    length refused.stage 1531
    2: extract ABC001 1 refused.stage refused.tap --stage refused.stage
    2: extract ABC001 1 refused.stage refused.tap --stage ./refused.stage
    file fault 1: extract ABC001 1 refused.stage refused.tap
    length refused.stage 1531
    2: extract ABC001 1 new.stage refused.tap --stage new.stage
    2: extract ABC001 1 ./new.stage refused.tap --stage new.stage
    missing new.stage
    # The remains of an unfinished new stage, for example after the disk was full, and a file that
    # might be a user's.
    worked unmade.tap
    put unmade.stage C
    0: extract ABC001 1 unmade.txt unmade.tap --stage unmade.stage
    length unmade.stage 2381
    put unmade.stage C000000000000001TPCK2ABC001
    0: extract ABC001 1 unmade.txt unmade.tap --stage unmade.stage
    length unmade.stage 2381
    fill unmade.stage 256 \\00
    0: extract ABC001 1 unmade.txt unmade.tap --stage unmade.stage
    length unmade.stage 2381
    fill unmade.stage 257 \\00
    stage fault 1: extract ABC001 1 unmade.txt unmade.tap --stage unmade.stage
    length unmade.stage 257
    put unmade.stage C000000000000001TPCK2ABC002
    stage fault 1: extract ABC001 1 unmade.txt unmade.tap --stage unmade.stage
    put unmade.stage O00
    stage fault 1: extract ABC001 1 unmade.txt unmade.tap --stage unmade.stage
    put unmade.stage Contents
    stage fault 1: extract ABC001 1 unmade.txt unmade.tap --stage unmade.stage
    has unmade.stage Contents
    # A file with the name of an unfinished output, which would be removed, is no argument.
    worked .tape-1.part
    2: extract ABC001 1 part.txt .tape-1.part | salvage ABC001 1 part.txt .tape-1.part
    2: extract ABC001 1 part.txt lost.tap --files-from .tape-1.part
    2: salvage ABC001 1 part.txt --files-from .tape-1.part | unpack . --files-from .tape-1.part
    2: merge part.tap ./.tape-1.part worked.tap | unpack . .tape-1.part
    2: extract ABC001 1 .tape-1.part unmade.tap | stage refused.stage .tape-1.part
    is_worked .tape-1.part
    missing part.txt part.tap
";

#[test]
fn stages_and_outputs(rt: HostRuntime) -> Result<(), Fail> {
    follow_in(&rt, &Tape, "staged", STAGED)
}
