//! Tests of the record of files: `MANIFEST.jsonl` of `unpack --manifest`.
use crate::tape::Tape;
use std::test::Fail;
use tape_tool_calls::follow_in;

const RECORDED: &str = "
    # A complete file, from one image. A second run adds nothing.
    folder rec
    worked rec1.tap
    0: unpack rec rec1.tap --manifest | unpack rec rec1.tap --manifest
    has rec/MANIFEST.jsonl \
        {\"row\":\"FILE\",\"name\":\"ABC001.1.PAYROLL\",\"set\":\"ABC001\",\"file\":1,\
        \"identifier\":\"PAYROLL\",\"generation\":\"0001\",\"version\":\"00\",\"created\":null,\
        \"expires\":null,\"access\":null,\"system\":null,\"format\":\"F\",\"block\":800,\
        \"record\":80,\
        \"form\":\"lines\",\"blocks_counted\":true,\"padding\":null,\"size\":2025,\
        \"sha256\":\"0ea04722dfc11a313781113712bafecee4beb63c00c2448f7cc86ff88949bdcb\",\
        \"program\":\"0.1.0\",\"proved\":null,\"build\":null}\\0A\
        {\"row\":\"BLOCKS\",\"name\":\"ABC001.1.PAYROLL\",\"section\":1,\"block\":0,\"part\":0,\
        \"end_section\":null,\"end_block\":null,\"end_part\":null,\"image\":\"rec1.tap\",\
        \"offset\":268}\\0A\
        {\"row\":\"IMAGE\",\"image\":\"rec1.tap\",\"size\":2484,\
        \"sha256\":\"a19dd54a4de4513fbb4290d5b84043b9bf51e609fe53ab3baf4028e1f000b005\",\
        \"volume\":\"ABC001\",\"owner\":null,\"system\":null}\\0A
    missing rec/.tape-1.part rec/.tape-2.part
    # A file from two damaged images: one has blocks 0 and 1, the other one blocks 2 to 4.
    folder joined
    damaged rec2.tap 1
    damaged rec3.tap 2
    0: unpack joined rec2.tap rec3.tap --manifest --form raw
    has joined/MANIFEST.jsonl \
        {\"row\":\"FILE\",\"name\":\"ABC001.1.PAYROLL\",\"set\":\"ABC001\",\"file\":1,\
        \"identifier\":\"PAYROLL\",\"generation\":\"0001\",\"version\":\"00\",\"created\":null,\
        \"expires\":null,\"access\":null,\"system\":null,\"format\":\"F\",\"block\":400,\
        \"record\":80,\
        \"form\":\"raw\",\"blocks_counted\":true,\"padding\":null,\"size\":2000,\
        \"sha256\":\"9ca721bb0fceb366d3809a5da8042c523cf671155b6366a74de5b02d2f163684\",\
        \"program\":\"0.1.0\",\"proved\":null,\"build\":null}\\0A\
        {\"row\":\"BLOCKS\",\"name\":\"ABC001.1.PAYROLL\",\"section\":1,\"block\":0,\"part\":0,\
        \"end_section\":1,\"end_block\":2,\"end_part\":0,\"image\":\"rec3.tap\",\
        \"offset\":268}\\0A\
        {\"row\":\"BLOCKS\",\"name\":\"ABC001.1.PAYROLL\",\"section\":1,\"block\":2,\"part\":0,\
        \"end_section\":null,\"end_block\":null,\"end_part\":null,\"image\":\"rec2.tap\",\
        \"offset\":1084}\\0A\
        {\"row\":\"IMAGE\",\"image\":\"rec2.tap\",\"size\":2500,\
        \"sha256\":\"cb9687188964db738855ba386d62b001b7e858a9efc7e8285157f5e847509627\",\
        \"volume\":\"ABC001\",\"owner\":null,\"system\":null}\\0A\
        {\"row\":\"IMAGE\",\"image\":\"rec3.tap\",\"size\":2500,\
        \"sha256\":\"daf61a346b32d5f3b5ed4c59a4513114b6388172932a914eab267ae0bd4839a2\",\
        \"volume\":\"ABC001\",\"owner\":null,\"system\":null}\\0A
    # The same on three days. What an earlier day left in the stage has no image.
    folder days
    3: unpack days rec2.tap --manifest | unpack days rec2.tap --manifest
    has days/MANIFEST.jsonl \
        {\"row\":\"AWAITS\",\"name\":\"ABC001.1.PAYROLL.stage\",\"set\":\"ABC001\",\"file\":1,\
        \"identifier\":\"PAYROLL\",\"section\":1,\"block\":1,\"part\":0}\\0A\
        {\"row\":\"BLOCKS\",\"name\":\"ABC001.1.PAYROLL.stage\",\"section\":1,\"block\":0,\
        \"part\":0,\
        \"end_section\":1,\"end_block\":1,\"end_part\":0,\"image\":\"rec2.tap\",\
        \"offset\":268}\\0A\
        {\"row\":\"IMAGE\",\"image\":\"rec2.tap\",\"size\":2500,\
        \"sha256\":\"cb9687188964db738855ba386d62b001b7e858a9efc7e8285157f5e847509627\",\
        \"volume\":\"ABC001\",\"owner\":null,\"system\":null}\\0A
    3: unpack days rec3.tap --manifest
    length days/MANIFEST.jsonl 1050
    at days/MANIFEST.jsonl 450 \
        {\"row\":\"AWAITS\",\"name\":\"ABC001.1.PAYROLL.stage\",\"set\":\"ABC001\",\"file\":1,\
        \"identifier\":\"PAYROLL\",\"section\":1,\"block\":2,\"part\":0}\\0A\
        {\"row\":\"BLOCKS\",\"name\":\"ABC001.1.PAYROLL.stage\",\"section\":1,\"block\":0,\
        \"part\":0,\
        \"end_section\":1,\"end_block\":1,\"end_part\":0,\"image\":null,\
        \"offset\":null}\\0A\
        {\"row\":\"BLOCKS\",\"name\":\"ABC001.1.PAYROLL.stage\",\"section\":1,\"block\":1,\
        \"part\":0,\
        \"end_section\":1,\"end_block\":2,\"end_part\":0,\"image\":\"rec3.tap\",\
        \"offset\":676}\\0A\
        {\"row\":\"IMAGE\",\"image\":\"rec3.tap\",\"size\":2500,\
        \"sha256\":\"daf61a346b32d5f3b5ed4c59a4513114b6388172932a914eab267ae0bd4839a2\",\
        \"volume\":\"ABC001\",\"owner\":null,\"system\":null}\\0A
    0: unpack days rec2.tap --manifest --form raw
    length days/MANIFEST.jsonl 1754
    at days/MANIFEST.jsonl 1050 \
        {\"row\":\"FILE\",\"name\":\"ABC001.1.PAYROLL\",\"set\":\"ABC001\",\"file\":1,\
        \"identifier\":\"PAYROLL\",\"generation\":\"0001\",\"version\":\"00\",\"created\":null,\
        \"expires\":null,\"access\":null,\"system\":null,\"format\":\"F\",\"block\":400,\
        \"record\":80,\
        \"form\":\"raw\",\"blocks_counted\":true,\"padding\":null,\"size\":2000,\
        \"sha256\":\"9ca721bb0fceb366d3809a5da8042c523cf671155b6366a74de5b02d2f163684\",\
        \"program\":\"0.1.0\",\"proved\":null,\"build\":null}\\0A\
        {\"row\":\"BLOCKS\",\"name\":\"ABC001.1.PAYROLL\",\"section\":1,\"block\":0,\"part\":0,\
        \"end_section\":1,\"end_block\":2,\"end_part\":0,\"image\":null,\
        \"offset\":null}\\0A\
        {\"row\":\"BLOCKS\",\"name\":\"ABC001.1.PAYROLL\",\"section\":1,\"block\":2,\"part\":0,\
        \"end_section\":null,\"end_block\":null,\"end_part\":null,\"image\":\"rec2.tap\",\
        \"offset\":1084}\\0A
    # A file that exists and is recorded is not recorded again, and otherwise as if it was joined.
    0: unpack days rec2.tap rec3.tap --manifest --form raw
    length days/MANIFEST.jsonl 1754
    remove days/MANIFEST.jsonl
    0: unpack days rec2.tap rec3.tap --manifest --form raw
    has days/MANIFEST.jsonl \
        {\"row\":\"FILE\",\"name\":\"ABC001.1.PAYROLL\",\"set\":\"ABC001\",\"file\":1,\
        \"identifier\":\"PAYROLL\",\"generation\":\"0001\",\"version\":\"00\",\"created\":null,\
        \"expires\":null,\"access\":null,\"system\":null,\"format\":\"F\",\"block\":400,\
        \"record\":80,\
        \"form\":\"raw\",\"blocks_counted\":true,\"padding\":null,\"size\":2000,\
        \"sha256\":\"9ca721bb0fceb366d3809a5da8042c523cf671155b6366a74de5b02d2f163684\",\
        \"program\":\"0.1.0\",\"proved\":null,\"build\":null}\\0A\
        {\"row\":\"BLOCKS\",\"name\":\"ABC001.1.PAYROLL\",\"section\":1,\"block\":0,\"part\":0,\
        \"end_section\":1,\"end_block\":2,\"end_part\":0,\"image\":\"rec3.tap\",\
        \"offset\":268}\\0A\
        {\"row\":\"BLOCKS\",\"name\":\"ABC001.1.PAYROLL\",\"section\":1,\"block\":2,\"part\":0,\
        \"end_section\":null,\"end_block\":null,\"end_part\":null,\"image\":\"rec2.tap\",\
        \"offset\":1084}\\0A\
        {\"row\":\"IMAGE\",\"image\":\"rec2.tap\",\"size\":2500,\
        \"sha256\":\"cb9687188964db738855ba386d62b001b7e858a9efc7e8285157f5e847509627\",\
        \"volume\":\"ABC001\",\"owner\":null,\"system\":null}\\0A\
        {\"row\":\"IMAGE\",\"image\":\"rec3.tap\",\"size\":2500,\
        \"sha256\":\"daf61a346b32d5f3b5ed4c59a4513114b6388172932a914eab267ae0bd4839a2\",\
        \"volume\":\"ABC001\",\"owner\":null,\"system\":null}\\0A
    # Salvaged records.
    folder salvaged
    3: unpack salvaged rec2.tap --manifest --salvage --form raw
    length salvaged/MANIFEST.jsonl 705
    at salvaged/MANIFEST.jsonl 282 \
        {\"row\":\"SALVAGED\",\"name\":\"ABC001.1.PAYROLL.salvaged\",\"set\":\"ABC001\",\"file\":1,\
        \"identifier\":\"PAYROLL\",\"form\":\"raw\",\"blocks_counted\":true,\
        \"gaps\":\"ABC001.1.PAYROLL.gaps\",\"size\":1600,\
        \"sha256\":\"968794b4732e5d2084d0602307bd8c23910079feb925d8d8494034b7f3742905\"}\\0A
";

#[test]
fn files_are_recorded(rt: HostRuntime) -> Result<(), Fail> {
    follow_in(&rt, &Tape, "recorded_files", RECORDED)
}

const KEPT: &str = "
    # A file that is no record stays, and nothing is recovered.
    worked held.tap
    folder held1 held2
    put held1/MANIFEST.jsonl mine\\0A
    put held2.txt
    link held2/MANIFEST.jsonl ../held2.txt
    file fault 1: unpack held1 held.tap --manifest | unpack held2 held.tap --manifest
    has held1/MANIFEST.jsonl mine\\0A
    length held2.txt 0
    missing held1/ABC001.1.PAYROLL held2/ABC001.1.PAYROLL
    # No line feed at the end, no brace, and bytes that are not UTF-8.
    put held1/MANIFEST.jsonl {\"row\":\"FILE\"}
    file fault 1: unpack held1 held.tap --manifest
    put held1/MANIFEST.jsonl {\"row\":\"FILE\\0A
    file fault 1: unpack held1 held.tap --manifest
    put held1/MANIFEST.jsonl {\"row\":\"\\FF\"}\\0A
    file fault 1: unpack held1 held.tap --manifest
    missing held1/ABC001.1.PAYROLL held1/MANIFEST.sha256
    # Other lines stay before the new ones. The record cannot be replaced, and stays; the list is
    # written, and the next run adds what the record lacks.
    put held1/MANIFEST.jsonl {\"row\":\"MINE\"}\\0A
    file fault 4: unpack held1 held.tap --manifest
    * rename
    has held1/MANIFEST.jsonl {\"row\":\"MINE\"}\\0A
    length held1/MANIFEST.sha256 83
    missing held1/.tape-1.part
    0: unpack held1 held.tap --manifest
    at held1/MANIFEST.jsonl 0 {\"row\":\"MINE\"}\\0A{\"row\":\"FILE\",\"name\":\"ABC001.1.PAYROLL\",
    length held1/MANIFEST.jsonl 744
    # With --list, and without --manifest, nothing is recorded.
    folder held3
    0: unpack held3 held.tap --manifest --list | unpack held3 held.tap
    missing held3/MANIFEST.jsonl
";

#[test]
fn records_are_kept(rt: HostRuntime) -> Result<(), Fail> {
    follow_in(&rt, &Tape, "kept_records", KEPT)
}

const ONE_OUTPUT: &str = "
    # The record of one output, from two damaged images: the second one is read first.
    damaged one1.tap 1
    damaged one2.tap 2
    0: extract ABC001 1 one.txt one1.tap one2.tap --again --form raw --provenance one.jsonl
    has one.jsonl \
        {\"row\":\"FILE\",\"name\":\"one.txt\",\"set\":\"ABC001\",\"file\":1,\
        \"identifier\":\"PAYROLL\",\"generation\":\"0001\",\"version\":\"00\",\"created\":null,\
        \"expires\":null,\"access\":null,\"system\":null,\"format\":\"F\",\"block\":400,\
        \"record\":80,\"form\":\"raw\",\"blocks_counted\":true,\"padding\":null,\"size\":2000,\
        \"sha256\":\"9ca721bb0fceb366d3809a5da8042c523cf671155b6366a74de5b02d2f163684\",\
        \"program\":\"0.1.0\",\"proved\":null,\"build\":null}\\0A\
        {\"row\":\"BLOCKS\",\"name\":\"one.txt\",\"section\":1,\"block\":0,\"part\":0,\
        \"end_section\":1,\"end_block\":2,\"end_part\":0,\"image\":\"one2.tap\",\
        \"offset\":268}\\0A\
        {\"row\":\"BLOCKS\",\"name\":\"one.txt\",\"section\":1,\"block\":2,\"part\":0,\
        \"end_section\":null,\"end_block\":null,\"end_part\":null,\"image\":\"one1.tap\",\
        \"offset\":1084}\\0A\
        {\"row\":\"IMAGE\",\"image\":\"one1.tap\",\"size\":2500,\
        \"sha256\":\"cb9687188964db738855ba386d62b001b7e858a9efc7e8285157f5e847509627\",\
        \"volume\":\"ABC001\",\"owner\":null,\"system\":null}\\0A\
        {\"row\":\"IMAGE\",\"image\":\"one2.tap\",\"size\":2500,\
        \"sha256\":\"daf61a346b32d5f3b5ed4c59a4513114b6388172932a914eab267ae0bd4839a2\",\
        \"volume\":\"ABC001\",\"owner\":null,\"system\":null}\\0A
    # An existing record stays, and nothing is recovered. So it is if the record would be OUT.
    put mine.jsonl mine
    file fault 1: extract ABC001 1 no.txt one1.tap one2.tap --again --provenance mine.jsonl
    file fault 1: salvage ABC001 1 no.txt one1.tap --provenance mine.jsonl
    has mine.jsonl mine
    file fault 2: salvage ABC001 1 no.txt one1.tap --provenance nowhere/no.jsonl
    2: extract ABC001 1 no.txt one1.tap --provenance no.jsonl => --provenance needs --again
    2: extract ABC001 1 no.txt one1.tap --again --provenance ./no.txt => is OUT or the stage
    2: salvage ABC001 1 no.txt one1.tap --provenance - => standard output
    2: salvage ABC001 1 no.txt one1.tap --provenance no/ => a directory
    missing no.txt no.jsonl nowhere
    # Of an incomplete file the stage is recorded, and nothing without one.
    3: extract ABC001 1 no.txt one1.tap --again --provenance no.jsonl
    missing no.txt no.jsonl
    3: extract ABC001 1 no.txt one1.tap --again --stage one.stage --provenance stage.jsonl
    has stage.jsonl \
        {\"row\":\"AWAITS\",\"name\":\"one.stage\",\"set\":\"ABC001\",\"file\":1,\
        \"identifier\":\"PAYROLL\",\"section\":1,\"block\":1,\"part\":0}\\0A\
        {\"row\":\"BLOCKS\",\"name\":\"one.stage\",\"section\":1,\"block\":0,\"part\":0,\
        \"end_section\":1,\"end_block\":1,\"end_part\":0,\"image\":\"one1.tap\",\
        \"offset\":268}\\0A\
        {\"row\":\"IMAGE\",\"image\":\"one1.tap\",\"size\":2500,\
        \"sha256\":\"cb9687188964db738855ba386d62b001b7e858a9efc7e8285157f5e847509627\",\
        \"volume\":\"ABC001\",\"owner\":null,\"system\":null}\\0A
    # What salvage writes and prints, and with another image what fills its gap.
    3: salvage ABC001 1 part.txt one1.tap --provenance part.jsonl
    has part.jsonl \
        {\"row\":\"SALVAGED\",\"name\":\"part.txt\",\"set\":\"ABC001\",\"file\":1,\
        \"identifier\":\"PAYROLL\",\"form\":\"lines\",\"blocks_counted\":true,\"gaps\":null,\
        \"size\":1620,\
        \"sha256\":\"ab6db134842b1a0f4e16fcf07818c4aede0685cd639d8cd792dd1b7dfd493a84\"}\\0A\
        {\"row\":\"BLOCKS\",\"name\":\"part.txt\",\"section\":1,\"block\":0,\"part\":0,\
        \"end_section\":1,\"end_block\":5,\"end_part\":0,\"image\":\"one1.tap\",\
        \"offset\":268}\\0A\
        {\"row\":\"LINE\",\"name\":\"part.txt\",\"line\":\"SECTION 1 1 5\"}\\0A\
        {\"row\":\"LINE\",\"name\":\"part.txt\",\"line\":\"GAP 1 1 1 5\"}\\0A\
        {\"row\":\"LINE\",\"name\":\"part.txt\",\"line\":\"SALVAGED 20\"}\\0A\
        {\"row\":\"IMAGE\",\"image\":\"one1.tap\",\"size\":2500,\
        \"sha256\":\"cb9687188964db738855ba386d62b001b7e858a9efc7e8285157f5e847509627\",\
        \"volume\":\"ABC001\",\"owner\":null,\"system\":null}\\0A
    0: salvage ABC001 1 full.txt one1.tap one2.tap --provenance full.jsonl
    has full.jsonl \
        {\"row\":\"FILE\",\"name\":\"full.txt\",\"set\":\"ABC001\",\"file\":1,\
        \"identifier\":\"PAYROLL\",\"generation\":\"0001\",\"version\":\"00\",\"created\":null,\
        \"expires\":null,\"access\":null,\"system\":null,\"format\":\"F\",\"block\":400,\
        \"record\":80,\"form\":\"lines\",\"blocks_counted\":true,\"padding\":null,\"size\":2025,\
        \"sha256\":\"0ea04722dfc11a313781113712bafecee4beb63c00c2448f7cc86ff88949bdcb\",\
        \"program\":\"0.1.0\",\"proved\":null,\"build\":null}\\0A\
        {\"row\":\"BLOCKS\",\"name\":\"full.txt\",\"section\":1,\"block\":0,\"part\":0,\
        \"end_section\":1,\"end_block\":1,\"end_part\":0,\"image\":\"one1.tap\",\
        \"offset\":268}\\0A\
        {\"row\":\"BLOCKS\",\"name\":\"full.txt\",\"section\":1,\"block\":1,\"part\":0,\
        \"end_section\":1,\"end_block\":2,\"end_part\":0,\"image\":\"one2.tap\",\
        \"offset\":676}\\0A\
        {\"row\":\"BLOCKS\",\"name\":\"full.txt\",\"section\":1,\"block\":2,\"part\":0,\
        \"end_section\":1,\"end_block\":5,\"end_part\":0,\"image\":\"one1.tap\",\
        \"offset\":1084}\\0A\
        {\"row\":\"LINE\",\"name\":\"full.txt\",\"line\":\"FILLED 1 2 1 1\"}\\0A\
        {\"row\":\"LINE\",\"name\":\"full.txt\",\"line\":\"SECTION 1 1 5\"}\\0A\
        {\"row\":\"LINE\",\"name\":\"full.txt\",\"line\":\"COMPLETE 25\"}\\0A\
        {\"row\":\"IMAGE\",\"image\":\"one1.tap\",\"size\":2500,\
        \"sha256\":\"cb9687188964db738855ba386d62b001b7e858a9efc7e8285157f5e847509627\",\
        \"volume\":\"ABC001\",\"owner\":null,\"system\":null}\\0A\
        {\"row\":\"IMAGE\",\"image\":\"one2.tap\",\"size\":2500,\
        \"sha256\":\"daf61a346b32d5f3b5ed4c59a4513114b6388172932a914eab267ae0bd4839a2\",\
        \"volume\":\"ABC001\",\"owner\":null,\"system\":null}\\0A
";

#[test]
fn one_output_is_recorded(rt: HostRuntime) -> Result<(), Fail> {
    follow_in(&rt, &Tape, "one_output", ONE_OUTPUT)
}
