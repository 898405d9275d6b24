//! Tests of the commands that read images or create them: files, and exit statuses.
use crate::tape::Tape;
use std::test::Fail;
use tape_tool_calls::follow_in;

const READ: &str = "
    # Command lines, and how they end.
    file fault 2: list missing.tap | list ./-
    image fault 5 at 0: list .
    worked reel.tap
    0: list reel.tap | list --offsets reel.tap
    first check1.tap
    second check2.tap
    0: check check1.tap check2.tap | check check2.tap lost.tap -- check1.tap
    3: check check1.tap | check lost.tap | check .
    2: check | check --all
    0: survey check2.tap check1.tap
    3: survey check2.tap lost.tap check1.tap | survey check1.tap
    2: survey
    # The last line of a list counts even without a line feed, and an empty line is ignored.
    put check.names check1.tap\\0A\\0Acheck2.tap
    put check.nulls check2.tap\\00
    put empty.names \\0A\\0A
    put no_text.names check1.tap\\0A\\FF\\0A
    0: check --files-from check.names | check check1.tap --null --files-from check.nulls
    3: check --files-from check.nulls --null | check check1.tap --files-from empty.names
    2: check --files-from empty.names | check check1.tap --files-from check.nulls
    2: check check1.tap --files-from no_text.names | check check1.tap --null
    file fault 2: check check1.tap --files-from lost.names
    file fault 3: check check1.tap --files-from .
";

#[test]
fn images_are_read(rt: HostRuntime) -> Result<(), Fail> {
    follow_in(&rt, &Tape, "read", READ)
}

const MERGED: &str = "
    # Two readings with different unreadable blocks make a complete image, in either order.
    damaged merge1.tap 1
    damaged merge2.tap 2
    # None of the five blocks is unreadable.
    damaged merge3.tap 5
    0: compare merge1.tap merge2.tap | merge merged.tap merge1.tap merge2.tap
    missing merged.tap.part
    0: compare merged.tap merge3.tap
    at merged.tap 676 \\90\\01\\00\\00
    0: extract ABC001 1 merged.txt merged.tap
    length merged.txt 2025
    0: merge merge_turned.tap merge2.tap merge1.tap
    0: extract ABC001 1 merge_turned.txt merge_turned.tap
    # A reading merged with itself is as good as the reading alone.
    3: merge merge_still.tap merge1.tap merge1.tap
    at merge_still.tap 676 \\01\\00\\00\\80\\00\\00\\01\\00\\00\\80
    # OUT must be a name that does not exist, whatever kind of file has the name.
    worked name1.tap
    put name2.tap
    link name3.tap nowhere
    file fault 1: merge name1.tap name1.tap name1.tap | merge name2.tap name1.tap name1.tap
    file fault 1: merge name3.tap name1.tap name1.tap
    is_worked name1.tap
    length name2.tap 0
    missing name1.tap.part
    # Readings that differ, and a reading that lost a block, compared with itself.
    worked other1.tap
    lost other2.tap
    3: compare other1.tap other2.tap | merge merge_none.tap other1.tap other2.tap
    missing merge_none.tap merge_none.tap.part
    3: merge merge_counted.tap other2.tap other2.tap
    at merge_counted.tap 4 VOL1
    # A reading that ends with a fault, and one without items.
    front cut1.tap 2000
    worked cut2.tap
    put cut3.tap
    3: merge merge_cut.tap cut1.tap cut1.tap
    length merge_cut.tap 1884
    0: merge merge_whole.tap cut1.tap cut2.tap cut3.tap
    is_worked merge_whole.tap
    # The log is a new file, too. It is created if and only if OUT is.
    damaged log1.tap 1
    damaged log2.tap 2
    worked log3.tap
    0: merge --log log.tsv logged.tap log1.tap log2.tap
    has log.tsv ITEM\\09KIND\\09log1.tap\\09log2.tap\\0A6\\09BLOCK 400\\09BAD\\09GOOD\\0A\
        7\\09BLOCK 400\\09GOOD\\09BAD\\0A
    at logged.tap 676 \\90\\01\\00\\00
    file fault 1: merge --log log.tsv log4.tap log1.tap log2.tap
    file fault 1: merge --log log1.tap log4.tap log1.tap log2.tap
    2: merge --log log4.tap log4.tap log1.tap log2.tap
    ?
    2: merge --log log1.tap ./log1.tap log1.tap log2.tap => LOG and OUT are the same file
    ?
    file fault 2: merge --log missing/log.tsv log4.tap log1.tap log2.tap
    3: merge --log log4.tsv log4.tap log1.tap log3.tap
    2: merge --log - log4.tap log1.tap log2.tap
    has log.tsv ITEM\\09KIND\\09log1.tap\\09log2.tap\\0A6\\09BLOCK 400\\09BAD\\09GOOD\\0A\
        7\\09BLOCK 400\\09GOOD\\09BAD\\0A
    missing log4.tap log4.tsv .tape-1.part .tape-2.part
    worked word1.tap
    put merge.names word1.tap\\0Aword1.tap\\0A
    put merge_lost.names word1.tap\\0Alost.tap\\0A
    2: merge | merge new1.tap | merge new1.tap word1.tap | merge - word1.tap word1.tap
    2: merge new1.tap word1.tap => two readings of the tape ('merge' takes OUT before them)
    2: compare word1.tap => at least two readings
    missing new1.tap
    file fault 2: merge new1.tap word1.tap lost.tap | merge new1.tap --files-from merge_lost.names
    file fault 2: merge missing/new1.tap word1.tap word1.tap
    missing new1.tap new1.tap.part
    0: merge new1.tap --files-from merge.names
    is_worked new1.tap
";

#[test]
fn readings_are_merged(rt: HostRuntime) -> Result<(), Fail> {
    follow_in(&rt, &Tape, "merged", MERGED)
}

const CONVERTED: &str = "
    # Images of other formats, and their SIMH images.
    put odd.e11 \\03\\00\\00\\00odd\\03\\00\\00\\00\\00\\00\\00\\00
    put one.aws \\04\\00\\00\\00\\A0\\00VOL1\\00\\00\\04\\00\\40\\00
    put told.simh \\01\\00\\00\\E0x\\00\\01\\00\\00\\E0\\00\\00\\00\\00
    0: convert odd.tap odd.e11 | convert one.tap one.aws | convert told.tap told.simh
    has odd.tap \\03\\00\\00\\00odd\\00\\03\\00\\00\\00\\00\\00\\00\\00
    has one.tap \\04\\00\\00\\00VOL1\\04\\00\\00\\00\\00\\00\\00\\00
    has told.tap \\00\\00\\00\\00
    missing .tape-1.part
    # A SIMH image is copied, and an existing file is never changed.
    worked simh.tap
    0: convert same.tap simh.tap
    is_worked same.tap
    file fault 1: convert odd.tap one.aws | convert simh.tap odd.e11 | convert odd.e11 odd.e11
    is_worked simh.tap
    # A damaged image, and a file of another kind.
    front cut.tap 2000
    put packed.gz \\1F\\8B\\08\\00\\00\\00
    image fault 1 at 1884: convert none.tap cut.tap
    image fault 1 at 0: convert none.tap packed.gz
    file fault 2: convert none.tap lost.tap | convert missing/none.tap one.aws
    2: convert | convert - one.aws | convert none.tap one.aws odd.e11 | convert none.tap -
    missing none.tap .tape-1.part
    # What is recognised can be overruled.
    image fault 2 at 0: convert none.tap odd.e11 --format simh
    0: convert again.tap odd.e11 --format e11
    has again.tap \\03\\00\\00\\00odd\\00\\03\\00\\00\\00\\00\\00\\00\\00
    # Lists read SIMH images alone; a survey reads all of these.
    image fault 2 at 0: list odd.e11 | list one.aws
    3: survey odd.e11
    !   image 1: read as an E11 image
    !   image 1: something before the first file is ignored
";

#[test]
fn images_are_converted(rt: HostRuntime) -> Result<(), Fail> {
    follow_in(&rt, &Tape, "converted", CONVERTED)
}

const EXTENDED: &str = "
    # A marker of SIMH's extended format, at byte 37,940, which the first 36,864 bytes do not show.
    late late.tap 7
    late again.tap 15
    image fault 3 at 37940: list late.tap
    3: check late.tap | extract ABC001 1 none.txt late.tap
    0: survey late.tap | survey late.tap again.tap | extract --again ABC001 1 again.txt late.tap
    length again.txt 2025
    at again.txt 0 0001
    at again.txt 810 0011
    at again.txt 1944 0025
    0: salvage ABC001 1 salvaged.txt late.tap
    0: extract --again OWN001 1 own.txt --join OWN001=ABC001 late.tap
    at salvaged.txt 1944 0025
    at own.txt 1944 0025
    folder files
    0: unpack files late.tap --manifest | unpack files late.tap --verify
    at files/ABC001.1.PAYROLL 1944 0025
    3: unpack files again.tap --verify
    | IMAGE MISSING late.tap
    # An unreadable record of the length 0 is a bad block.
    late bad.tap 8
    3: survey bad.tap
    | 1 unreadable
    # What is left of such an image.
    late cut.tap 7
    cut cut.tap 38000
    3: extract --again ABC001 1 cut.txt cut.tap
    | AWAITS 1 1 1
    0: extract --again ABC001 1 both.txt cut.tap late.tap
    # No record of the extended format: the word is not repeated.
    late damaged.tap 9
    3: survey damaged.tap
    | image fault 3 at byte 37940
";

#[test]
fn extended_images_are_read(rt: HostRuntime) -> Result<(), Fail> {
    follow_in(&rt, &Tape, "extended", EXTENDED)
}

const WRITTEN: &str = "
    0: init . ABC 2
    # A label, two tape marks and the end-of-medium marker.
    length ABC001.tap 100
    at ABC001.tap 0 P\\00\\00\\00VOL1ABC001
    at ABC001.tap 14                                                                      4P
    at ABC001.tap 84 P\\00\\00\\00\\00\\00\\00\\00\\00\\00\\00\\00\\FF\\FF\\FF\\FF
    length ./ABC002.tap 100
    at ./ABC002.tap 8 ABC002
    0: list ABC002.tap
    # No existing file is changed, and volumes that were created before the error remain.
    put OLD002.tap kept
    file fault 1: init . OLD 3
    has OLD002.tap kept
    length OLD001.tap 100
    missing OLD003.tap
    file fault 1: init . OLD 1
    2: init | init . ABC | init . ABC 0 | init . ABC 99999999999999999999 | init . ABC -1
    2: init . ABC one | init . ABC 1 2
    file fault 2: init missing ABC 1
    # The example image is written to a new file and over a blank volume, but not over a volume that
    # has files.
    records p.bin
    folder w
    0: write w ABC 100000 PAYROLL=p.bin --format F --block 800 --record 80 --form raw
    is_worked w/ABC001.tap
    missing w/ABC002.tap
    file fault 1: write w ABC 100000 PAYROLL=p.bin --format F --block 800 --record 80 --form raw
    is_worked w/ABC001.tap
    remove w/ABC001.tap
    0: init w ABC 1 | write w ABC 100000 PAYROLL=p.bin --format F --block 800 --record 80 --form raw
    is_worked w/ABC001.tap
    0: list w/ABC001.tap
    # A file that cannot be read cannot be an image to overwrite.
    put beside.txt AB\\0A
    folder TFF001.tap
    file fault 2: write . TFF 100000 A=beside.txt
    # Inputs that would be destroyed, or that are not regular files, are found before anything is
    # written.
    put apart.txt AB\\0A
    0: init . UNF 2
    link refusal.txt UNF002.tap
    2: write . UNF 100000 A=UNF001.tap --format S --form raw
    2: write ./. UNF 100000 A=apart.txt B=./UNF002.tap | write . UNF 100000 A=refusal.txt
    length UNF001.tap 100
    length UNF002.tap 100
    # A device and a directory among the images, some of which would be written before them.
    link UND003.tap /dev/null
    file fault 1: write . UND 100000 A=apart.txt
    missing UND001.tap
    folder UNO256.tap
    file fault 2: write . UNO 100000 A=apart.txt
    missing UNO001.tap
    # If a second volume is not blank, the first one is removed if it was created; otherwise it
    # remains, but is no longer blank.
    records s.bin
    put SND002.tap kept
    file fault 1: write . SND 2500 PAYROLL=s.bin --format F --block 800 --record 80 --form raw
    missing SND001.tap
    has SND002.tap kept
    0: init . SND 1
    file fault 1: write . SND 2500 PAYROLL=s.bin --format F --block 800 --record 80 --form raw
    length SND001.tap 2484
    has SND002.tap kept
    # A dry run creates nothing, and has the faults of inputs, images and the directory.
    0: write . DRY 2500 PAYROLL=s.bin --format F --block 800 --record 80 --form raw --dry-run
    missing DRY001.tap
    file fault 1: write . SND 2500 A=s.bin --format F --block 800 --record 80 --form raw --dry-run
    length SND001.tap 2484
    file fault 2: write . DRY 2500 A=missing.bin --dry-run
    file fault 2: write none DRY 9000 A=s.bin --dry-run | write s.bin DRY 9000 A=s.bin --dry-run
    0: write . DRY 1042 PAYROLL=s.bin --format S --block 18 --form raw --dry-run
    # A creation date.
    0: write . DAY 2500 A=s.bin --format F --block 800 --record 80 --form raw --date 1985-04-23
    at DAY001.tap 133  85113
    2: write . DAZ 2500 A=s.bin --date 1985-02-29 | write . DAZ 2500 A=s.bin --date 85113
    # All inputs are looked up before anything is written: first one is missing, then one is a
    # directory.
    put here.txt AB\\0A
    file fault 2: write . LKD 100000 A=here.txt B=nowhere.txt
    file fault 3: write . LKD 100000 A=here.txt B=.
    missing LKD001.tap
    # Invalid command lines of `write`.
    2: write | write . WRD 100000 | write . WRD 4294967296 A=B | write . WRD many A=B
    2: write . WRD 100000 A | write . WRD 100000 A=B C | write . WRD 100000 A=B --format F
    2: write . WRD 100000 A=B --format S --record 80 | write . WRD 100000 A=B --form raw
    2: write . WRD 100000 A=B --format X | write . WRD 100000 A=B --form blocks
    2: write . WRD 100000 A=B --block 4294967296 | write . WRD 100000 A=B --record -1
    fill nine.txt 9996 9
    fill rest.bin 81 9
    # Faults, in the order in which they are checked.
    write fault 2: write none FLT 0 a=none --pad-full --format S
    write fault 2: write none FLT 0 a=none --record 0 --format F
    label fault 6: write none FLT 0 A=none Ab=none
    label fault 7: write none FLT 0 ABCDEFGHIJKLMNOPQR=none
    file fault 2: write none FLT 0 A=none
    write fault 2: write none FLT 0 A=nine.txt --block 17 | write none FLT 0 A=nine.txt --offset 100
    write fault 3: write none FLT 3071 A=nine.txt
    file fault 2: write none FLT 100000 A=nine.txt
    write fault 4: write . FLT 100000 A=nine.txt --block 20000
    missing FLT001.tap
    write fault 4: write . FLA 100000 A=rest.bin --format F --record 80 --form raw
    missing FLA001.tap
    file fault 3: write . FLB 100000 A=.
    # A line that never ends.
    write fault 4: write . FLD 100000 A=/dev/zero
    0: write . FLC 1042 A=nine.txt --format S --block 18
";

#[test]
fn volumes_are_written(rt: HostRuntime) -> Result<(), Fail> {
    follow_in(&rt, &Tape, "written", WRITTEN)
}
