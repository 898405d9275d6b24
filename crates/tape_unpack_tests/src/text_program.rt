//! Tests of the option `--text` of the commands that write records.
use crate::tape::Tape;
use std::test::Fail;
use tape_tool_calls::follow_in;

const TRANSLATED: &str = "
    # In code page 037: HELLO, an empty record, and a third one. Its bytes 5F, 51 and 25 are the
    # characters AC, E9 and 0A of ISO 8859-1.
    put ebcdic.txt \\C8\\C5\\D3\\D3\\D6\\0A\\0A\\5F\\51\\25\\0A
    0: write . EBC 100000 HELLO=ebcdic.txt --format D
    0: extract --text EBC001 1 lines.out EBC001.tap
    has lines.out HELLO\\0A\\0A\\AC\\E9\\0A\\0A
    0: extract --text --form raw EBC001 1 raw.out EBC001.tap --again
    has raw.out HELLO\\AC\\E9\\0A
    0: extract --text --form counted EBC001 1 counted.out EBC001.tap
    has counted.out \\00\\00\\00\\05HELLO\\00\\00\\00\\00\\00\\00\\00\\03\\AC\\E9\\0A
    0: salvage --text EBC001 1 salvaged.out EBC001.tap
    has salvaged.out HELLO\\0A\\0A\\AC\\E9\\0A\\0A
    # Without the option nothing is translated.
    0: extract EBC001 1 plain.out EBC001.tap
    has plain.out \\C8\\C5\\D3\\D3\\D6\\0A\\0A\\5F\\51\\25\\0A
    # A stage has the data of the tape.
    0: extract --text --stage ebcdic.stage EBC001 1 staged.out EBC001.tap
    has staged.out HELLO\\0A\\0A\\AC\\E9\\0A\\0A
    0: stage --form raw ebcdic.stage raw_stage.out
    has raw_stage.out \\C8\\C5\\D3\\D3\\D6\\5F\\51\\25
    # A record in several blocks, on two volumes.
    fill long.bin 812 \\C1
    0: write . LNG 1200 LONG=long.bin --format S --block 100 --form raw
    0: extract --text LNG001 1 long.out LNG001.tap LNG002.tap
    length long.out 813
    at long.out 810 AA\\0A
";

#[test]
fn records_are_translated(rt: HostRuntime) -> Result<(), Fail> {
    follow_in(&rt, &Tape, "translated", TRANSLATED)
}

const UNPACKED: &str = "
    # HELLO WORLD in code page 037, which is text only as it is translated.
    put words.txt \\C8\\C5\\D3\\D3\\D6\\40\\E6\\D6\\D9\\D3\\C4\\0A
    0: write . WRD 100000 WORDS=words.txt --format D
    folder files chosen plain spans
    $ unpack files WRD001.tap --text --manifest
    > FILE WRD001 1 COMPLETE 1 files/WRD001.1.WORDS
    > TOTAL 1 complete 0 existing 0 incomplete 0 in conflict 0 not found 0 failed
    has files/WRD001.1.WORDS HELLO WORLD\\0A
    # The existing file is compared as it would be written, or as it was according to its record.
    0: unpack files WRD001.tap --text
    | FILE WRD001 1 EXISTS files/WRD001.1.WORDS
    3: unpack files WRD001.tap
    | FILE WRD001 1 DIFFERENT files/WRD001.1.WORDS
    0: unpack --verify files WRD001.tap
    | FILE WRD001 1 EXISTS files/WRD001.1.WORDS
    # The form for translated records.
    0: unpack chosen WRD001.tap --text --form auto
    | FILE WRD001 1 COMPLETE 1 lines chosen/WRD001.1.WORDS
    has chosen/WRD001.1.WORDS HELLO WORLD\\0A
    0: unpack plain WRD001.tap --form auto
    | FILE WRD001 1 COMPLETE 1 raw plain/WRD001.1.WORDS
    # The stage of a file that is then complete is compared with it, and removed.
    fill long.bin 812 \\C1
    0: write . LNG 1200 LONG=long.bin --format S --block 100 --form raw
    3: unpack spans LNG001.tap --text
    | AWAITS
    0: unpack spans LNG001.tap LNG002.tap --text
    length spans/LNG001.1.LONG 813
    at spans/LNG001.1.LONG 810 AA\\0A
    missing spans/LNG001.1.LONG.stage
    # A stage with other data of an unfinished record is kept, in each form.
    folder kept kept_counted others
    fill other.bin 812 \\C2
    0: write others LNG 1200 LONG=other.bin --format S --block 100 --form raw
    3: unpack kept LNG001.tap --text
    0: unpack kept others/LNG001.tap others/LNG002.tap --text
    | FILE LNG001 1 STAGE KEPT kept/LNG001.1.LONG.stage
    3: unpack kept_counted LNG001.tap --form counted
    0: unpack kept_counted others/LNG001.tap others/LNG002.tap --form counted
    | FILE LNG001 1 STAGE KEPT kept_counted/LNG001.1.LONG.stage
    # Salvaged records, and a file from two damaged copies.
    damaged part.tap 1
    damaged rest.tap 2
    folder parts
    3: unpack parts part.tap --text --salvage
    | FILE ABC001 1 SALVAGED 20 parts/ABC001.1.PAYROLL.salvaged
    length parts/ABC001.1.PAYROLL.salvaged 1620
    0: unpack parts part.tap rest.tap --text
    # The ASCII digits 0 and 1 are the control characters 90 and 91.
    at parts/ABC001.1.PAYROLL 0 \\90\\90\\90\\91
    length parts/ABC001.1.PAYROLL 2025
    missing parts/ABC001.1.PAYROLL.stage parts/ABC001.1.PAYROLL.salvaged
";

#[test]
fn unpacked_files_are_translated(rt: HostRuntime) -> Result<(), Fail> {
    follow_in(&rt, &Tape, "translated_files", UNPACKED)
}
