//! Tests of `unpack --manifest` and `unpack --verify`. In the scripts `@` and a letter represent
//! a checksum.
use crate::tape::Tape;
use std::alloc::{AllocError, Global};
use std::test::Fail;
use tape_tool_calls::follow_in;

/// Returns a checksum as `sha256sum` prints it: of the example file as lines (L) and raw (R), of
/// `A` and a line feed (A), of two lines `B` (B), and of `x` (X), this one in capital digits, too
/// (Y).
fn sum_of(letter: &str) -> &'static str {
    match letter {
        "L" => "0ea04722dfc11a313781113712bafecee4beb63c00c2448f7cc86ff88949bdcb",
        "R" => "9ca721bb0fceb366d3809a5da8042c523cf671155b6366a74de5b02d2f163684",
        "A" => "06f961b802bc46ee168555f066d28f4f0e9afdf3f88174c1ee6f9de004fc30a0",
        "B" => "d0911dff01224e94acecdf9de4ea7d7cff4d837c230fc359d1be188b09d1fb02",
        "X" => "2d711642b726b04401627ca9fbac32f5c8530fb1903cc4db02258717921a4881",
        _ => "2D711642B726B04401627CA9FBAC32F5C8530FB1903CC4DB02258717921A4881",
    }
}

/// Returns a script with its checksums.
fn with_sums(alloc: Global, script: &str) -> Result<String, AllocError> {
    let mut text = String::new(alloc);
    for (number, piece) in script.split('@').enumerate() {
        let mut rest = piece;
        if let (Some(letter), Some(after)) = (piece.get(..1), piece.get(1..))
            && number > 0
        {
            text.push_str(sum_of(letter))?;
            rest = after;
        }
        text.push_str(rest)?;
    }
    Ok(text)
}

const LISTED: &str = "
    # An incomplete file is not listed. The list has the checksum of a complete one.
    folder listed
    damaged listed1.tap 9
    damaged listed2.tap 1
    damaged listed3.tap 2
    3: unpack listed listed2.tap --manifest --salvage
    missing listed/MANIFEST.sha256
    0: unpack listed/ listed1.tap --manifest
    length listed/ABC001.1.PAYROLL 2025
    has listed/MANIFEST.sha256 @L  ABC001.1.PAYROLL\\0A
    missing listed/.tape-1.part
    # A file that two damaged copies complete.
    folder joined
    0: unpack joined listed2.tap listed3.tap --manifest --form raw
    has joined/MANIFEST.sha256 @R  ABC001.1.PAYROLL\\0A
    # Later runs keep the lines of other files. A file that existed gets a line if it is equal.
    put listed_a.txt A\\0A
    put listed_b.txt B\\0AB\\0A
    0: write . SUM 100000 ONE=listed_a.txt TWO=listed_b.txt THREE=listed_a.txt
    put joined/SUM001.2.TWO kept
    3: unpack joined SUM001.tap --manifest --file 2
    has joined/MANIFEST.sha256 @R  ABC001.1.PAYROLL\\0A
    put joined/SUM001.2.TWO B\\0AB\\0A
    0: unpack joined SUM001.tap --manifest --file 1 --file 2
    length joined/MANIFEST.sha256 241
    at joined/MANIFEST.sha256 0 @R  ABC001.1.PAYROLL\\0A@A  SUM001.1.ONE\\0A
    at joined/MANIFEST.sha256 162 @B  SUM001.2.TWO\\0A
    # Only the line of a file that the run wrote is replaced.
    put joined/SUM001.1.ONE changed
    remove joined/ABC001.1.PAYROLL
    3: unpack joined SUM001.tap listed1.tap --manifest
    length joined/MANIFEST.sha256 322
    at joined/MANIFEST.sha256 0 @L  ABC001.1.PAYROLL\\0A@A  SUM001.1.ONE\\0A
    at joined/MANIFEST.sha256 162 @B  SUM001.2.TWO\\0A@A  SUM001.3.THREE\\0A
    # Without the option nothing is listed, nor with --list.
    folder unlisted
    0: unpack unlisted SUM001.tap --manifest --list | unpack unlisted SUM001.tap
    missing unlisted/MANIFEST.sha256
    # The files are checked against the list.
    $ unpack --verify listed/
    > TOTAL 1 agree 0 differ 0 missing 0 not read
    3$ unpack --verify joined
    > DIFFERS SUM001.1.ONE
    > TOTAL 3 agree 1 differ 0 missing 0 not read
    remove joined/SUM001.2.TWO
    folder joined/SUM001.2.TWO
    remove joined/SUM001.3.THREE
    3$ unpack --verify joined
    > DIFFERS SUM001.1.ONE
    > NOT READ SUM001.2.TWO
    > MISSING SUM001.3.THREE
    > TOTAL 1 agree 1 differ 1 missing 1 not read
    3$ unpack --verify joined
    > NOT READ ABC001.1.PAYROLL
    > DIFFERS SUM001.1.ONE
    > NOT READ SUM001.2.TWO
    > MISSING SUM001.3.THREE
    > TOTAL 0 agree 1 differ 1 missing 2 not read
    * open joined/ABC001.1.PAYROLL denied
    # There is no list, it is empty, or it is none.
    file fault 2: unpack --verify unlisted | unpack --verify lost
    put unlisted/MANIFEST.sha256
    3$ unpack --verify unlisted
    > TOTAL 0 agree 0 differ 0 missing 0 not read
    put unlisted/MANIFEST.sha256 mine
    file fault 3: unpack --verify unlisted
    file fault 4: unpack --verify listed
    * full
    2: unpack --verify | unpack --verify ''
    2: unpack --verify listed --set ABC001 => --verify recovers nothing
    2: unpack --verify listed --file 1 | unpack --verify listed listed1.tap --list
    2: unpack --verify listed --manifest | unpack --verify listed listed1.tap --salvage
    file fault 2: unpack --verify listed --files-from lost
";

#[test]
fn checksums_are_listed(rt: HostRuntime) -> Result<(), Fail> {
    follow_in(
        &rt,
        &Tape,
        "listed_files",
        with_sums(rt.alloc(), LISTED)?.as_str(),
    )
}

const KEPT: &str = "
    # A list that is none stays, and nothing is recovered.
    worked kept.tap
    folder kept1 kept2 kept3
    put kept1/MANIFEST.sha256 mine
    put kept2.txt mine
    link kept2/MANIFEST.sha256 ../kept2.txt
    folder kept3/MANIFEST.sha256
    file fault 1: unpack kept1 kept.tap --manifest | unpack kept2 kept.tap --manifest
    file fault 1: unpack kept3 kept.tap --manifest
    has kept1/MANIFEST.sha256 mine
    has kept2.txt mine
    missing kept1/ABC001.1.PAYROLL kept2/ABC001.1.PAYROLL kept3/ABC001.1.PAYROLL
    # Without the option it does no harm.
    0: unpack kept1 kept.tap
    has kept1/MANIFEST.sha256 mine
    # No name, no line feed at the end, an empty line, one space, a mode, capital digits, one name
    # twice, a name that needs no escape, and one that is not UTF-8.
    remove kept1/ABC001.1.PAYROLL
    put kept1/MANIFEST.sha256 @X  \\0A
    file fault 1: unpack kept1 kept.tap --manifest
    put kept1/MANIFEST.sha256 @X  x
    file fault 1: unpack kept1 kept.tap --manifest
    put kept1/MANIFEST.sha256 \\0A@X  x\\0A
    file fault 1: unpack kept1 kept.tap --manifest
    put kept1/MANIFEST.sha256 @X x\\0A
    file fault 1: unpack kept1 kept.tap --manifest
    put kept1/MANIFEST.sha256 @X *x\\0A
    file fault 1: unpack kept1 kept.tap --manifest
    put kept1/MANIFEST.sha256 @Y  x\\0A
    file fault 1: unpack kept1 kept.tap --manifest
    put kept1/MANIFEST.sha256 @X  x\\0A@X  x\\0A
    file fault 1: unpack kept1 kept.tap --manifest
    put kept1/MANIFEST.sha256 \\5C@X  x\\0A
    file fault 1: unpack kept1 kept.tap --manifest
    put kept1/MANIFEST.sha256 @X  x\\FF\\0A
    file fault 1: unpack kept1 kept.tap --manifest
    missing kept1/ABC001.1.PAYROLL
    # The lines of other programs stay, also with names that have escapes.
    put kept1/x\\y x
    put kept1/MANIFEST.sha256 \\5C@X  x\\5C\\5Cy\\0A
    0: unpack kept1 kept.tap --manifest
    at kept1/MANIFEST.sha256 0 \\5C@X  x\\5C\\5Cy\\0A@L
    $ unpack --verify kept1
    > TOTAL 2 agree 0 differ 0 missing 0 not read
    put kept1/MANIFEST.sha256 \\5C@X  y\\5C\\5Cx\\5Cn\\0A
    3$ unpack --verify kept1
    > MISSING y\\\\x\\u000A
    > TOTAL 0 agree 0 differ 1 missing 0 not read
    # A full disk or a closed pipe for the output: the files and their list are written.
    folder full
    file fault 4: unpack full kept.tap --manifest
    * full
    length full/MANIFEST.sha256 83
    # The list cannot be replaced, and stays. The next run adds what it lacks.
    put kept_a.txt A\\0A
    0: write . KEP 100000 ONE=kept_a.txt
    file fault 4: unpack full KEP001.tap --manifest
    * rename
    length full/MANIFEST.sha256 83
    has full/KEP001.1.ONE A\\0A
    missing full/.tape-1.part
    0: unpack full KEP001.tap --manifest
    length full/MANIFEST.sha256 162
    at full/MANIFEST.sha256 83 @A
    # A list that appears meanwhile, or is changed, stays.
    folder come
    file fault 1: unpack come KEP001.tap --manifest
    * comes come/.tape-1.part come/MANIFEST.sha256
    has come/MANIFEST.sha256 mine
    remove full/KEP001.1.ONE
    file fault 1: unpack full KEP001.tap --manifest
    * comes full/.tape-1.part full/MANIFEST.sha256
    has full/MANIFEST.sha256 mine
    # It cannot be looked up or opened; a file that exists cannot be read.
    folder held
    put held/KEP001.1.ONE kept
    file fault 2: unpack held KEP001.tap --manifest
    * look held/MANIFEST.sha256 stale
    file fault 2: unpack full kept.tap --manifest
    * open full/MANIFEST.sha256 denied
    file fault 2: unpack held KEP001.tap kept.tap --manifest
    | FILE KEP001 1 FAILED file fault 2 held/KEP001.1.ONE
    * open held/KEP001.1.ONE denied
    length held/MANIFEST.sha256 83
    at held/MANIFEST.sha256 0 @L  ABC001.1.PAYROLL\\0A
    file fault 2: unpack --verify full
    * look full/MANIFEST.sha256 stale
";

#[test]
fn lists_are_kept(rt: HostRuntime) -> Result<(), Fail> {
    follow_in(
        &rt,
        &Tape,
        "kept_lists",
        with_sums(rt.alloc(), KEPT)?.as_str(),
    )
}
