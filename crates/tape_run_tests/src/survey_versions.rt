//! Tests of surveys of files whose labels state another version than the first.
use crate::sections::one_section;
use crate::survey::survey;
use std::test::Fail;

/// The generation and its version in HDR1, the system that wrote it, and the words about the
/// version. OpenVMS records version N of a file as generation (N - 1) / 100 + 1, with version
/// (N - 1) modulo 100.
const VERSIONS: &[(&str, &str, &str)] = &[
    ("000100", "", ""),
    ("000000", "", ""),
    ("      ", "", ""),
    ("000300", "", ", generation 3"),
    ("000102", "", ", generation 1 version 2"),
    ("000100", "DECFILE11A", ""),
    ("000102", "DECFILE11A", ", version 3"),
    ("000201", "DECFILE11A", ", version 102"),
];

#[test]
fn versions_are_told(rt: HostRuntime) -> Result<(), Fail> {
    for (version, system, words) in VERSIONS {
        let fields = format!(in rt.alloc(); "1PAYROLL          ABC00100010001{version}")?;
        let header = format!(in rt.alloc(); "HDR{fields} 00000 00000 000000{system}")?;
        let trailer = format!(in rt.alloc(); "EOF{fields} 00000 00000 000001{system}")?;
        let image = one_section(rt.alloc(), &header, &trailer)?;
        let by = if system.is_empty() {
            ""
        } else {
            ", written by DECFILE11A"
        };
        let lines = format!(in rt.alloc();
            "1 image: 1 ok
1 set, 1 file: 1 complete
All files are complete, and every image was read to its end.

one.tap                   ok           volume ABC001{by}, 1 section
Set ABC001: 1 of 1 files complete
  Volumes: ABC001
   1 PAYROLL                        complete{words}
"
        )?;
        survey(
            &rt,
            &[Some(image.bytes.as_slice())],
            &["one.tap"],
            true,
            &lines,
        )?;
    }
    Ok(())
}
