//! Tests of surveys of images without items, and of one with other bytes at its end.
use crate::survey::{one, survey};
use crate::volumes::cut;
use std::test::Fail;

const EMPTY: &str = "Nothing was read: copy them again, decompress or convert them
  ended.tap                 no items before the end-of-medium marker
  fake.tap                  no items
      image fault 3 at byte 0: a FakeTape image, which tape does not read

2 images: 0 ok, 1 unsupported, 1 empty
No files were found.

ended.tap                 empty        no items before the end-of-medium marker
fake.tap                  unsupported  no items
    image fault 3 at byte 0: a FakeTape image, which tape does not read
";

#[test]
fn images_without_items(rt: HostRuntime) -> Result<(), Fail> {
    let ended = b"\xFF\xFF\xFF\xFF\x02\x00\x00\x00xy\x02\x00\x00\x00";
    let fake = b"000000020002xy";
    survey(
        &rt,
        &[Some(ended.as_slice()), Some(fake.as_slice())],
        &["ended.tap", "fake.tap"],
        false,
        EMPTY,
    )
}

const GARBLED: &str = "Suspect: look at it with 'tape list'
  one.tap                   volume ABC001, 1 section
      image fault 3 at byte 2480

1 image: 0 ok, 1 damaged
1 set, 1 file: 1 complete

one.tap                   damaged      volume ABC001, 1 section
    image fault 3 at byte 2480
Set ABC001: 1 of 1 files complete
  Volumes: ABC001
   1 PAYROLL                        complete
";

/// After the two marks at the end of a volume nothing of it is damaged.
#[test]
fn bytes_behind_a_volume(rt: HostRuntime) -> Result<(), Fail> {
    let mut image = cut(rt.alloc(), 2480)?;
    image.bytes.extend_from_slice(b"\x1A\x1A\x1A\x1A")?;
    one(&rt, &image, GARBLED)
}
