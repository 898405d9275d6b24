//! The identifiers in the labels of an image.
use super::reel::SECOND_BAD;
use std::io::Read;
use std::test::Fail;
use tape_image::{ImageFault, ImageReader, Item};
use tape_label::{Field, Label, read_label};

/// Returns the volume identifier, and the identifier of the first file, if there is one.
fn first_names<R: Read>(
    image: &mut ImageReader<'_, R>,
) -> Result<Option<(Field<6>, Field<17>)>, ImageFault> {
    let mut volume = Field::of_bytes([b' '; 6]);
    for _ in 0..u64::MAX {
        let label = match image.next()? {
            Some(Item::Block(bytes)) => read_label(bytes),
            Some(_) => continue,
            None => break,
        };
        match label {
            Ok(Label::Vol1(label)) => volume = label.volume,
            Ok(Label::Head1(label)) => return Ok(Some((volume, label.file_id))),
            _ => {}
        }
    }
    Ok(None)
}

#[test]
fn names_are_read(rt: HostRuntime) -> Result<(), Fail> {
    let mut device = SECOND_BAD;
    let mut image = ImageReader::new(rt.alloc(), &mut device)?;
    let names = (
        Field::of_bytes(*b"ABC001"),
        Field::of_bytes(*b"BIRDS            "),
    );
    assert!(rt; first_names(&mut image)? == Some(names));
    Ok(())
}
