//! The first part in a stage.
ghost use Rattle.std.specs.Prelude.{◌≡◌, List, [], Ok, None};
ghost use Rattle.tape_blocks.specs.Block.{Portion};
ghost use Rattle.tape_stage.specs.Stages.{Holds};

use tape_blocks::{Part, Span};
use tape_core::{Checkpoint, PartSink, SinkFault};
use tape_label::Field;
use tape_set::Position;
use tape_stage::{Disk, MemoryDisk, Stage};

/// Returns the length of the first part, or `None` if no part is staged. The stage is unchanged.
fn first_length<D: Disk>(stage: &mut Stage<D>) -> Result<Option<usize>, SinkFault>
    ensures stays { (parts : List Portion) → Holds stage.old parts → Holds stage.new parts }
    ensures empty { (parts : List Portion) → Holds stage.old parts → result ≡ Ok None
        → parts ≡ [] }
{
    let mut parts = stage.parts();
    match parts.next()? {
        Some(part) => Ok(Some(part.bytes.len())),
        None => Ok(None),
    }
}

/// Returns the checkpoint at which nothing of the first file of the set ABC001 is staged.
fn start() -> Checkpoint
    ensures { result.staged ≡ 0 }
{
    Checkpoint {
        set_id: Field::of_bytes(*b"ABC001"),
        file: 1,
        position: Position::Awaits {
            sect: 1,
            block: 0,
            part: 0,
        },
        begun: false,
        known: None,
        staged: 0,
    }
}

#[test]
fn the_first_part_stays_the_first(rt: HostRuntime) {
    let Ok(mut stage) = Stage::create(rt.alloc(), MemoryDisk::new(rt.alloc()), &start()) else {
        assert!(rt; false);
        return;
    };
    assert!(rt; matches!(first_length(&mut stage), Ok(None)));
    for bytes in [b"KITE".as_slice(), b"CROWS".as_slice()] {
        let span = Span::Whole;
        assert!(rt; stage.put(Part { span, bytes }).is_ok());
        assert!(rt; matches!(first_length(&mut stage), Ok(Some(4))));
    }
}
