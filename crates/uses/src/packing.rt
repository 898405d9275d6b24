//! A record packed into blocks, and a walk over their parts.
use std::test::Fail;
use tape_blocks::{BlockFault, Offer, Packer, Parts, Shape, check_block};
use tape_label::Format;

/// The records and bytes counted so far, and whether a record is unfinished.
#[derive(Clone, Copy, Debug, PartialEq, Eq)]
struct Counts {
    records: u64,
    bytes: usize,
    begun: bool,
}

impl Counts {
    /// Counts the bytes of a block, and the records that end in it.
    fn add(&mut self, shape: &Shape, block: &[u8]) -> Result<(), BlockFault> {
        // Parts are borrowed only from a block that was checked.
        self.begun = check_block(shape, self.begun, block)?;
        for part in Parts::new(shape, block) {
            self.bytes = self.bytes.saturating_add(part.bytes.len());
            if !part.span.leaves() {
                self.records = self.records.saturating_add(1);
            }
        }
        Ok(())
    }
}

#[test]
fn packed_records_are_counted(rt: HostRuntime) -> Result<(), Fail> {
    let shape = Shape {
        format: Format::Spanned,
        block_len: 18,
        rec_len: 0,
        offset: 0,
        pad_full: false,
    };
    let mut packer = Packer::new(rt.alloc(), shape)?;
    let mut counts = Counts {
        records: 0,
        bytes: 0,
        begun: false,
    };
    let mut rest = b"a record of three segments".as_slice();
    for _ in 0..u8::MAX {
        let Offer::BlockReady(taken) = packer.offer(rest)? else {
            break;
        };
        rest = rest.get(taken..).unwrap_or(&[]);
        if let Some(block) = packer.take_block() {
            counts.add(&shape, block)?;
        }
    }
    if let Some(block) = packer.take_block() {
        counts.add(&shape, block)?;
    }
    let want = Counts {
        records: 1,
        bytes: 26,
        begun: false,
    };
    assert!(rt; counts == want);
    Ok(())
}
