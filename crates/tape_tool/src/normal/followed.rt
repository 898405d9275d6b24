//! Bytes of an image, followed up to its first fault.

use tape_run::KIND_BYTES;

/// The word of an erase gap.
const GAP: u32 = 0xFFFF_FFFE;

/// The items of an image, followed as its first bytes are read.
#[derive(Clone, Copy)]
pub struct Followed {
    /// The number of bytes that were read.
    bytes: u64,
    /// The last bytes that were read, as a word.
    word: u32,
    /// How many of them belong to the word that is being read, 0 to 3.
    held: u8,
    /// The number of bytes of the block, and of its pad byte, that are left.
    left: u64,
    /// The word before the block.
    lead: Option<u32>,
    /// Whether a fault or the end-of-medium marker was read.
    over: bool,
}

impl Followed {
    /// Nothing was read.
    pub const START: Followed = Followed {
        bytes: 0,
        word: 0,
        held: 0,
        left: 0,
        lead: None,
        over: false,
    };

    /// Returns whether the bytes by which the kind of a file is recognised were all read.
    pub fn is_done(&self) -> bool {
        self.bytes >= KIND_BYTES as u64
    }

    /// Returns whether a fault or the end-of-medium marker was read: nothing after it counts.
    pub fn is_over(&self) -> bool {
        self.over
    }

    /// Follows the next bytes of the image.
    pub fn read(&mut self, bytes: &[u8]) {
        self.bytes = self.bytes.saturating_add(bytes.len() as u64);
        let mut rest = bytes;
        for _ in 0..bytes.len() {
            let passed = self.left.min(rest.len() as u64);
            self.left -= passed;
            rest = rest.get(passed as usize..).unwrap_or(&[]);
            let [byte, others @ ..] = rest else {
                return;
            };
            if self.over {
                return;
            }
            self.read_byte(*byte);
            rest = others;
        }
    }

    /// Follows the next byte of a word.
    fn read_byte(&mut self, byte: u8) {
        self.word = self.word / 0x100 + u32::from(byte) * 0x0100_0000;
        self.held = (self.held % 4) + 1;
        if self.held < 4 {
            return;
        }
        self.held = 0;
        match self.lead.take() {
            Some(lead) => self.over = lead != self.word,
            None => self.begin(self.word),
        }
    }

    /// Begins the item with the word `word`.
    fn begin(&mut self, word: u32) {
        let (len, high) = (word % 0x0100_0000, word / 0x0100_0000);
        if word == 0 || word == GAP {
            return;
        }
        if len == 0 || (high != 0 && high != 0x80) {
            self.over = true;
            return;
        }
        self.lead = Some(word);
        self.left = u64::from(len + len % 2);
    }
}
