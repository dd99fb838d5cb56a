//! A digest of all results, eight bytes at a step.

#[derive(Drop)]
pub(crate) struct Digest {
    state: u64,
}

impl Digest {
    pub(crate) fn new() -> Digest {
        Digest {
            state: 0xCBF2_9CE4_8422_2325,
        }
    }

    pub(crate) fn add_number(&mut self, number: u64) {
        self.state = (self.state ^ number)
            .wrapping_mul(0x9E37_79B9_7F4A_7C15)
            .rotate_left(29);
    }

    pub(crate) fn add(&mut self, bytes: &[u8]) {
        let (chunks, rest) = bytes.as_chunks::<8>();
        for chunk in chunks {
            self.add_number(u64::from_le_bytes(*chunk));
        }
        for byte in rest {
            self.add_number(*byte as u64);
        }
        self.add_number(bytes.len() as u64);
    }

    pub(crate) fn value(&self) -> u64 {
        self.state
    }
}
