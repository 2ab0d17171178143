//! A digest of all that was written.

/// A number that depends on each octet that was added, and on their order.
#[derive(Clone, Copy)]
pub struct Digest {
    sum: u64,
}

impl Digest {
    /// The digest of nothing.
    pub fn new() -> Digest {
        Digest {
            sum: 0xcbf2_9ce4_8422_2325,
        }
    }

    /// Adds octets, eight at a time, and how many there are.
    pub fn add(&mut self, octets: &[u8]) {
        'words: for chunk in octets.chunks(8) {
            let word = match chunk {
                [a, b, c, d, e, f, g, h] => u64::from_le_bytes([*a, *b, *c, *d, *e, *f, *g, *h]),
                _ => tail(chunk),
            };
            self.add_number(word);
        }
        self.add_number(octets.len() as u64);
    }

    /// Adds a number.
    pub fn add_number(&mut self, number: u64) {
        self.sum = (self.sum ^ number)
            .wrapping_mul(0x0000_0100_0000_01b3)
            .rotate_left(29);
    }

    /// The digest so far.
    pub fn sum(&self) -> u64 {
        self.sum
    }
}

/// The number of up to eight octets.
fn tail(octets: &[u8]) -> u64 {
    let mut word: u64 = 0;
    'octets: for octet in octets {
        word = word.wrapping_mul(256).wrapping_add(u64::from(*octet));
    }
    word
}
