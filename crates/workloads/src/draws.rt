//! Numbers that look drawn by chance, and are the same for the same seed.

/// A row of numbers by SplitMix64 (Steele, Lea and Flood, 2014).
#[derive(Clone, Copy)]
pub struct Draws {
    state: u64,
}

impl Draws {
    /// The row of this seed.
    pub fn new(seed: u64) -> Draws {
        Draws { state: seed }
    }

    /// Another row for each number.
    pub fn apart(&self, number: u64) -> Draws {
        let mut draws = Draws::new(self.state ^ number.wrapping_mul(0x9e37_79b9_7f4a_7c15));
        Draws::new(draws.next())
    }

    /// The next number.
    pub fn next(&mut self) -> u64 {
        self.state = self.state.wrapping_add(0x9e37_79b9_7f4a_7c15);
        let number = self.state;
        let number = (number ^ (number >> 30)).wrapping_mul(0xbf58_476d_1ce4_e5b9);
        let number = (number ^ (number >> 27)).wrapping_mul(0x94d0_49bb_1331_11eb);
        number ^ (number >> 31)
    }

    /// The next number below a bound; 0 where that is 0.
    pub fn below(&mut self, bound: u64) -> u64 {
        if bound == 0 { 0 } else { self.next() % bound }
    }

    /// The next of some words.
    pub fn word(&mut self, words: &'static [&'static str]) -> &'static str {
        let at = self.next() % 1024;
        let count = words.len().max(1);
        words.get(at as usize % count).copied().unwrap_or("")
    }
}
