//! Numbers that look random.

/// Numbers that look random and are the same in each run (Marsaglia's xorshift).
#[derive(Drop)]
pub struct Random(pub u64);

impl Random {
    pub fn next(&mut self) -> u32 {
        self.0 ^= self.0 << 13;
        self.0 ^= self.0 >> 7;
        self.0 ^= self.0 << 17;
        (self.0 >> 32) as u32
    }
}
