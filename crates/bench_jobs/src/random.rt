//! Numbers without a pattern, the same for each seed.

ghost use Rattle.std.specs.Prelude.{◌<◌, length};

/// A generator that adds a constant and mixes the sum (splitmix64).
#[derive(Clone, Copy, Debug)]
pub struct Random {
    state: u64,
}

impl Random {
    pub fn new(seed: u64) -> Random {
        Random { state: seed }
    }

    pub fn next(&mut self) -> u64 {
        self.state = self.state.wrapping_add(0x9e37_79b9_7f4a_7c15);
        let x = self.state;
        let x = (x ^ (x >> 30)).wrapping_mul(0xbf58_476d_1ce4_e5b9);
        let x = (x ^ (x >> 27)).wrapping_mul(0x94d0_49bb_1331_11eb);
        x ^ (x >> 31)
    }

    /// A number below `limit`.
    pub fn below(&mut self, limit: u64) -> u64
        requires { 0 < limit }
        ensures { result < limit }
    {
        self.next() % limit
    }

    /// One of the texts.
    pub fn pick(&mut self, texts: &[&'static str]) -> &'static str
        requires { 0 < length texts.now }
    {
        texts[self.below(texts.len() as u64) as usize]
    }
}
