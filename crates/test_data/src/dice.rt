//! Chance, for tests that have to be the same at every run.
ghost use Rattle.std.specs.Prelude.{◌<◌, length};

/// A sequence of numbers that a seed determines.
#[derive(Drop)]
pub struct Dice {
    state: u64,
}

impl Dice {
    pub fn new(seed: u64) -> Dice {
        Dice { state: seed }
    }

    /// A number below so many. The constants are those of Knuth's MMIX.
    pub fn roll(&mut self, sides: u64) -> u64
        requires { 0 < sides }
        ensures { result < sides }
    {
        self.state = self
            .state
            .wrapping_mul(6_364_136_223_846_793_005)
            .wrapping_add(1_442_695_040_888_963_407);
        (self.state >> 33) % sides
    }

    /// Once in so many times.
    pub fn once_in(&mut self, sides: u64) -> bool
        requires { 0 < sides }
    {
        self.roll(sides) == 0
    }

    pub fn pick<'a>(&mut self, words: &[&'a str]) -> &'a str
        requires { 0 < length words.now }
    {
        words[self.roll(words.len() as u64) as usize]
    }
}
