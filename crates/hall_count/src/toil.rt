//! Work that only takes time, for measurements.

/// Rounds of a generator of numbers, by shifts (xorshift), and the number that it has come to.
#[derive(Clone, Copy)]
pub struct Toil {
    rounds: u32,
    number: u64,
}

impl Toil {
    pub fn new(rounds: u32) -> Toil {
        Toil {
            rounds,
            number: 88_172_645_463_325_252,
        }
    }

    /// Goes so many rounds.
    pub fn once(&mut self) {
        let mut number = self.number;
        for _ in 0..self.rounds {
            number ^= number << 13;
            number ^= number >> 7;
            number ^= number << 17;
        }
        self.number = number;
    }

    /// Whether the number is 0, which the rounds never come to. Who asks makes sure that they are gone.
    pub fn is_nothing(&self) -> bool {
        self.number == 0
    }
}
