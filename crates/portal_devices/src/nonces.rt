//! Numbers from the key stream of ChaCha20.
ghost use Rattle.std.specs.Prelude.{◌≡◌, ◌+◌, ◌*◌, ◌-◌, ◌^◌, ◌<◌};
ghost use Rattle.rand_chacha.specs.ChaCha.{key_of};
ghost use Rattle.portal_base.specs.Counted.{next_count};
ghost use Rattle.portal_devices.specs.Stream.{number_of_words, stream_number};

use portal_base::nonce::Nonce;
use portal_base::outside::Nonces;
use rand_chacha::ChaCha20Rng;
use rand_core::SeedableRng;
use rand_core::utils::NextWord;
use std::marker::Model;

/// How many values a word of 32 bits has.
const WORD: u64 = 1 << 32;

/// Draws numbers from the key stream of ChaCha20 (RFC 8439, section 2.3) for a seed. Each number is the next four
/// words, the first word the highest. In contracts it is the key of the seed and the count of numbers drawn. From the
/// last count of a `u64` on its numbers aren't observable.
#[derive(Drop)]
pub struct ChaChaNonces {
    stream: ChaCha20Rng,
    count: u64,
}

impl Model for ChaChaNonces {
    ghost use Rattle.std.specs.Prelude.{◌≡◌, ◌*◌, ◌-◌, ◌^◌, ◌<◌};
    ghost use Rattle.portal_devices.specs.Stream.{StreamPosition};

    ghost Value = { StreamPosition };

    ghost view = { λ d. record { key = d.stream.key; count = d.count } };

    ghost invariant = { λ d. (d.stream.stream ≡ 0)
        × (d.count < 2 ^ 64 - 1 → d.stream.word_pos ≡ 4 * d.count) };
}

impl ChaChaNonces {
    pub fn from_seed(seed: [u8; 32]) -> ChaChaNonces
        ensures { result ≡ record { key = key_of seed; count = 0 } }
    {
        ChaChaNonces {
            stream: ChaCha20Rng::from_seed(seed),
            count: 0,
        }
    }
}

impl Nonces for ChaChaNonces {
    ghost use Rattle.portal_base.specs.Counted.{given_below_max};
    ghost use Rattle.portal_devices.specs.Stream.{stream_numbers};

    ghost given = { λ d. given_below_max (stream_numbers d.key) d.count };

    fn next(&mut self) -> Nonce
        ensures number { self.old.count < 2 ^ 64 - 1 → result.0 ≡ stream_number self.old.key self.old.count }
        ensures drawn { self.new ≡ record self.old { count = next_count self.old.count } }
    {
        let first = self.stream.next_word();
        let second = self.stream.next_word();
        let third = self.stream.next_word();
        let fourth = self.stream.next_word();
        self.count = self.count.saturating_add(1);
        Nonce(number_of_words(first, second, third, fourth))
    }
}

/// The number of four words, the first the highest.
fn number_of_words(first: u32, second: u32, third: u32, fourth: u32) -> u128
    ensures { result ≡ number_of_words first second third fourth }
{
    let high = u64::from(first) * WORD + u64::from(second);
    let low = u64::from(third) * WORD + u64::from(fourth);
    u128::from(high) * u128::from(WORD) * u128::from(WORD) + u128::from(low)
}
