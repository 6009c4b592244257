//! The digits of a number, as one whole number without its trailing zeros.
ghost use Rattle.std.specs.Prelude.{◌≡◌, ◌≤◌, ◌<◌, ◌+◌, ◌*◌, ◌^◌, ℕ, [], ◌∷◌, List, pos, ℤ, ◌+ℤ◌, ◌-ℤ◌, ◌<ℤ◌, ◌≤ℤ◌};
ghost use Rattle.std.specs.Prelude.{IfSome, IfNone, option_and_then};
ghost use Rattle.lexical_forms.specs.Digits.{spelled};
ghost use Rattle.lexical_forms.specs.Number.{scaled, in_range};
ghost use Rattle.lexical_forms.specs.Significand.{Spells, Adds, IsRead, IsInLimits, IsLimited};

/// The bound of a number in billionths: its magnitude is below this.
const LIMIT: u128 = 1_000_000_000_000_000_000_000_000_000;

/// The digits read so far.
#[derive(Clone, Copy)]
pub(super) struct Significand {
    /// The number that the digits spell, without its trailing zeros. It is below the limit.
    pub(super) value: u128,
    /// The count of trailing zeros that `value` leaves out.
    pub(super) zeros: u64,
    /// The count of digits.
    pub(super) count: u64,
}

impl Significand {
    pub(super) fn new() -> Significand
        ensures { Spells result [] }
    {
        Significand {
            value: 0,
            zeros: 0,
            count: 0,
        }
    }

    /// Appends a digit. Returns none if the number without its trailing zeros would reach the limit.
    pub(super) fn push(self, digit: u8) -> Option<Significand>
        requires digit { digit < 10 }
        requires room { self.count + 1 < 2 ^ 64 }
        requires read { IsRead self }
        ensures { Adds self ((digit + 48) ∷ []) result }
    {
        let count = self.count + 1;
        if digit != 0 {
            let value = self.shifted(self.zeros + 1)? + u128::from(digit);
            (value < LIMIT).then_some(Significand {
                value,
                zeros: 0,
                count,
            })
        } else if self.value == 0 {
            Some(Significand { count, ..self })
        } else {
            Some(Significand {
                value: self.value,
                zeros: self.zeros + 1,
                count,
            })
        }
    }

    // The value times ten to the power `zeros`, if that is below the limit.
    fn shifted(self, zeros: u64) -> Option<u128>
        requires { self.value < 10 ^ 27 }
        ensures none { IfNone result (10 ^ 27 ≤ self.value * 10 ^ zeros) }
        ensures some { IfSome result (λ value. (value ≡ self.value * 10 ^ zeros) × (value < 10 ^ 27)) }
    {
        let mut value = self.value;
        if value == 0 {
            return Some(0);
        }
        for _ in 0..zeros {
            value *= 10;
            if value >= LIMIT {
                return None;
            }
        }
        Some(value)
    }

    /// The number in billionths: its digits, of which `fraction_digits` come after the decimal point, times ten to the
    /// power `exponent`. Returns none if the result isn't a whole number of billionths or reaches the limit.
    pub(super) fn billionths(self, fraction_digits: i128, exponent: i128) -> Option<u128>
        requires small { self.value < 10 ^ 27 }
        requires fraction { (pos 0 ≤ℤ fraction_digits) × (fraction_digits <ℤ pos (2 ^ 64)) }
        requires limits { IsInLimits exponent }
        ensures { (cs : List ℕ) (whole : ℤ) → Spells self cs → IsLimited whole exponent →
            result ≡ option_and_then in_range (scaled (spelled cs) (pos 9 +ℤ whole -ℤ fraction_digits)) }
    {
        if self.value == 0 {
            return Some(0);
        }
        let zeros = 9 + exponent + i128::from(self.zeros) - fraction_digits;
        if zeros < 0 || zeros > 26 {
            return None;
        }
        self.shifted(zeros as u64)
    }
}
