//! A clock, a source of nonces and a ticker that only count their calls.
ghost use Rattle.std.specs.Prelude.{◌≡◌, true, false, not, nat_lt, if◌then◌else◌};
ghost use Rattle.portal_base.specs.Counted.{script_moment, next_count};

use crate::moment::Moment;
use crate::nonce::Nonce;
use crate::outside::{Clock, Nonces, Ticker};
use std::marker::Model;

/// 2024-01-01T00:00:00, in seconds since 1970-01-01T00:00:00.
const SCRIPT_START: i64 = 1_704_067_200;

/// The number of seconds from the start to the last moment.
const SCRIPT_LENGTH: u64 = 251_698_233_599;

/// A clock that returns 2024-01-01T00:00:00, and one second more at each call, up to the last moment. A contract sees
/// it as the number of calls so far. The count stops at the maximum of a `u64`; from then on the moments given are not
/// observable.
#[derive(Drop)]
pub struct ScriptClock {
    calls: u64,
}

impl Model for ScriptClock {
    ghost use Rattle.std.specs.Prelude.{ℕ};

    ghost Value = { ℕ };

    ghost view = { λ c. c.calls };
}

impl ScriptClock {
    pub fn new() -> ScriptClock
        ensures { result ≡ 0 }
    {
        ScriptClock { calls: 0 }
    }
}

impl Clock for ScriptClock {
    ghost use Rattle.portal_base.specs.Counted.{script_moments, given_below_max};

    ghost given = { given_below_max script_moments };

    fn now(&mut self) -> Moment
        ensures moment { result ≡ script_moment self.old }
        ensures calls { self.new ≡ next_count self.old }
    {
        let elapsed = self.calls.min(SCRIPT_LENGTH);
        self.calls = self.calls.saturating_add(1);
        Moment::from_seconds(SCRIPT_START + elapsed as i64).unwrap()
    }
}

/// A source of the nonces 1, 2, 3 and so on, up to the maximum of a `u64`. A contract sees it as the last nonce. At the
/// maximum it repeats that nonce, and the nonces given are not observable.
#[derive(Drop)]
pub struct CountNonces {
    last: u64,
}

impl Model for CountNonces {
    ghost use Rattle.std.specs.Prelude.{ℕ};

    ghost Value = { ℕ };

    ghost view = { λ c. c.last };
}

impl CountNonces {
    pub fn new() -> CountNonces
        ensures { result ≡ 0 }
    {
        CountNonces { last: 0 }
    }
}

impl Nonces for CountNonces {
    ghost use Rattle.portal_base.specs.Counted.{numbers_to, given_below_max};

    ghost given = { given_below_max numbers_to };

    fn next(&mut self) -> Nonce
        ensures number { result.0 ≡ self.new }
        ensures last { self.new ≡ next_count self.old }
    {
        self.last = self.last.saturating_add(1);
        Nonce(u128::from(self.last))
    }
}

/// A ticker that returns true a fixed number of times, and false from then on.
#[derive(Drop)]
pub struct CountTicker {
    limit: u64,
    count: u64,
    has_ended: bool,
}

impl Model for CountTicker {
    ghost use Rattle.std.specs.Prelude.{◌≡◌, ◌≤◌, true};
    ghost use Rattle.portal_base.specs.Counted.{Ticking};

    ghost Value = { Ticking };

    ghost view = { λ t. record { limit = t.limit; count = t.count; has_ended = t.has_ended } };

    ghost invariant = { λ t. t.has_ended ≡ true → t.limit ≤ t.count };
}

impl CountTicker {
    pub fn new(count: u64) -> CountTicker
        ensures { result ≡ record { limit = count; count = 0; has_ended = false } }
    {
        CountTicker {
            limit: count,
            count: 0,
            has_ended: false,
        }
    }
}

impl Ticker for CountTicker {
    ghost count = { λ t. t.count };

    ghost has_ended = { λ t. t.has_ended };

    fn tick(&mut self) -> bool
        ensures answer { result ≡ nat_lt self.old.count self.old.limit }
        ensures limit { self.new.limit ≡ self.old.limit }
        ensures count { self.new.count ≡ (if result then next_count self.old.count else self.old.count) }
        ensures end { self.new.has_ended ≡ not result }
        ensures ended { self.old.has_ended ≡ true → result ≡ false }
    {
        if self.count >= self.limit {
            self.has_ended = true;
            return false;
        }
        self.count += 1;
        true
    }
}
