//! The host's clock.
use portal_base::moment::Moment;
use portal_base::outside::Clock;
use std::time::{SystemTime, UNIX_EPOCH};

/// The host's clock, in whole seconds. If the host's time isn't in the years 1970 to 9999, the clock gives its last
/// moment again, or 1970-01-01T00:00:00 at first. Its moments aren't observable.
#[derive(Drop)]
pub struct HostClock<R> {
    host: R,
    last: Moment,
}

impl<R: std::time::Clock> HostClock<R> {
    pub fn new(host: R) -> HostClock<R> {
        HostClock {
            host,
            last: Moment::from_seconds(0).unwrap(),
        }
    }
}

/// The host's time, if it is a moment from 1970 on.
fn host_moment(host: &impl std::time::Clock) -> Option<Moment> {
    let now = SystemTime::now(host).ok()?;
    let elapsed = now.duration_since(UNIX_EPOCH).ok()?;
    Moment::from_seconds(i64::try_from(elapsed.as_secs()).ok()?)
}

impl<R: std::time::Clock> Clock for HostClock<R> {
    ghost use Rattle.std.specs.Prelude.{None};

    ghost given = { λ _. None };

    fn now(&mut self) -> Moment {
        if let Some(moment) = host_moment(&self.host) {
            self.last = moment;
        }
        self.last
    }
}
