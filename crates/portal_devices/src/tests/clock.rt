//! The host's clock.
use crate::clock::HostClock;
use portal_base::outside::Clock;
use std::cell::Cell;
use std::io;
use std::test::Fail;
use std::time::Duration;

/// A host whose time is set by hand, in seconds since 1970, or fails.
#[derive(Drop)]
struct Host {
    time: Cell<Option<u64>>,
}

impl std::time::Clock for Host {
    fn monotonic(&self) -> io::Result<Duration> {
        self.since_1970()
    }

    fn since_1970(&self) -> io::Result<Duration> {
        match self.time.get() {
            Some(seconds) => Ok(Duration::from_secs(seconds)),
            None => Err(io::Error::from(io::ErrorKind::Other)),
        }
    }
}

#[test]
fn the_hosts_time_is_given(rt: HostRuntime) -> Result<(), Fail> {
    let host = Host {
        time: Cell::new(None),
    };
    let mut clock = HostClock::new(&host);
    for (time, expected) in [
        (None, 0),
        (Some(1_709_210_096), 1_709_210_096),
        (None, 1_709_210_096),
        (Some(253_402_300_799), 253_402_300_799),
        (Some(253_402_300_800), 253_402_300_799),
        (Some(5), 5),
    ] {
        host.time.set(time);
        assert_eq!(rt; clock.now().seconds(), expected, "at {expected}");
    }
    let real = HostClock::new(&rt).now();
    assert!(rt; real.seconds() > 1_704_067_200);
    Ok(())
}
