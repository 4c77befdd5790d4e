//! The system's clock.

use host_edge::SysClock;
use media_core::Clock;
use std::io::{self, ErrorKind};
use std::time::{self, Duration};

/// A clock that stands still, or that is refused.
#[derive(Drop)]
struct Still {
    seconds: Option<u64>,
}

impl time::Clock for Still {
    fn monotonic(&self) -> io::Result<Duration> {
        Err(io::Error::from(ErrorKind::Other))
    }

    fn since_1970(&self) -> io::Result<Duration> {
        match self.seconds {
            Some(seconds) => Ok(Duration::from_millis(
                seconds.saturating_mul(1000).saturating_add(999),
            )),
            None => Err(io::Error::from(ErrorKind::Other)),
        }
    }
}

#[test]
fn times_are_whole_seconds(rt: HostRuntime) {
    let told = Still {
        seconds: Some(1_000_000),
    };
    assert_eq!(&rt; SysClock::new(told).now(), 1_000_000);
    assert_eq!(&rt; SysClock::new(Still { seconds: None }).now(), 0);
}
