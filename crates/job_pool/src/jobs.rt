//! A dump of a pool.

use crate::ends::JobEnd;
use dump_job::Job;

/// A dump of a pool: it runs where it hasn't ended.
pub struct PoolJob {
    /// The dump between two steps.
    pub job: Job,
    /// How many steps it has made; 2^64 - 1 stands for more, too.
    pub steps: u64,
    /// How it ended.
    pub end: Option<JobEnd>,
}

/// It is written out, so that who lets a dump go calls it: derived, it would be proved once more at each such place.
impl Drop for PoolJob {
    fn drop(self) {
        let PoolJob { job, steps, end } = self;
    }
}
