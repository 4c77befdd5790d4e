//! How a dump of a pool ends.

use dump_job::JobFault;

/// How a dump ended.
#[derive(Debug, Drop)]
pub enum JobEnd {
    /// It is done, and listed under this id.
    Done(u32),
    /// It was refused.
    Refused(JobFault),
    /// It was killed, and had this id.
    Killed(u32),
}
