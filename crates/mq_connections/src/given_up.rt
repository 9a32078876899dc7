//! Why connections are given up, as it is counted.

use mq_metrics::GivenUp;
use mq_server::{EndCause, ServeFault};

/// Why a connection was given up that ended so. One that its peer ended after whole frames wasn't.
pub fn cause_of_end(end: Result<EndCause, ServeFault>) -> Option<GivenUp> {
    match end {
        Ok(EndCause::InputEnd) => None,
        Ok(EndCause::Enough) => Some(GivenUp::Enough),
        Ok(EndCause::BadFrame) => Some(GivenUp::BadFrame),
        Ok(EndCause::CutFrame) => Some(GivenUp::CutFrame),
        Err(ServeFault::Read) => Some(GivenUp::Read),
        Err(ServeFault::Write) => Some(GivenUp::Write),
        Err(ServeFault::Memory) => Some(GivenUp::Memory),
        Err(ServeFault::Store) => Some(GivenUp::Store),
    }
}

/// Why a connection was given up that was late: its peer took no replies, or sent nothing.
pub fn cause_of_late(fault: ServeFault) -> GivenUp {
    match fault {
        ServeFault::Write => GivenUp::Untaken,
        ServeFault::Read | ServeFault::Memory | ServeFault::Store => GivenUp::Silent,
    }
}
