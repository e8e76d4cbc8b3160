//! The line of a fault in a host's log.

use crate::log_output::LogOutput;
use acq_causes::{Asked, Ended, Signs};
use acq_tcp::HostLog;

/// Puts the fault that ended a host into its log, if it has one. It is opened anew: who wrote it
/// before has ended.
pub(crate) fn log_fault(rt: &HostRuntime, asked: Asked<'_>, signs: &Signs, ended: &Ended) {
    let (Some(most_bytes), Some(path)) = (signs.log.get(), asked.value("--log")) else {
        return;
    };
    if let Ok(output) = LogOutput::open(rt, path, most_bytes) {
        let cause = &ended.cause;
        let mut log = HostLog::new(rt.alloc(), output);
        log.failed(
            rt,
            ended.number,
            ended.name.as_str(),
            cause.words,
            cause.about.as_deref(),
        );
    }
}
