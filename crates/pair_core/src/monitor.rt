//! The monitoring of the cycle.
ghost use Rattle.std.specs.Prelude.{◌≡◌};
ghost use Rattle.pair_core.specs.Monitor.{watch_by, ends_monitoring, answers_overdue, is_overdue};

use s7_base::{Answer, Ask, Blocks, CodeKind};

/// How long a cycle may take, in milliseconds.
const MONITORING_TIME: u64 = 150;

/// How long it may take where OB80 is loaded, in milliseconds.
const LONGEST_TIME: u64 = 300;

/// From which moment the cycle is monitored after entry k, if it is.
pub fn watch_by(before: Option<u32>, k: u32, ask: &Ask, answer: &Answer) -> Option<u32>
    ensures { result ≡ watch_by before k ask.now answer.now }
{
    match (ask, answer) {
        (Ask::Outputs(_) | Ask::Retrigger, Answer::Done) => Some(k),
        (Ask::Cycle, _) => None,
        _ => before,
    }
}

/// Whether the monitoring time is over at moment k, and not before.
pub fn ends_monitoring(watch: Option<u32>, k: u64) -> bool
    ensures { result ≡ ends_monitoring watch k }
{
    match watch {
        Some(start) => u64::from(start) + MONITORING_TIME == k,
        None => false,
    }
}

/// Whether OB80 is loaded, which answers a cycle that takes too long.
pub fn answers_overdue(program: &Blocks) -> bool
    ensures { result ≡ answers_overdue program.now }
{
    program.code(CodeKind::Ob, 80).is_some()
}

/// Whether the cycle takes too long for the CPU of these blocks to go on at moment k: the longest time has passed, or the
/// monitoring time where OB80 is not loaded.
pub fn is_overdue(program: &Blocks, watch: Option<u32>, k: u32) -> bool
    ensures { result ≡ is_overdue program.now watch k }
{
    let Some(start) = watch else {
        return false;
    };
    let start = u64::from(start);
    let k = u64::from(k);
    start + LONGEST_TIME <= k || (start + MONITORING_TIME <= k && !answers_overdue(program))
}
