//! The kinds of timer.
ghost use Rattle.std.specs.Prelude.{◌≡◌, ◌≤◌};
ghost use Rattle.timers.specs.Bytes.{kind_of, number_of};
ghost use Rattle.timers.specs.Kind.{ends_run, has_edge};

use instruction_set::TimerKind;

/// Whether the RLO, after `mem`, has the edge at which a kind starts.
pub(crate) fn is_edge(kind: TimerKind, mem: bool, rlo: bool) -> bool
    ensures { result ≡ has_edge kind mem rlo }
{
    match kind {
        TimerKind::Sf => mem && !rlo,
        TimerKind::Sp | TimerKind::Se | TimerKind::Sd | TimerKind::Ss => !mem && rlo,
    }
}

/// Whether the RLO ends the run of a kind.
pub(crate) fn is_run_over(kind: TimerKind, rlo: bool) -> bool
    ensures { result ≡ ends_run kind rlo }
{
    match kind {
        TimerKind::Sp | TimerKind::Sd => !rlo,
        TimerKind::Sf => rlo,
        TimerKind::Se | TimerKind::Ss => false,
    }
}

/// The number of a kind in the bytes of a timer.
pub(crate) fn number(kind: TimerKind) -> u8
    ensures { result ≡ number_of kind }
{
    match kind {
        TimerKind::Sp => 0,
        TimerKind::Se => 1,
        TimerKind::Sd => 2,
        TimerKind::Ss => 3,
        TimerKind::Sf => 4,
    }
}

/// The kind of a number in the bytes of a timer.
pub(crate) fn numbered(number: u8) -> TimerKind
    requires { number ≤ 4 }
    ensures { result ≡ kind_of number }
{
    match number {
        0 => TimerKind::Sp,
        1 => TimerKind::Se,
        2 => TimerKind::Sd,
        3 => TimerKind::Ss,
        _ => TimerKind::Sf,
    }
}
