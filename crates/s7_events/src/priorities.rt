//! The priorities of the organisation blocks.
ghost use Rattle.std.specs.Prelude.{◌≡◌, IsTrue};
ghost use Rattle.s7_events.specs.Priorities.{is_alarm, has_priority, is_ob, priority_of};

/// The priority of an organisation block that starts a level: OB1 1, OB30 to OB38 7 to 15, OB40 to OB47 16 to
/// 23, OB70 25, OB80, OB82 and OB85 26, OB100 27, OB72 28.
pub fn priority(ob: u8) -> u8
    requires { IsTrue (has_priority ob) }
    ensures { result ≡ priority_of ob }
{
    match ob {
        30..=38 => ob - 23,
        40..=47 => ob - 24,
        70 => 25,
        80 | 82 | 85 => 26,
        100 => 27,
        72 => 28,
        _ => 1,
    }
}

/// Whether an organisation block starts by an alarm.
pub(crate) fn is_alarm_ob(ob: u8) -> bool
    ensures { result ≡ is_alarm ob }
{
    matches!(ob, 30..=38 | 40..=47 | 70 | 72 | 80 | 82)
}

/// Whether an organisation block may have the number.
pub fn is_ob(number: u8) -> bool
    ensures { result ≡ is_ob number }
{
    is_alarm_ob(number) || matches!(number, 1 | 85 | 100 | 121 | 122)
}
