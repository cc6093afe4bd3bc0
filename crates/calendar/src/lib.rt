// The calendar: the days 1 to 4,000.
#![tactic(auto)]

ghost use Rattle.std.specs.Prelude.{◌≡◌};
ghost use Rattle.calendar.specs.Calendar.{is_day};

// Whether d is on the calendar.
pub fn is_day(d: u16) -> bool
    ensures { result ≡ is_day d }
{
    1 <= d && d <= 4000
}
