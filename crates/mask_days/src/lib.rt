// The ticked days of a sheet, put into a list.
#![tactic(auto)]

ghost use Rattle.std.specs.Prelude.{◌≡◌, IfErr};
ghost use Rattle.buffer.specs.Buffer.{over};
ghost use Rattle.calendar.specs.Calendar.{days_ok};
ghost use Rattle.masks.specs.Masks.{ticks};
ghost use Rattle.masks.specs.Answers.{Room, Answer, ticks_in};

use refusal::Refusal;

// Whether every ticked day is on the calendar, 1 to 4,000: the lowest and the highest are.
fn on_calendar(base: u16, mask: u64) -> bool
    ensures { result ≡ days_ok (ticks base mask) }
{
    if mask == 0 {
        return true;
    }
    let lowest = u32::from(base) + mask.trailing_zeros();
    let highest = u32::from(base) + (63 - mask.leading_zeros());
    1 <= lowest && highest <= 4000
}

// Puts the ticked days, which are on the calendar, rising, into the first places of a list of 64. Later places keep what they hold.
fn put(base: u16, mask: u64, days: &mut [u16])
    requires { Room base mask days.old }
    ensures { days.new ≡ over (ticks base mask) days.old }
{
    let mut left = mask;
    let mut i = 0;
    for day in days.iter_mut() {
        if left == 0 {
            return;
        }
        let zeros = left.trailing_zeros();
        i += zeros;
        *day = (u32::from(base) + i) as u16;
        left = left >> zeros >> 1;
        i += 1;
    }
}

// The ticked days of a sheet, rising, in the first places of a list, and how many they are. Later places keep what they hold, and so
// do all places where a ticked day is off the calendar.
pub fn ticked(base: u16, mask: u64, days: &mut [u16; 64]) -> Result<usize, Refusal>
    ensures answer { Answer base mask (ticks_in result) days.old days.new }
    ensures refusal { IfErr result (λ refusal. refusal ≡ Refusal.OffCalendar) }
{
    if !on_calendar(base, mask) {
        return Err(Refusal::OffCalendar);
    }
    put(base, mask, days);
    Ok(mask.count_ones() as usize)
}
