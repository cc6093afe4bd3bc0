// The text of all days printed on standard output, part after part.
#![tactic(auto)]

ghost use Rattle.published_index.specs.Index.{Published};
ghost use Rattle.stand_text.specs.Report.{next_in, whole_in, PrintedOn};

use output::Told;
use replies::OUT;
use stabbing::INDEX;
use stand_text::{LAST_DAY, PART};

// Prints bytes.
fn print(rt: &HostRuntime, bytes: &[u8]) -> Result<(), Told> {
    output::write(&rt.stdout(), bytes, &rt.stderr(), b"stand: standard output")
}

// Prints the line that ends a list; false where that can't be done.
pub fn print_line(rt: &HostRuntime, out: &[u8; OUT], at: usize) -> bool {
    if OUT < at {
        return false;
    }
    print(rt, &out[at..]).is_ok()
}

// Prints the text of all days, part after part; where one can't be written, the day on which it begins.
pub fn print_days(rt: &HostRuntime, index: &[u16; INDEX]) -> Result<(), u16>
    requires { Published index.now }
    ensures { PrintedOn index.now (next_in result) (whole_in result) }
{
    let mut out = [0u8; PART];
    let mut d = 1;
    while d <= LAST_DAY {
        let part = stand_lines::days_part(index, d, &mut out);
        if print(rt, &out[..part.bytes]).is_err() {
            return Err(d);
        }
        d = part.next;
    }
    Ok(())
}
