// Reads a register on standard input and publishes it. For each day on which somebody stands it prints a line: the day, how many
// stand, the comparisons made and their spell numbers. A refused register prints the refusal's number and the line. What fails, a
// refusal too, is told on standard error.
#![tactic(auto)]

ghost use Rattle.stand_text.specs.Report.{next_in, whole_in, PrintedOf};

use register::Refused;
use replies::OUT;
use stabbing::INDEX;

// One byte more than a register may have: a longer text is refused whatever follows.
const TEXT: usize = 65537;

// Says on standard error that the register is refused.
fn tell_refusal(rt: &HostRuntime, number: u16, line: u16) {
    let _ = eprintln!(rt; "stand: the register is refused: {number} at line {line}");
}

fn print_refusal(rt: &HostRuntime, refused: Refused) {
    let mut out = [0u8; OUT];
    let number = refused.refusal.number();
    let line = refused.line;
    let at = reply_lines::put_refused_line(&mut out, number, line);
    printing::print_line(rt, &out, at);
    tell_refusal(rt, number, line);
}

// ---- The program

// Publishes the register and prints the text of all days, or its refusal and no day; where not all days are printed, the day on which what
// is left begins.
fn stand(rt: &HostRuntime, text: &[u8]) -> Result<(), u16>
    ensures { PrintedOf text.now (next_in result) (whole_in result) }
{
    let mut index = [0u16; INDEX];
    let started = service::read(text, &mut index);
    if let Err(refused) = started.outcome {
        print_refusal(rt, refused);
        return Err(1);
    }
    service::publish(started.service, 1, &mut index);
    printing::print_days(rt, &index)
}

fn main(rt: HostRuntime) {
    let mut text = [0u8; TEXT];
    let got = standard_input::read(
        &rt,
        &mut text,
        b"usage: stand < REGISTER\nReads a register on standard input and prints a line for each day on which somebody stands: the day, how many\nstand, the looks that the question took and the spell numbers, parted by tabs.\n",
        b"stand: standard input",
    );
    if let Ok(n) = got {
        let _ = stand(&rt, &text[..n]);
    }
}
