// The repair of a register for other software: one function that C and Rust link, on lists that the host lends.
#![tactic(auto)]

ghost use Rattle.repairing.specs.Answers.{Repairs};

use repairing::HostRepaired;

// A good register from a damaged text, into the first places of `text`, and two places of `remarks` for each dropped line.
#[unsafe(no_mangle)]
pub extern "C" fn phayaklit_repair(
    damaged: &[u8],
    text: &mut [u8],
    remarks: &mut [u32],
) -> HostRepaired
    ensures { Repairs damaged.now text.old remarks.old result text.new remarks.new }
{
    match register_repair::repair(damaged, text, remarks) {
        Ok(r) => HostRepaired {
            refusal: 0,
            line: 0,
            length: r.length,
            dropped: r.dropped,
            displaced: r.displaced,
        },
        Err(refusal) => HostRepaired {
            refusal: refusal.number(),
            line: 0,
            length: 0,
            dropped: 0,
            displaced: 0,
        },
    }
}
