// Reading a register text, line by line, into a list of spells.
#![tactic(auto)]

ghost use Rattle.std.specs.Prelude.{◌≡◌};
ghost use Rattle.register.specs.Text.{read_text};
ghost use Rattle.register.specs.Answers.{reading_in, reading_of};

use refusal::Refusal;
use register::{Reading, Refused};

// The most bytes of a text.
const TEXT: usize = 65536;

// The spells of a text, or the first refusal. `seen` marks the numbers of the lines so far.
pub fn read(text: &[u8]) -> Result<Reading, Refused>
    ensures { reading_in result ≡ reading_of (read_text text.now) }
{
    if text.len() > TEXT {
        return Err(Refused {
            refusal: Refusal::Malformed,
            line: 0,
        });
    }
    let mut spells = [spell_checks::blank(); 1024];
    let mut seen = [false; 65536];
    let mut before = spell_checks::blank();
    let mut count: usize = 0;
    let mut at: usize = 0;
    while at < text.len() {
        let line = (count + 1) as u16;
        let Some((s, next)) = register_line::read_line(text, at) else {
            return Err(Refused {
                refusal: Refusal::Malformed,
                line,
            });
        };
        if let Err(refusal) = spell_checks::check(s) {
            return Err(Refused { refusal, line });
        }
        let n = usize::from(s.number);
        if seen[n] {
            return Err(Refused {
                refusal: Refusal::DuplicateNumber,
                line,
            });
        }
        if !spell_checks::earlier(before, s) {
            return Err(Refused {
                refusal: Refusal::OutOfOrder,
                line,
            });
        }
        if count == 1024 {
            return Err(Refused {
                refusal: Refusal::Full,
                line,
            });
        }
        spells[count] = s;
        seen[n] = true;
        before = s;
        count += 1;
        at = next;
    }
    Ok(Reading { spells, count })
}
