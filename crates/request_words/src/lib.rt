// The word of a request's line: the table of all of them, with the layout of what follows each.
#![tactic(auto)]

ghost use Rattle.std.specs.Prelude.{◌≡◌};
ghost use Rattle.requests.specs.Words.{begins, head_of, table};
ghost use Rattle.request_words.specs.Clauses.{rows_of, head_among};

use model::Question;
use requests::{AloneWord, Head, Layout, LengthWord, NumberWord, SpellWord};

// Each word with the byte after it, a tab, or LF where no field follows, and the layout of what follows. No two of them begin the
// same line.
const TABLE: [(&[u8], Layout); 14] = [
    (b"read\t", Layout::Length(LengthWord::Read)),
    (b"room\t", Layout::Length(LengthWord::Room)),
    (b"mask\t", Layout::Mask),
    (b"days\n", Layout::Alone(AloneWord::Days)),
    (b"days\t", Layout::Days),
    (
        b"cover\t",
        Layout::Number(NumberWord::Ask(Question::Cover(0))),
    ),
    (b"span\t", Layout::Pair),
    (b"day\t", Layout::Number(NumberWord::Ask(Question::Day(0)))),
    (b"write\n", Layout::Alone(AloneWord::Write)),
    (b"publish\t", Layout::Number(NumberWord::Publish)),
    (b"take-back\n", Layout::Alone(AloneWord::TakeBack)),
    (b"strike\t", Layout::Number(NumberWord::Strike)),
    (b"amend\t", Layout::Spell(SpellWord::Amend)),
    (b"enter\t", Layout::Spell(SpellWord::Enter)),
];

// Whether the line begins with the word.
pub fn begins(line: &[u8], word: &[u8]) -> bool
    ensures { result ≡ begins word.now line.now }
{
    line.starts_with(word)
}

// The head of a line that begins with the word of a row: of the first such row.
fn head_among(rows: &[(&[u8], Layout)], line: &[u8]) -> Head
    ensures { result ≡ head_among (rows_of rows.entry.now) line.now }
{
    for (word, layout) in rows {
        if begins(line, word) {
            return Head {
                layout: *layout,
                at: word.len(),
            };
        }
    }
    Head {
        layout: Layout::Unknown,
        at: 0,
    }
}

// The head of a line, by the table of all words.
pub fn head_of(line: &[u8]) -> Head
    ensures { result ≡ head_of table line.now }
{
    head_among(&TABLE, line)
}
