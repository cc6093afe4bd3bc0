// The answers of one line: a request that is done, one of no form, a refusal.
#![tactic(auto)]

ghost use Rattle.std.specs.Prelude.{◌≤◌, length};
ghost use Rattle.fields.specs.Answers.{Puts};
ghost use Rattle.replies.specs.Replies.{ok_text, malformed_text, bytes_text, refused_text, refused_line};
ghost use Rattle.replies.specs.Sending.{Sends};

use replies::OUT;

// An answer is put into the end of a list from its last byte to its first: each writer puts its bytes before the
// place `at` and returns the place where they begin.

// The bytes before the place `at`. Nothing is written where there is no room for them.
pub fn put_bytes(out: &mut [u8], at: usize, text: &[u8]) -> usize
    ensures { Puts (length text.now) (bytes_text text.now) out.old at result out.new }
{
    if at < text.len() || out.len() < at {
        return at;
    }
    let start = at - text.len();
    out[start..at].copy_from_slice(text);
    start
}

// A text alone.
fn put_alone(out: &mut [u8; OUT], text: &[u8]) -> usize
    requires { length text.now ≤ 65536 }
    ensures { Sends text.now out.old result out.new }
{
    put_bytes(out, OUT, text)
}

pub fn put_ok(out: &mut [u8; OUT]) -> usize
    ensures { Sends ok_text out.old result out.new }
{
    put_alone(out, b"ok\n")
}

pub fn put_malformed(out: &mut [u8; OUT]) -> usize
    ensures { Sends malformed_text out.old result out.new }
{
    put_alone(out, b"malformed\n")
}

// A refused call.
pub fn put_refused(out: &mut [u8; OUT], number: u16) -> usize
    ensures { Sends (refused_text number) out.old result out.new }
{
    let at = decimals::put_number(out, OUT, number, b'\n');
    put_bytes(out, at, b"refused\t")
}

// A refused reading.
pub fn put_refused_line(out: &mut [u8; OUT], number: u16, line: u16) -> usize
    ensures { Sends (refused_line number line) out.old result out.new }
{
    let i = decimals::put_number(out, OUT, line, b'\n');
    let j = decimals::put_number(out, i, number, b'\t');
    put_bytes(out, j, b"refused\t")
}
