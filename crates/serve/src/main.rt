// The service that stays up: reads requests on standard input and writes one answer for each on standard output, until the input
// ends. With a file's name it begins by reading that register. What fails is told on standard error.
#![tactic(auto)]

ghost use Rattle.std.specs.Prelude.{◌≤◌, length, take};
ghost use Rattle.published_index.specs.Index.{Published};
ghost use Rattle.service.specs.Service.{blocks, Given};
ghost use Rattle.conversations.specs.Answering.{Looks};
ghost use Rattle.serving.specs.Serving.{sight_in, Sees, Finishes};
ghost use Rattle.input.specs.Input.{Within};

use conversations::{Answered, DAYS, Looked, ROOM, Wanted};
use replies::OUT;
use service::Service;
use serving::{ARRIVED, Seen};
use stabbing::INDEX;
use std::env::{Env, FillError};
use std::fs::File;
use std::io::{ErrorKind, Print};
use std::{io, str};
use streams::{LINE, TEXT};

// One byte more than a register's text may have.
const FILE: usize = 65537;

// The places of a list for the file's name.
const PATH: usize = 4096;

// ---- Requests

// Writes what stands from `at` on; false where that can't be done, which is told.
fn write_from<P: Print>(rt: &HostRuntime, to: &P, out: &[u8], at: usize, name: &[u8]) -> bool {
    if out.len() < at {
        return false;
    }
    output::write(to, &out[at..], &rt.stderr(), name).is_ok()
}

// Sends the answer that ends the list.
fn send(rt: &HostRuntime, out: &[u8; OUT], at: usize) -> bool {
    write_from(rt, &rt.stdout(), out, at, b"serve: standard output")
}

// A look at the first n bytes of the line.
fn look(
    index: &[u16; INDEX],
    room: usize,
    line: &[u8],
    n: usize,
    days: &mut [u16; DAYS],
    numbers: &mut [u16; ROOM],
    text: &[u8; ROOM],
    out: &mut [u8; OUT],
) -> Looked
    requires { (Published index.now) × (n ≤ length line.now) }
    ensures { Looks (blocks index.now) room (take n line.now) days.old numbers.old text.now out.old result days.new numbers.new out.new }
{
    looking::look(index, room, &line[..n], days, numbers, text, out)
}

// Takes the next request and looks at it: what wants no service is answered. One that the input's end cuts short is not taken.
fn see(
    rt: &HostRuntime,
    index: &[u16; INDEX],
    room: usize,
    arrived: &mut [u8; ARRIVED],
    start: usize,
    end: usize,
    line: &mut [u8; LINE],
    payload: &mut [u8; TEXT],
    days: &mut [u16; DAYS],
    numbers: &mut [u16; ROOM],
    text: &[u8; ROOM],
    out: &mut [u8; OUT],
    gathered: &[u8; OUT],
    held: usize,
) -> Option<Seen>
    requires { Published index.now }
    ensures { Sees (blocks index.now) room arrived.old start end days.old numbers.old text.now out.old (sight_in result) arrived.new line.new payload.new days.new numbers.new out.new }
{
    let request = incoming::next(rt, arrived, start, end, line, payload, gathered, held)?;
    let looked = look(index, room, line, request.line, days, numbers, text, out);
    Some(Seen { request, looked })
}

// Carries out what a request wants of the service, with the first m bytes of what follows its line.
fn carry(
    service: Service,
    index: &mut [u16; INDEX],
    room: usize,
    wanted: Wanted,
    payload: &[u8],
    m: usize,
    days: &[u16; DAYS],
    numbers: &mut [u16; ROOM],
    text: &mut [u8; ROOM],
    out: &mut [u8; OUT],
) -> Answered
    requires given { Given service (blocks index.old) }
    requires m_in_bounds { m ≤ length payload.now }
    ensures given_2 { Given result.service (blocks index.new) }
    ensures finishes { Finishes service (blocks index.old) room wanted (take m payload.now) days.now numbers.old text.old out.old result (blocks index.new) numbers.new text.new out.new }
{
    wire::carry(
        service,
        index,
        room,
        wanted,
        &payload[..m],
        days,
        numbers,
        text,
        out,
    )
}

// Serves requests until the input ends or the output is closed. A proved loop has to end, so its requests are counted, up to a
// number that no service comes to.
fn converse(
    rt: &HostRuntime,
    service: Service,
    index: &mut [u16; INDEX],
    arrived: &mut [u8; ARRIVED],
    line: &mut [u8; LINE],
    payload: &mut [u8; TEXT],
    days: &mut [u16; DAYS],
    numbers: &mut [u16; ROOM],
    text: &mut [u8; ROOM],
    out: &mut [u8; OUT],
    gathered: &mut [u8; OUT],
)
    requires { Given service (blocks index.old) }
{
    let mut service = service;
    let mut room = ROOM;
    let mut start = 0;
    let mut end = 0;
    let mut held = 0;
    for _ in 0..u64::MAX {
        let Some(seen) = see(
            rt, index, room, arrived, start, end, line, payload, days, numbers, text, out,
            gathered, held,
        ) else {
            return;
        };
        let request = seen.request;
        let place = match seen.looked {
            Looked::Done(_, later, at) => {
                room = later;
                at
            }
            Looked::Wants(wanted) => {
                let answered = carry(
                    service,
                    index,
                    room,
                    wanted,
                    payload,
                    request.payload,
                    days,
                    numbers,
                    text,
                    out,
                );
                service = answered.service;
                room = answered.room;
                answered.place
            }
        };
        let Some(n) = incoming::gather(rt, gathered, request.held, out, place) else {
            return;
        };
        held = n;
        start = request.start;
        end = request.end;
    }
}

// Lends a conversation its lists.
fn serve(rt: &HostRuntime, service: Service, index: &mut [u16; INDEX])
    requires { Given service (blocks index.old) }
{
    let mut arrived = [0u8; ARRIVED];
    let mut line = [0u8; LINE];
    let mut payload = [0u8; TEXT];
    let mut days = [0u16; DAYS];
    let mut numbers = [0u16; ROOM];
    let mut text = [0u8; ROOM];
    let mut out = [0u8; OUT];
    let mut gathered = [0u8; OUT];
    converse(
        rt,
        service,
        index,
        &mut arrived,
        &mut line,
        &mut payload,
        &mut days,
        &mut numbers,
        &mut text,
        &mut out,
        &mut gathered,
    );
}

// ---- The beginning

fn serve_fresh(rt: &HostRuntime) {
    let mut index = [0u16; INDEX];
    let service = service::fresh(&mut index);
    serve(rt, service, &mut index);
}

// Whether the answer of a reading, from the place `at` on, refuses the text: it begins with the first letter of `refused`, and else with
// that of `ok`.
fn is_refused(out: &[u8; OUT], at: usize) -> bool {
    out.get(at) == Some(&b'r')
}

// Says that the file's register is refused, by the answer of its reading.
fn tell_refusal(rt: &HostRuntime, path: &[u8], out: &[u8; OUT], at: usize) {
    output::say(&rt.stderr(), b"serve: ");
    output::say(&rt.stderr(), path);
    output::say(&rt.stderr(), b": the register is not taken: ");
    write_from(rt, &rt.stderr(), out, at, b"serve: standard error");
}

// Begins on a register's text, and sends the answer of its reading first. A refused register is told too, and nothing is served.
fn serve_text(rt: &HostRuntime, path: &[u8], text: &[u8]) {
    let mut index = [0u16; INDEX];
    let mut out = [0u8; OUT];
    let a = wire::restart(&mut index, ROOM, text.len() as u64, text, &mut out);
    let open = send(rt, &out, a.place);
    if is_refused(&out, a.place) {
        tell_refusal(rt, path, &out, a.place);
        return;
    }
    if open {
        serve(rt, a.service, &mut index);
    }
}

// Says what failed with the file.
fn report(rt: &HostRuntime, path: &[u8], error: &io::Error) {
    output::say(&rt.stderr(), b"serve: ");
    output::tell(&rt.stderr(), path, error);
}

// Opens the file of that name, which the library takes as text alone.
fn open(rt: &HostRuntime, path: &[u8]) -> io::Result<File> {
    let name = str::from_utf8(path).map_err(|_| io::Error::from(ErrorKind::InvalidFilename))?;
    File::open(rt, name)
}

// Reads the file of that name until the text is full or the file ends, and closes it.
fn read_file(rt: &HostRuntime, path: &[u8], text: &mut [u8]) -> io::Result<usize>
    ensures { Within (length text.old) result }
{
    let mut file = open(rt, path)?;
    input::fill(&mut file, text)
}

fn serve_file(rt: &HostRuntime, path: &[u8]) {
    let mut text = [0u8; FILE];
    match read_file(rt, path, &mut text) {
        Ok(n) => serve_text(rt, path, &text[..n]),
        Err(error) => report(rt, path, &error),
    }
}

fn usage(rt: &HostRuntime) {
    output::say(
        &rt.stderr(),
        b"usage: serve [FILE]\nReads requests on standard input and writes one answer for each on standard output, until the input ends.\nWith FILE it begins by reading that register, and its first line of output is the answer to that reading. Where the\nregister is refused nothing is served.\nThe requests and answers are described in docs/PROTOCOL.md.\n",
    );
}

// Begins on the file that the first argument names, where it is the only one and no option.
fn serve_named(rt: &HostRuntime, path: &[u8; PATH], n: usize)
    requires { n ≤ 4096 }
{
    if !matches!(rt.arg(2, &mut []), Err(FillError::NotPresent)) || path[0] == b'-' {
        usage(rt);
        return;
    }
    serve_file(rt, &path[..n]);
}

fn main(rt: HostRuntime) {
    let mut path = [0u8; PATH];
    match rt.arg(1, &mut path) {
        Ok(n) => serve_named(&rt, &path, n),
        Err(FillError::NotPresent) => serve_fresh(&rt),
        Err(FillError::TooLong) => output::say(
            &rt.stderr(),
            b"serve: the name of the file: File name too long\n",
        ),
    }
}
