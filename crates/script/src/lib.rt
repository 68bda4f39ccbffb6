// Runs a script line by line on a table, and prints into a run that the caller lends.
#![tactic(auto)]

ghost use Rattle.std.specs.Prelude.{◌≡◌, List, ℕ, ◌<◌, length};
ghost use Rattle.print.specs.Sheets.{sheet};
ghost use Rattle.script.specs.Scripts.{script_limit, lines_of, lines_from, size_of, stop, runs};
ghost use Rattle.script.specs.FirstLines.{first_line, asks};
ghost use Rattle.script.specs.BadLines.{first_bad};

use line::Request;
use print::Printer;

// The run for a list has so many words.
const LIST_ROOM: usize = 64;

// A script has at most so many bytes.
pub const SCRIPT_LIMIT: usize = 65536;

// No line prints more than this: the longest word, a space and 20 digits for each of two numbers, a list's words and a reason, a newline.
const LINE_ROOM: usize = 9 + 21 * (2 + LIST_ROOM + 1) + 1;

// Where a run stopped: the place in the script where it goes on, and how many bytes it printed.
#[derive(Clone, Copy)]
pub struct Ran {
    pub next: usize,
    pub len: usize,
}

// The first line of a script: how many bytes it takes, and what it asks, where it asks something.
#[derive(Clone, Copy)]
struct Head {
    size: usize,
    request: Option<Request>,
}

// The first line of s.
fn first(s: &[u8]) -> Head
    ensures { (result.size ≡ size_of (first_line s.now)) × (result.request ≡ asks (first_line s.now)) }
{
    let Some(end) = text::find(s, b'\n') else {
        return Head {
            size: s.len(),
            request: None,
        };
    };
    Head {
        size: end + 1,
        request: line::request_of(&s[..end]),
    }
}

// What a script that is too long prints.
fn refuse(script: &[u8], from: usize, out: &mut [u8]) -> Ran
    requires { script_limit < length script.now }
    ensures { (t : List ℕ) → stop result.next t (sheet out.new result.len) ≡ runs (lines_from script.now from) from t (sheet out.old 0) }
{
    if script.len() <= from {
        return Ran { next: from, len: 0 };
    }
    if out.len() < LINE_ROOM {
        return Ran { next: from, len: 0 };
    }
    let len = print::put_bytes(out, 0, b"too-long\n");
    Ran {
        next: script.len(),
        len,
    }
}

// Runs the lines of a script from the place `from` on, and prints at the front of `out`, as long as there is room for any line.
pub fn run(script: &[u8], from: usize, table: &mut [u64], out: &mut [u8]) -> Ran
    ensures { stop result.next table.new (sheet out.new result.len)
        ≡ runs (lines_from script.now from) from table.old (sheet out.old 0) }
{
    if SCRIPT_LIMIT < script.len() {
        return refuse(script, from, out);
    }
    let mut words = [0u64; LIST_ROOM];
    let mut printer = Printer { bytes: out, at: 0 };
    let mut at = from;
    // A place that goes on by a line, and is returned: an iterator over lines says where it stands no more plainly.
    while at < script.len() {
        if printer.bytes.len() - printer.at < LINE_ROOM {
            return Ran {
                next: at,
                len: printer.at,
            };
        }
        let head = first(&script[at..]);
        turns::request_turn(table, &mut words, &mut printer, head.request);
        at += head.size;
    }
    Ran {
        next: at,
        len: printer.at,
    }
}

// The number of the first line of a script that is bad, from 1.
pub fn bad_line(script: &[u8]) -> Option<usize>
    ensures { result ≡ first_bad 1 (lines_of script.now) }
{
    let mut from = 0;
    let mut number = 1;
    // The same walk by `first` as in `run`, so that both mean the same lines. An iterator over heads would serve this loop alone, and be longer than it is:
    // `run` needs the place that it stands at.
    while from < script.len() {
        let head = first(&script[from..]);
        if head.request.is_none() {
            return Some(number);
        }
        from += head.size;
        number += 1;
    }
    None
}
