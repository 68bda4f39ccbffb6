// A line of a script becomes a request.
#![tactic(auto)]

ghost use Rattle.std.specs.Prelude.{◌≡◌, length};
ghost use Rattle.text.specs.Text.{fields};
ghost use Rattle.forms.specs.Forms.{takes_set};
ghost use Rattle.line.specs.Requests.{number_in, open_line, command_by, numbered_line, command_line, request_of};

use commands::Command;

// What a script line asks for.
#[derive(Clone, Copy)]
pub enum Request {
    // a fresh table: how many nodes, and the set of hidden ones
    Open(u32, u64),
    // a command of a caller
    Command { caller: u32, command: Command },
}

// A line holds at most this many bytes before its newline.
const LINE_LIMIT: usize = 120;

// The bytes of a line without its newline, and how many fields they have.
#[derive(Clone, Copy)]
struct Line<'a> {
    bytes: &'a [u8],
    count: usize,
    ghost counted: { count ≡ length (fields bytes.now) },
}

impl Line<'_> {
    // The number in a field, which is 0 where there are fewer.
    #[tactic(auto, unfolding(crate::specs::Requests::number_in))]
    fn number_in(&self, i: usize) -> Option<u64>
        ensures { result ≡ number_in i (fields self.now.bytes.now) }
    {
        if self.count <= i {
            return Some(0);
        }
        text::numeral(text::field(self.bytes, i))
    }

    // The line `open N HIDDEN`.
    #[tactic(auto, unfolding(crate::specs::Requests::open_line))]
    fn opened(&self) -> Option<Request>
        ensures { result ≡ open_line (fields self.now.bytes.now) }
    {
        if self.count != 3 {
            return None;
        }
        let size = text::narrow(text::numeral(text::field(self.bytes, 1)))?;
        let hidden = text::numeral(text::field(self.bytes, 2))?;
        Some(Request::Open(size, hidden))
    }

    // The command of a number on the line.
    #[tactic(auto, unfolding(crate::specs::Requests::numbered_line))]
    fn numbered(&self, number: u32) -> Option<Request>
        ensures { result ≡ numbered_line number (fields self.now.bytes.now) }
    {
        command_by(
            number,
            self.number_in(0),
            self.number_in(2),
            self.number_in(3),
            self.number_in(4),
        )
    }

    // The line of a caller, a command and its arguments.
    #[tactic(auto, unfolding(crate::specs::Requests::command_line))]
    fn commanded(&self) -> Option<Request>
        ensures { result ≡ command_line (fields self.now.bytes.now) }
    {
        let arguments = self.count.checked_sub(2)?;
        let number = forms::number(text::field(self.bytes, 1), arguments);
        self.numbered(number)
    }
}

// The command of a number with its caller and three arguments as they stand, of which the second may be a set of nodes.
#[tactic(auto, unfolding(crate::specs::Requests::command_by))]
fn command_by(
    number: u32,
    caller: Option<u64>,
    a: Option<u64>,
    b: Option<u64>,
    c: Option<u64>,
) -> Option<Request>
    ensures { result ≡ command_by (takes_set number) number caller a b c }
{
    let (second, set) = if forms::takes_set(number) {
        (0, b?)
    } else {
        (text::narrow(b)?, 0)
    };
    let caller = text::narrow(caller)?;
    let command = forms::command_of(number, text::narrow(a)?, second, text::narrow(c)?, set)?;
    Some(Request::Command { caller, command })
}

// The request that a line is: its bytes without the newline.
#[tactic(auto, unfolding(crate::specs::Requests::request_of, crate::specs::Requests::request_in))]
pub fn request_of(s: &[u8]) -> Option<Request>
    ensures { result ≡ request_of s.now }
{
    if LINE_LIMIT < s.len() {
        return None;
    }
    let line = Line {
        bytes: s,
        count: text::count(s),
    };
    if text::field(s, 0) == b"open".as_slice() {
        return line.opened();
    }
    line.commanded()
}
