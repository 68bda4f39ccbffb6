// Says why a call of the system failed, and ends as a failed write ends a program. No heap is used.
ghost use Rattle.std.specs.Prelude.{◌≤◌};
ghost use Rattle.loading.specs.declared.failing.TheConstants.{TEXT_ROOM};

use std::fmt::Write as _;
use std::io::Write;
use std::process::ExitCode;
use std::{fmt, io, str};

// The longest text of an error fits.
const TEXT_ROOM: usize = 128;

// The status of a program that the signal SIGPIPE ends: 128 + 13.
const PIPE_STATUS: u8 = 141;

// The first bytes of what is written to it.
#[derive(Drop)]
struct Text {
    bytes: [u8; TEXT_ROOM],
    len: usize,
    ghost fits: { len ≤ TEXT_ROOM },
}

impl fmt::Write for Text {
    fn write_str(&mut self, s: &str) -> fmt::Result {
        let more = s.len().min(TEXT_ROOM - self.len);
        let end = self.len + more;
        self.bytes[self.len..end].copy_from_slice(&s.as_bytes()[..more]);
        self.len = end;
        Ok(())
    }
}

// Writes a line: what failed, a colon and the system's words for the error, without its number.
pub fn fail<W: Write>(to: &mut W, what: &[u8], error: &io::Error) {
    let mut text = Text {
        bytes: [0u8; TEXT_ROOM],
        len: 0,
    };
    let _ = write!(text, "{error}");
    let said = &text.bytes[..text.len];
    let words = match str::from_utf8(said) {
        Ok(all) => all,
        Err(_) => "",
    };
    let reason = match words.split_once(" (os error ") {
        Some((before, _)) => before,
        None => words,
    };
    let _ = to.write_all(what);
    let _ = to.write_all(b": ");
    let _ = to.write_all(reason.as_bytes());
    let _ = to.write_all(b"\n");
}

// The status of a program whose write failed. Where the reader went away nothing is said, and the status is the one of SIGPIPE, which would have ended the
// program if it weren't ignored; else it says what failed, with the status 0 of every program here.
pub fn fail_to_write<W: Write>(to: &mut W, what: &[u8], error: &io::Error) -> ExitCode {
    if error.kind() == io::ErrorKind::BrokenPipe {
        return ExitCode::from(PIPE_STATUS);
    }
    fail(to, what, error);
    ExitCode::SUCCESS
}
