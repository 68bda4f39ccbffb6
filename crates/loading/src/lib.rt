// What the programs take from the system: an open file, read to its end; whether an argument is given; why a call failed.
#![tactic(auto)]

mod arguments;
mod failing;

ghost use Rattle.std.specs.Prelude.{◌≤◌, length, IfOk, IfErr};

pub use arguments::is_given;
pub use failing::{fail, fail_to_write};
use std::io;
use std::io::Read;

// A read that failed: how many bytes were read before, and the error.
#[derive(Drop)]
pub struct ReadError {
    pub len: usize,
    pub error: io::Error,
}

// Reads an open file to its end, or until buf is full: how many bytes it read.
pub fn read_all<R: Read>(from: &mut R, buf: &mut [u8]) -> Result<usize, ReadError>
    ensures read { IfOk result (λ len. len ≤ length buf.new) }
    ensures failed { IfErr result (λ e. e.len ≤ length buf.new) }
{
    let mut len = 0;
    // By hand: std's `read_to_end` needs a heap, and its `read_exact` says nothing of how much a shorter file has.
    while len < buf.len() {
        match from.read(&mut buf[len..]) {
            Err(error) => return Err(ReadError { len, error }),
            Ok(0) => break,
            Ok(more) => len += more,
        }
    }
    Ok(len)
}
