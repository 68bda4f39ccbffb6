// The program `sgroup_run`: reads a script from standard input, runs it on a table of zero words, and writes what it prints to standard output.
#![tactic(auto)]

use std::io::Write;
use std::process::ExitCode;

// The longest script, and one byte more by which a longer one is known.
const INPUT_ROOM: usize = script::SCRIPT_LIMIT + 1;

// What is printed is written out in pieces of at most so many bytes; any line fits.
const OUTPUT_ROOM: usize = 4096;

// Runs the script of standard input on a table of zeros, piece by piece, and writes out what each piece prints.
fn main(rt: HostRuntime) -> ExitCode {
    let mut text = [0u8; INPUT_ROOM];
    let n = match loading::read_all(&mut rt.stdin(), &mut text) {
        Ok(n) => n,
        Err(failed) => {
            loading::fail(
                &mut rt.stderr(),
                b"sgroup_run: the script cannot be read",
                &failed.error,
            );
            return ExitCode::SUCCESS;
        }
    };
    let mut table = [0u64; layout::TABLE_WORDS];
    let mut out = [0u8; OUTPUT_ROOM];
    let mut at = 0;
    // By a place: each run says where the next one goes on.
    while at < n {
        let ran = script::run(&text[..n], at, &mut table, &mut out);
        if let Err(error) = rt.stdout().write_all(&out[..ran.len]) {
            return loading::fail_to_write(
                &mut rt.stderr(),
                b"sgroup_run: the output cannot be written",
                &error,
            );
        }
        at = ran.next;
    }
    ExitCode::SUCCESS
}
