// The program `sgroup_who`: runs the script of standard input on a table of zero words, and says who goes by a process in the table that is left.
#![tactic(auto)]

ghost use Rattle.std.specs.Prelude.{◌≡◌};
ghost use Rattle.print.specs.Sheets.{sheet, put};
ghost use Rattle.script.specs.Scripts.{lines_from, left};
ghost use Rattle.sgroup_who.specs.Report.{told, report};

use std::env::Env;
use std::io::Write;
use std::process::ExitCode;

// The longest script, and one byte more by which a longer one is known.
const INPUT_ROOM: usize = script::SCRIPT_LIMIT + 1;

// What the lines of a script print goes here, piece over piece, and is not shown; any line fits.
const LINES_ROOM: usize = 4096;

// So many words are enough for any list: a pid has at most one name in an s_group.
const LIST_ROOM: usize = layout::ROW_WORDS * layout::GROUP_LIMIT;

// What is said of a process fits.
const OUTPUT_ROOM: usize = 4096;

// The longest number has 20 digits.
const DIGITS: usize = 20;

// Which argument is the pid, and how many there are with the program's name.
const PID_ARG: usize = 1;

const ARG_COUNT: usize = 2;

// Writes a line to standard error, behind the program's name. As in `sgroup_launch`: one function for both programs would take the name too, and be as long as
// either.
fn complain(rt: &impl Eprint, words: &str) {
    let _ = eprintln!(rt; "sgroup_who: {words}");
}

// Says which line of the script is bad.
fn complain_line(rt: &impl Eprint, number: usize) {
    let _ = eprintln!(rt;
        "sgroup_who: line {number} of the script is no command: it prints bad-line"
    );
}

// The pid that the argument is.
fn pid_arg(rt: &impl Env) -> Option<u32> {
    if !loading::is_given(rt, PID_ARG) || loading::is_given(rt, ARG_COUNT) {
        return None;
    }
    let mut digits = [0u8; DIGITS];
    let len = rt.arg(PID_ARG, &mut digits).ok()?;
    text::narrow(text::numeral(&digits[..len]))
}

// Runs a script on the table. By a place: each run says where the next one goes on.
fn run_script(script: &[u8], table: &mut [u64])
    ensures { table.new ≡ left table.old (lines_from script.now 0) }
{
    let mut lines = [0u8; LINES_ROOM];
    let mut at = 0;
    while at < script.len() {
        let ran = script::run(script, at, table, &mut lines);
        at = ran.next;
    }
}

// Puts what is said of the pid in a table: the index of the table is written, and read by the pid.
fn put_told(out: &mut [u8], p: u32, table: &[u64]) -> usize
    ensures { sheet out.new result ≡ put (sheet out.old 0) (told p table.now) }
{
    let mut index = [0u64; layout::INDEX_WORDS];
    indexed::write(table, &mut index);
    let mut list = [0u64; LIST_ROOM];
    let answer = indexed::names_of(table, &index, p, &mut list);
    let value = answer.value;
    let count = turns::count_of(value);
    who_report::put_who(out, p, &list[..count], answer)
}

// Puts what is said of the pid after a script.
fn put_report(out: &mut [u8], p: u32, script: &[u8]) -> usize
    ensures { sheet out.new result ≡ put (sheet out.old 0) (report p script.now) }
{
    let mut table = [0u64; layout::TABLE_WORDS];
    run_script(script, &mut table);
    put_told(out, p, &table)
}

// Says who goes by the pid after a script, or why it is none.
fn say(rt: &HostRuntime, out: &mut [u8], p: u32, script: &[u8]) -> ExitCode {
    if script::SCRIPT_LIMIT < script.len() {
        complain(rt, "the script is too long: it has more than 65536 bytes");
        return ExitCode::SUCCESS;
    }
    if let Some(number) = script::bad_line(script) {
        complain_line(rt, number);
        return ExitCode::SUCCESS;
    }
    let len = put_report(out, p, script);
    if let Err(error) = rt.stdout().write_all(&out[..len]) {
        return loading::fail_to_write(
            &mut rt.stderr(),
            b"sgroup_who: the output cannot be written",
            &error,
        );
    }
    ExitCode::SUCCESS
}

// Reads the argument, and the script of standard input into its room.
fn run(rt: &HostRuntime, text: &mut [u8], out: &mut [u8]) -> ExitCode {
    let Some(p) = pid_arg(rt) else {
        complain(
            rt,
            "usage: sgroup_who PID, a decimal number of at most 32 bits, with the script on standard input",
        );
        return ExitCode::SUCCESS;
    };
    match loading::read_all(&mut rt.stdin(), text) {
        Ok(n) => say(rt, out, p, &text[..n]),
        Err(failed) => {
            loading::fail(
                &mut rt.stderr(),
                b"sgroup_who: the script cannot be read",
                &failed.error,
            );
            ExitCode::SUCCESS
        }
    }
}

// Lends the room for the script and what is said.
fn main(rt: HostRuntime) -> ExitCode {
    let mut text = [0u8; INPUT_ROOM];
    let mut out = [0u8; OUTPUT_ROOM];
    run(&rt, &mut text, &mut out)
}
