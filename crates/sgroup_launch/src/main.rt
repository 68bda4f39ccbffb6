// The program `sgroup_launch`: launches a table from a book and a launch file, and says which s_groups it has, or why the launch is refused.
#![tactic(auto)]

ghost use Rattle.std.specs.Prelude.{◌≡◌, length, take};
ghost use Rattle.sgroup_launch.specs.Report.{report, report_sure};

use answers::Reason;
use launch_expected::front;
use launch_why::Asked;
use refusal_head::Named;
use std::env::{Env, FillError};
use std::fs::File;
use std::io::Write;
use std::process::ExitCode;
use std::{io, str};

// How many bytes the longest book has: 64 atoms of nodes and 65,535 of groups, of 64 bytes each, with their newlines.
const BOOK_LIMIT: usize = (64 + 65535) * 65;

// How many bytes the longest file has that is read.
const FILE_LIMIT: usize = 1048576;

// One byte more, by which a longer text is known; behind a file there is room for the bytes that are tried at its end too.
const BOOK_ROOM: usize = BOOK_LIMIT + 1;

const FILE_ROOM: usize = FILE_LIMIT + 16;

// What is said of 32 s_groups of 64 nodes with the longest atoms fits.
const OUTPUT_ROOM: usize = 163840;

// The longest name of a file that the system takes fits, with one byte more.
const NAME_ROOM: usize = 4096;

// The longest number has 20 digits.
const DIGITS: usize = 20;

// Which argument is which.
const BOOK_ARG: usize = 1;

const FILE_ARG: usize = 2;

const SIZE_ARG: usize = 3;

const HIDDEN_ARG: usize = 4;

const START_ARG: usize = 5;

// The arguments and the program's name.
const ARG_COUNT: usize = 6;

// The system's number for bytes that are no text, which a name of a file has to be.
const NO_TEXT: i32 = 84;

// Writes a line to standard error, behind the program's name.
fn complain(rt: &impl Eprint, words: &str) {
    let _ = eprintln!(rt; "sgroup_launch: {words}");
}

// Says why a file cannot be read.
fn complain_of(rt: &HostRuntime, path: &[u8], error: &io::Error) {
    let _ = rt.stderr().write_all(b"sgroup_launch: ");
    loading::fail(&mut rt.stderr(), path, error);
}

// Says that a file has more bytes than are read.
fn complain_length(rt: &HostRuntime, path: &[u8], limit: usize) {
    let _ = rt.stderr().write_all(b"sgroup_launch: ");
    let _ = rt.stderr().write_all(path);
    let _ = eprintln!(rt; ": it has more than {limit} bytes");
}

// The number that an argument is.
fn number_arg(rt: &impl Env, i: usize) -> Option<u64> {
    let mut digits = [0u8; DIGITS];
    let len = rt.arg(i, &mut digits).ok()?;
    text::numeral(&digits[..len])
}

// The numbers that the last three arguments are. It says which of them is none.
fn asked_numbers(rt: &HostRuntime) -> Option<Asked> {
    let Some(n) = text::narrow(number_arg(rt, SIZE_ARG)) else {
        complain(rt, "N is a decimal number of at most 32 bits");
        return None;
    };
    let Some(hidden) = number_arg(rt, HIDDEN_ARG) else {
        complain(rt, "HIDDEN is a decimal number of at most 64 bits");
        return None;
    };
    let Some(start) = text::narrow(number_arg(rt, START_ARG)) else {
        complain(rt, "START is a decimal number of at most 32 bits");
        return None;
    };
    Some(Asked { n, hidden, start })
}

// Reads the file with this name, if it has no more bytes than the limit: how many it has. It says why not.
fn load(rt: &HostRuntime, path: &[u8], limit: usize, room: &mut [u8]) -> Option<usize> {
    let Ok(name) = str::from_utf8(path) else {
        complain_of(rt, path, &io::Error::from_raw_os_error(NO_TEXT));
        return None;
    };
    let mut file = match File::open(rt, name) {
        Ok(file) => file,
        Err(error) => {
            complain_of(rt, path, &error);
            return None;
        }
    };
    match loading::read_all(&mut file, room) {
        Ok(len) if len <= limit => Some(len),
        Ok(_) => {
            complain_length(rt, path, limit);
            None
        }
        Err(failed) => {
            complain_of(rt, path, &failed.error);
            None
        }
    }
}

// Writes the name of a file, which is an argument, into a run: how many bytes it has. It says why not.
fn name_arg(rt: &HostRuntime, i: usize, name: &mut [u8]) -> Option<usize> {
    match rt.arg(i, name) {
        Ok(len) => Some(len),
        Err(FillError::TooLong) => {
            complain(rt, "the name of a file: File name too long");
            None
        }
        Err(FillError::NotPresent) => {
            complain(rt, "the name of a file: Invalid argument");
            None
        }
    }
}

// Launches, and puts what is to be said of it. The file stands in the first bytes of the room, so many; of a slip, those from its place on are lost.
// The file is no `Named` here, as in `launch_refusals`.
fn put_report(
    out: &mut [u8],
    asked: Asked,
    book: Named,
    name: &[u8],
    room: &mut [u8],
    len: usize,
) -> usize
    ensures { take (report_sure asked book.entry.text.now name.now (take len room.old) result) (take result out.new)
        ≡ take (length out.old) (report asked book.entry.text.now name.now (take len room.old)) }
{
    let mut table = [0u64; layout::TABLE_WORDS];
    let launched = launch::launch(
        &mut table,
        asked.n,
        asked.hidden,
        asked.start,
        book.text,
        front(room, len),
    );
    let answer = launched.answer;
    let reason = answer.reason;
    if reason == Reason::Done {
        return launch_report::put_launched(out, book.text, asked.n, asked.start, &table);
    }
    launch_refusals::put_refusal(out, reason, launched.place, asked, book, name, room, len)
}

// Reads the book and the file of these names into their rooms, launches, and writes out what is said of it; nothing where it said why a file cannot be read.
fn run_named(
    rt: &HostRuntime,
    asked: Asked,
    book_name: &[u8],
    name: &[u8],
    book: &mut [u8],
    room: &mut [u8],
    out: &mut [u8],
) -> Option<ExitCode> {
    let book_len = load(rt, book_name, BOOK_LIMIT, book)?;
    let len = load(rt, name, FILE_LIMIT, room)?;
    let named = Named {
        name: book_name,
        text: front(book, book_len),
    };
    let said = put_report(out, asked, named, name, room, len);
    if let Err(error) = rt.stdout().write_all(front(out, said)) {
        return Some(loading::fail_to_write(
            &mut rt.stderr(),
            b"sgroup_launch: the output cannot be written",
            &error,
        ));
    }
    Some(ExitCode::SUCCESS)
}

// Reads the arguments, then the texts into their rooms; nothing where it said what is wrong with an argument.
fn run(rt: &HostRuntime, book: &mut [u8], room: &mut [u8], out: &mut [u8]) -> Option<ExitCode> {
    if !loading::is_given(rt, START_ARG) || loading::is_given(rt, ARG_COUNT) {
        complain(rt, "usage: sgroup_launch BOOK FILE N HIDDEN START");
        return None;
    }
    let asked = asked_numbers(rt)?;
    let mut book_name = [0u8; NAME_ROOM];
    let b = name_arg(rt, BOOK_ARG, &mut book_name)?;
    let mut name = [0u8; NAME_ROOM];
    let f = name_arg(rt, FILE_ARG, &mut name)?;
    run_named(
        rt,
        asked,
        front(&book_name, b),
        front(&name, f),
        book,
        room,
        out,
    )
}

// Lends the room for the book, the file and what is said of them.
fn main(rt: HostRuntime) -> ExitCode {
    let mut book = [0u8; BOOK_ROOM];
    let mut file = [0u8; FILE_ROOM];
    let mut out = [0u8; OUTPUT_ROOM];
    run(&rt, &mut book, &mut file, &mut out).unwrap_or(ExitCode::SUCCESS)
}
