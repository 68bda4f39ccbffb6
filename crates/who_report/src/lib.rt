// What is said of a process: a line for each name that it has, or why it cannot be told.
#![tactic(auto)]

ghost use Rattle.std.specs.Prelude.{◌≡◌};
ghost use Rattle.print.specs.Sheets.{sheet, put};
ghost use Rattle.print.specs.Puts.{Puts};
ghost use Rattle.who_report.specs.Who.{name_line, name_lines, names_told, host_words, why, who_lines};

use answers::{Answer, Reason};
use entries::host_of;
use print::Printer;

// Puts the line of a name: the s_group, and the name in it.
fn put_name(printer: &mut Printer, s: u64, n: u64)
    ensures { Puts printer.old printer.new (name_line s n) }
{
    printer.put_bytes(b"s_group ");
    printer.put_number(s);
    printer.put_bytes(b" name ");
    printer.put_number(n);
    printer.put_bytes(b"\n");
}

// Puts a line for each s_group and name of a list.
fn put_lines(printer: &mut Printer, words: &[u64])
    ensures { Puts printer.old printer.new (name_lines words.now) }
{
    let (names, _) = words.as_chunks::<2>();
    for [s, n] in names {
        put_name(printer, *s, *n);
    }
}

// Puts the same, or a line that says that there is none.
fn put_names(printer: &mut Printer, words: &[u64])
    ensures { Puts printer.old printer.new (names_told words.now) }
{
    if words.is_empty() {
        printer.put_bytes(b"no name\n");
    } else {
        put_lines(printer, words);
    }
}

// Puts that the host of the pid is no node of the table.
fn put_host(printer: &mut Printer, p: u32)
    ensures { Puts printer.old printer.new (host_words p) }
{
    printer.put_bytes(b"the pid's host, node ");
    printer.put_number(host_of(p) as u64);
    printer.put_bytes(b", is not on the roster\n");
}

// Puts why the names of the pid cannot be told.
#[tactic(auto, unfolding(crate::specs::Who::why))]
fn put_why(printer: &mut Printer, p: u32, reason: Reason)
    ensures { Puts printer.old printer.new (why p reason) }
{
    match reason {
        Reason::Unsound => printer.put_bytes(b"the script opens no table\n"),
        Reason::NodeUnknown => put_host(printer, p),
        _ => {}
    }
}

// Puts what is said of an answer with its list: the names, or the line of the refusal, and why.
fn put_told(printer: &mut Printer, p: u32, words: &[u64], answer: Answer)
    ensures { Puts printer.old printer.new (who_lines p words.now answer) }
{
    if answer.reason == Reason::Done {
        put_names(printer, words);
    } else {
        printer.put_answer(words, answer);
        put_why(printer, p, answer.reason);
    }
}

// Puts what is said of the answer to who goes by the pid; `words` are those of its list.
pub fn put_who(out: &mut [u8], p: u32, words: &[u64], answer: Answer) -> usize
    ensures { sheet out.new result ≡ put (sheet out.old 0) (who_lines p words.now answer) }
{
    let mut printer = Printer { bytes: out, at: 0 };
    put_told(&mut printer, p, words, answer);
    printer.at
}
