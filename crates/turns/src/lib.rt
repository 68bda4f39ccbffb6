// A request is called on a table, and its answer printed.
#![tactic(auto)]

ghost use Rattle.std.specs.Prelude.{◌≡◌, length, Some};
ghost use Rattle.print.specs.Puts.{Puts};
ghost use Rattle.turns.specs.Turns.{list_room, request_turn};
ghost use Rattle.step.specs.Lists.{count_of};

use answers::Value;
use commands::Command;
use line::Request;
use print::Printer;

// How many words a list has, by its answer's value.
pub fn count_of(value: Value) -> usize
    ensures { result ≡ count_of value }
{
    match value {
        Value::Listed(count) => count,
        _ => 0,
    }
}

// Calls a command and prints its answer.
fn called(
    table: &mut [u64],
    words: &mut [u64],
    printer: &mut Printer,
    caller: u32,
    command: Command,
)
    requires { length words.old ≡ list_room }
    ensures puts { Puts printer.old printer.new (request_turn table.old (Some (Request.Command caller command))).text }
    ensures left { table.new ≡ (request_turn table.old (Some (Request.Command caller command))).table }
{
    let answer = sgroup::call(table, words, caller, command);
    let value = answer.value;
    let count = count_of(value);
    printer.put_answer(&words[..count], answer);
}

// Opens and prints the answer, which has no list.
fn opened(table: &mut [u64], printer: &mut Printer, n: u32, hidden: u64)
    ensures puts { Puts printer.old printer.new (request_turn table.old (Some (Request.Open n hidden))).text }
    ensures left { table.new ≡ (request_turn table.old (Some (Request.Open n hidden))).table }
{
    let answer = opening::open(table, n, hidden);
    printer.put_answer(&[], answer);
}

// What a request does and prints; where a line is none, that it is bad.
#[tactic(auto, unfolding(crate::specs::Turns::request_turn))]
pub fn request_turn(
    table: &mut [u64],
    words: &mut [u64],
    printer: &mut Printer,
    request: Option<Request>,
)
    requires { length words.old ≡ list_room }
    ensures puts { Puts printer.old printer.new (request_turn table.old request).text }
    ensures left { table.new ≡ (request_turn table.old request).table }
{
    match request {
        Some(Request::Open(n, hidden)) => opened(table, printer, n, hidden),
        Some(Request::Command { caller, command }) => {
            called(table, words, printer, caller, command)
        }
        None => printer.put_bytes(b"bad-line\n"),
    }
}
