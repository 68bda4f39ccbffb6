// What of a refusal is determined by its answer: the reason, the place, and the line and column of a slip.
#![tactic(auto)]

ghost use Rattle.std.specs.Prelude.{◌≡◌};
ghost use Rattle.print.specs.Sheets.{sheet, put};
ghost use Rattle.print.specs.Puts.{Puts, sheet_of};
ghost use Rattle.refusal_head.specs.Refusal.{error_line, place_words, slip, head_lines};

use answers::Reason;
use print::Printer;
use reader::Reader;

// A text, and the name that messages give it.
#[derive(Clone, Copy)]
pub struct Named<'a> {
    pub name: &'a [u8],
    pub text: &'a [u8],
}

// Puts the reason and the place. The two stay apart, and the slip from both: each is asked for alone somewhere, and the definitions take them one by
// one.
fn put_error(printer: &mut Printer, reason: Reason, place: usize)
    ensures { Puts printer.old printer.new (error_line reason place) }
{
    printer.put_bytes(b"error ");
    printer.put_number(answers::number(reason) as u64);
    printer.put_bytes(b" ");
    printer.put_number(place as u64);
    printer.put_bytes(b"\n");
}

// Puts the name of a text, the line and the column of a place in it.
pub fn put_place(printer: &mut Printer, file: Named, place: usize)
    ensures put { sheet_of printer.new ≡ put (sheet_of printer.old) (place_words file.entry.name.now file.entry.text.now place) }
    ensures same_run { printer.new.bytes.ghost_name ≡ printer.old.bytes.ghost_name }
{
    let at = Reader::new(file.text).moved(place);
    printer.put_bytes(file.name);
    printer.put_bytes(b":");
    printer.put_number(at.line() as u64);
    printer.put_bytes(b":");
    printer.put_number(at.column() as u64);
    printer.put_bytes(b": ");
}

// Whether it is a file that is refused for what it is, and not its book: a place in it is named, or the book is fit.
pub fn is_slip(reason: Reason, place: usize, book: &[u8], n: u32) -> bool
    ensures { result ≡ slip reason place n book.now }
{
    if reason != Reason::NoLaunchFile {
        return false;
    }
    let mut index = [0; book::INDEX_SIZE];
    0 < place || book::fit(book, n, &mut index)
}

// Puts the reason and the place; of a slip, its line and column too.
fn put_lines(printer: &mut Printer, reason: Reason, place: usize, slip: bool, file: Named)
    ensures { Puts printer.old printer.new (head_lines reason place slip file.entry.name.now file.entry.text.now) }
{
    put_error(printer, reason, place);
    if slip {
        put_place(printer, file, place);
        printer.put_bytes(b"expected ");
    }
}

// Puts what is determined of a refusal; of a slip, its line and column too.
pub fn put_head(out: &mut [u8], reason: Reason, place: usize, slip: bool, file: Named) -> usize
    ensures { sheet out.new result ≡ put (sheet out.old 0) (head_lines reason place slip file.entry.name.now file.entry.text.now) }
{
    let mut printer = Printer { bytes: out, at: 0 };
    put_lines(&mut printer, reason, place, slip, file);
    printer.at
}
