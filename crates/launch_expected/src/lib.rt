// What a launch file has at the place where a text stops being one, in words. The reader is asked: it reads the text in front of the place with other bytes
// behind it.
#![tactic(auto)]

ghost use Rattle.std.specs.Prelude.{◌≡◌, min, length, take};
ghost use Rattle.nodes.specs.NodeSets.{node_limit};
ghost use Rattle.launch_expected.specs.Following.{follows, following, Kept};

use nodes::NODE_LIMIT;
use print::Printer;
use reader::Reader;

// The first so many bytes of a run, or all of them where it has fewer.
pub fn front(run: &[u8], len: usize) -> &[u8]
    ensures { result.now ≡ take len run.now }
{
    &run[..len.min(run.len())]
}

// A text in a room, and the place in it at which other bytes are tried. What stands in the room from there on is lost.
#[derive(Drop)]
struct Trial<'a> {
    room: &'a mut [u8],
    place: usize,
}

// Those of some bytes whose numbers are in a set, each between words, and behind an `or` where something was put since `start`.
fn put_choices(
    printer: &mut Printer,
    start: usize,
    bytes: &[u8],
    set: u64,
    before: &[u8],
    behind: &[u8],
) {
    for (i, byte) in (0..NODE_LIMIT).zip(bytes) {
        if nodes::has(set, i) {
            if start < printer.at {
                printer.put_bytes(b" or ");
            }
            printer.put_bytes(before);
            printer.put_bytes(&[*byte]);
            printer.put_bytes(behind);
        }
    }
}

impl Trial<'_> {
    // Whether some launch file begins with the text in front of the place and these bytes, which are written there. The room is borrowed once for both calls: of
    // a field that is borrowed anew for the second, it is not known that it keeps what the first put there (tried).
    fn fits(&mut self, bytes: &[u8]) -> bool
        ensures value { result ≡ follows self.old.room.now self.old.place bytes.now }
        ensures kept { Kept self.old self.new }
    {
        let room = &mut *self.room;
        if room.len() < self.place {
            return false;
        }
        let end = print::put_bytes(room, self.place, bytes);
        match Reader::new(front(room, end)).read() {
            Ok(_) => true,
            Err(p) => end <= p,
        }
    }

    // Which of some bytes fit at the place, as a set of their numbers.
    fn fitting(&mut self, bytes: &[u8]) -> u64
        ensures value { result ≡ following self.old.room.now self.old.place bytes.now (min node_limit (length bytes.now)) }
        ensures kept { Kept self.old self.new }
    {
        let mut set = 0;
        let tried = front(bytes, NODE_LIMIT as usize);
        for (i, byte) in tried.iter().enumerate() {
            if self.fits(&[*byte]) {
                set = nodes::with(set, i as u32);
            }
        }
        set
    }

    // The signs that fit, but for the full stop.
    fn put_signs(&mut self, printer: &mut Printer, start: usize) {
        let set = self.fitting(b"[{,]}");
        put_choices(printer, start, b"[{,]}", set, b"", b"");
    }

    // `normal`, or the letter of it that fits.
    fn put_normal(&mut self, printer: &mut Printer) {
        if self.fits(b"'normal") {
            printer.put_bytes(b"normal");
        } else {
            let set = self.fitting(b"normal'");
            let start = printer.at;
            put_choices(printer, start, b"normal'", set, b"the ", b" of normal");
        }
    }

    // What begins at the place or goes on there, but for signs.
    fn put_begun(&mut self, printer: &mut Printer) {
        let atom = self.fits(b"z");
        match (atom, self.fits(b"7")) {
            (true, true) => printer.put_bytes(b"an atom or a number"),
            (true, false) => printer.put_bytes(b"an atom"),
            (false, true) => printer.put_bytes(b"another digit"),
            (false, false) => self.put_normal(printer),
        }
    }

    // The rest of a quoted atom. Apart from `put_ending`: one function for both would take three texts of bytes, and a call would not say which of them
    // is tried.
    fn put_quoted(&mut self, printer: &mut Printer) {
        if self.fits(b"'") {
            printer.put_bytes(b"more of the atom, but no backslash, or its closing quote");
        } else {
            printer.put_bytes(b"more of the atom (an entry of this name stands there already)");
        }
    }

    // The rest of a plain atom, and the signs behind it.
    fn put_plain(&mut self, printer: &mut Printer) {
        let start = printer.at;
        printer.put_bytes(b"more of the atom");
        let word = printer.at;
        self.put_signs(printer, start);
        if printer.at == word {
            printer.put_bytes(
                b" (it is a reserved word of Erlang, or an entry of this name stands there already)",
            );
        }
    }

    // Whether a list of pairs goes on at the place, and an entry is its own: one with a list for its value and no number.
    fn lacks(&mut self, with_list: &[u8], with_number: &[u8]) -> bool {
        self.fits(with_list) && !self.fits(with_number)
    }

    // Names the entry without which a list of pairs does not end, as its first or behind another.
    fn put_lacking(&mut self, printer: &mut Printer) {
        if self.lacks(b"{kernel,[", b"{kernel,7") || self.lacks(b",{kernel,[", b",{kernel,7") {
            printer.put_bytes(b" (kernel is missing)");
        } else if self.lacks(b"{s_groups,[", b"{s_groups,7")
            || self.lacks(b",{s_groups,[", b",{s_groups,7")
        {
            printer.put_bytes(b" (s_groups is missing)");
        }
    }

    // What fits inside the list of the file, but for white space.
    fn put_inside(&mut self, printer: &mut Printer) {
        let start = printer.at;
        self.put_begun(printer);
        self.put_signs(printer, start);
    }

    // What fits behind the list of the file.
    fn put_ending(&mut self, printer: &mut Printer) {
        if self.fits(b".") {
            printer.put_bytes(b"a full stop");
        } else {
            printer.put_bytes(b"white space or the end of the file");
        }
    }
}

// Puts at a place of a run, in words, what some launch file has at the place where the text in the room is refused, and answers the next place of the run. What
// stands in the room from the place of the refusal on is lost.
pub fn put_expected(out: &mut [u8], at: usize, room: &mut [u8], place: usize) -> usize {
    let closes = room.get(place) == Some(&b']');
    let mut printer = Printer { bytes: out, at };
    let mut trial = Trial { room, place };
    if trial.fits(b"!") {
        trial.put_quoted(&mut printer);
    } else if trial.fits(b"Q") {
        trial.put_plain(&mut printer);
    } else {
        trial.put_inside(&mut printer);
        if printer.at == at {
            trial.put_ending(&mut printer);
        } else if closes {
            trial.put_lacking(&mut printer);
        }
    }
    printer.at
}
