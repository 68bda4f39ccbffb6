// Bytes, numbers and answers, put one behind the other into a run that the caller lends. Where the run is full, what is left over is dropped.
#![tactic(auto)]

ghost use Rattle.std.specs.Prelude.{◌≡◌, [], ◌∷◌, ◌++◌};
ghost use Rattle.answers.specs.Outputs.{output_word, numbers};
ghost use Rattle.print.specs.Printed.{decimal, spaced, answer_line};
ghost use Rattle.print.specs.Sheets.{sheet, put};
ghost use Rattle.print.specs.Puts.{Puts};

use answers::{Answer, Value};

// The most digits that a number of 64 bits has.
const MOST_DIGITS: usize = 20;

// Puts one byte at a place of a run, and answers the next place.
fn put_byte(out: &mut [u8], at: usize, b: u8) -> usize
    ensures { sheet out.new result ≡ put (sheet out.old at) (b ∷ []) }
{
    if at < out.len() {
        out[at] = b;
        return at + 1;
    }
    at
}

// Puts bytes at a place of a run, and answers the next place. They go one by one, since those that do not fit are dropped, and the place is a local: in a
// `Printer` it is in memory, which took twice the time.
pub fn put_bytes(out: &mut [u8], at: usize, s: &[u8]) -> usize
    ensures { sheet out.new result ≡ put (sheet out.old at) s.now }
{
    let mut next = at;
    for b in s {
        next = put_byte(out, next, *b);
    }
    next
}

// A run of bytes that the caller lends, printed on up to a place. Where a crate is handed a run, it makes a Printer of it, calls what puts, and answers the
// place: that is three lines, which no function with a closure would shorten.
#[derive(Drop)]
pub struct Printer<'a> {
    pub bytes: &'a mut [u8],
    pub at: usize,
}

impl Printer<'_> {
    // Puts one byte.
    fn put_byte(&mut self, b: u8)
        ensures { Puts self.old self.new (b ∷ []) }
    {
        self.at = put_byte(self.bytes, self.at, b);
    }

    // Puts bytes.
    pub fn put_bytes(&mut self, s: &[u8])
        ensures { Puts self.old self.new s.now }
    {
        self.at = put_bytes(self.bytes, self.at, s);
    }

    // Puts a number in decimal.
    pub fn put_number(&mut self, n: u64)
        ensures { Puts self.old self.new (decimal n) }
    {
        let mut text = [0u8; MOST_DIGITS];
        let k = io::decimal(n, &mut text);
        self.put_bytes(&text[..k]);
    }

    // Puts a space and a number.
    fn put_spaced(&mut self, n: u64)
        ensures { Puts self.old self.new (spaced (n ∷ [])) }
    {
        self.put_byte(b' ');
        self.put_number(n);
    }

    // Puts each of some numbers behind a space.
    fn put_words(&mut self, words: &[u64])
        ensures { Puts self.old self.new (spaced words.now) }
    {
        for word in words {
            self.put_spaced(*word);
        }
    }

    // Puts the word of a value and its numbers. Not by `Display`: what `{}` writes is promised of a `String` alone, which is in the heap.
    #[tactic(auto, using(crate::specs::Puts::puts_next), unfolding(crate::specs::Printed::spaced))]
    fn put_value(&mut self, value: Value)
        ensures { Puts self.old self.new (output_word value ++ spaced (numbers value)) }
    {
        match value {
            Value::Ok => self.put_bytes(b"ok"),
            Value::True => self.put_bytes(b"true"),
            Value::False => self.put_bytes(b"false"),
            Value::Error => self.put_bytes(b"error"),
            Value::Undefined => self.put_bytes(b"undefined"),
            Value::Pid(pid) => {
                self.put_bytes(b"pid");
                self.put_spaced(pid as u64);
            }
            Value::Grouped(name, set) => {
                self.put_bytes(b"group");
                self.put_spaced(name as u64);
                self.put_spaced(set);
            }
            Value::Nodes(nodes, count) => {
                self.put_bytes(b"nodes");
                self.put_spaced(nodes);
                self.put_spaced(count as u64);
            }
            Value::Listed(count) => {
                self.put_bytes(b"list");
                self.put_spaced(count as u64);
            }
        }
    }

    // Puts the line of an answer; `words` are those of its list.
    pub fn put_answer(&mut self, words: &[u64], answer: Answer)
        ensures { Puts self.old self.new (answer_line words.now answer) }
    {
        self.put_value(answer.value);
        self.put_words(words);
        self.put_spaced(answers::number(answer.reason) as u64);
        self.put_byte(b'\n');
    }
}
