// Atoms as runs of bytes: whether two are the same, and a mark by which most are told apart. Bytes are taken eight at a time.
#![tactic(auto, unfolding(crate::specs::Marks::four, crate::specs::Marks::eight, crate::specs::Marks::few, crate::specs::Marks::mixed, crate::specs::Marks::mark_of))]

ghost use Rattle.std.specs.Prelude.{◌≡◌, ◌+◌, ◌≤◌, ◌<◌, length};
ghost use Rattle.std.specs.Int.Bits.{bit_xor};
ghost use Rattle.tokens.specs.Reserved.{same};
ghost use Rattle.atoms.specs.Marks.{half_word, two, four, eight, few, short_word, mixed, mark_of};

// Numbers of 32 bits lie below this.
const HALF_WORD: u64 = 4294967296;

// A mark is a sum of products with these, without its low digits.
const LOW_FACTOR: u64 = 1000000007;

const HIGH_FACTOR: u64 = 1540483477;

const LOW_DIGITS: u64 = 16777216;

// The two bytes at a place as one number. Here and below a text and a place stand side by side: each call has another place, so that a struct of both would be made
// for every call.
pub fn two(text: &[u8], at: usize) -> u64
    requires { at + 2 ≤ length text.now }
    ensures { (result ≡ two text.now at) × (result < 65536) }
{
    u64::from(text[at]) + u64::from(text[at + 1]) * 256
}

// The four bytes at a place as one number.
fn four(text: &[u8], at: usize) -> u64
    requires { at + 4 ≤ length text.now }
    ensures { (result ≡ four text.now at) × (result < half_word) }
{
    two(text, at) + two(text, at + 2) * 65536
}

// The eight bytes at a place as one number.
fn eight(text: &[u8], at: usize) -> u64
    requires { at + 8 ≤ length text.now }
    ensures { result ≡ eight text.now at }
{
    four(text, at) + four(text, at + 4) * HALF_WORD
}

// Up to three bytes as one number.
fn few(atom: &[u8]) -> u64
    requires { 0 < length atom.now }
    ensures { result ≡ few atom.now }
{
    let n = atom.len();
    u64::from(atom[0]) + u64::from(atom[n / 2]) * 256 + u64::from(atom[n - 1]) * 65536
}

// The bytes of an atom as one number, where they are less than eight.
fn short_word(atom: &[u8]) -> u64
    requires { length atom.now < 8 }
    ensures { result ≡ short_word atom.now }
{
    let n = atom.len();
    if n == 0 {
        return 0;
    }
    if n < 4 {
        return few(atom);
    }
    four(atom, 0) + four(atom, n - 4) * HALF_WORD
}

// A number whose low digits depend on all digits of a word.
fn mixed(word: u64) -> u64
    ensures { result ≡ mixed word }
{
    (word % HALF_WORD * LOW_FACTOR + word / HALF_WORD * HIGH_FACTOR) / LOW_DIGITS
}

// The mark of an atom.
pub fn mark_of(atom: &[u8]) -> u64
    ensures { result ≡ mark_of atom.now }
{
    let n = atom.len();
    if n < 8 {
        return mixed(short_word(atom));
    }
    let ends = eight(atom, 0) ^ eight(atom, n - 8);
    mixed(ends ^ eight(atom, (n - 8) / 2) / 32)
}

// The bits in which the eight bytes at a place of two atoms differ: 0 where they are the same.
fn difference(a: &[u8], b: &[u8], at: usize) -> u64
    requires { (at + 8 ≤ length a.now) × (at + 8 ≤ length b.now) }
    ensures { result ≡ bit_xor (eight a.now at) (eight b.now at) }
{
    eight(a, at) ^ eight(b, at)
}

// Whether two atoms are the same. The first, the last and the middle eight bytes are compared at once; up to 24 these are all.
// Eight bytes at a time: `a == b` takes longer on atoms of 8 to 24 bytes (tried).
pub fn same(a: &[u8], b: &[u8]) -> bool
    ensures { result ≡ same a.now b.now }
{
    let n = a.len();
    if n != b.len() {
        return false;
    }
    if n < 8 {
        return short_word(a) == short_word(b);
    }
    if difference(a, b, 0) | difference(a, b, n - 8) | difference(a, b, (n - 8) / 2) != 0 {
        return false;
    }
    if n <= 24 {
        return true;
    }
    for k in 1..(n - 1) / 8 {
        if difference(a, b, 8 * k) != 0 {
            return false;
        }
    }
    true
}
