// Numbers in decimal, and the fields of a line between its spaces.
#![tactic(auto)]

ghost use Rattle.std.specs.Prelude.{◌≡◌, length};
ghost use Rattle.text.specs.Numbers.{plain, numeral, narrow};
ghost use Rattle.text.specs.Text.{field, fields, found_in};

// Whether s is one byte, or more with no 0 in front.
pub fn plain(s: &[u8]) -> bool
    ensures { result ≡ plain s.now }
{
    match s {
        [] => false,
        [_] => true,
        [first, ..] => *first != b'0',
    }
}

// The number of 64 bits that s spells. Not by `parse`, which takes a plus and zeros in front too.
pub fn numeral(s: &[u8]) -> Option<u64>
    ensures { result ≡ numeral s.now }
{
    if !plain(s) {
        return None;
    }
    let mut v: u64 = 0;
    for b in s {
        if !b.is_ascii_digit() {
            return None;
        }
        let tens = v.checked_mul(10)?;
        v = tens.checked_add((*b - b'0') as u64)?;
    }
    Some(v)
}

// A number that fits 32 bits.
pub fn narrow(n: Option<u64>) -> Option<u32>
    ensures { result ≡ narrow n }
{
    u32::try_from(n?).ok()
}

// How many fields s has.
pub fn count(s: &[u8]) -> usize
    ensures { result ≡ length (fields s.now) }
{
    s.split(|b| *b == b' ').count()
}

// Field k of s, counted from 0; empty where there are fewer.
pub fn field(s: &[u8], k: usize) -> &[u8]
    ensures { result.now ≡ field k (fields s.now) }
{
    s.split(|b| *b == b' ').nth(k).unwrap_or(&[])
}

// The place of the first b in s; none where there is none.
pub fn find(s: &[u8], b: u8) -> Option<usize>
    ensures { result ≡ found_in b s.now }
{
    s.iter().position(|x| *x == b)
}
