// Skipping the value of a pair: an atom, a number, or a list or a tuple of values, nested to a depth. The text and the place are two parameters, as in
// `tokens`, with the fact that the place is in the text.
#![tactic(auto)]

ghost use Rattle.std.specs.Prelude.{◌≡◌, ◌≤◌, ◌<◌, Err, length};
ghost use Rattle.tokens.specs.Tokens.{token_at};
ghost use Rattle.grammar.specs.File.{list, tuple, closing};
ghost use Rattle.values.specs.Skipping.{skip_of, stops_at, skip_of_number, NextItem, ToBracket, Emptied, PassedOver};

use tokens::Token;

// Lists and tuples nest so deep.
const DEPTH: usize = 16;

// Skippers answer a number: one below this is the place behind what is skipped, and this with a place on top of it stands for a stop there. No text is so long.
// A number comes back in a register, and nothing but a constant tells the two apart: a `Result`, or the length of the text, would stand in the frame of each
// bracket that is open (tried: 144 bytes of stack a bracket, where a number takes 48).
const STOP: usize = 9223372036854775808;

// The number for a stop at a place.
#[tactic(auto, unfolding(crate::specs::Skipping::skip_of_number))]
fn stop(at: usize) -> usize
    requires { at < stops_at }
    ensures { skip_of_number result ≡ Err at }
{
    STOP + at
}

// The answer that a number stands for.
#[tactic(auto, unfolding(crate::specs::Skipping::skip_of_number))]
fn answer(r: usize) -> Result<usize, usize>
    ensures { result ≡ skip_of_number r }
{
    if r < STOP { Ok(r) } else { Err(r - STOP) }
}

// Skips the atom or the number at a place.
fn plain(text: &[u8], at: usize) -> usize
    requires { at < length text.now }
    ensures { skip_of_number result ≡ skip_of (token_at text.now at) }
{
    match tokens::token_at(text, at) {
        Ok(Token::Atom(a)) => a.past,
        Ok(Token::Number(n)) => n,
        Err(p) => stop(p),
    }
}

// The place of the next item between brackets, of which close is the second, or of that bracket. A comma stands before each item
// but the first, which follows where the bracket is opened.
fn next_item(text: &[u8], at: usize, close: u8, opened: bool) -> usize
    requires { at ≤ length text.now }
    ensures { NextItem close text.now at opened (skip_of_number result) }
{
    let i = tokens::past_white(text, at);
    if text.len() <= i {
        return stop(i);
    }
    if opened {
        return i;
    }
    let b = text[i];
    if b == close {
        return i;
    }
    if b != b',' {
        return stop(i);
    }
    let past = i + 1;
    let n = tokens::past_white(text, past);
    if text.len() <= n {
        return stop(n);
    }
    if text[n] == close {
        return stop(n);
    }
    n
}

// Skips the items that are no brackets, and the first bracket, which closes or opens. A loop by a place: each item says where the next one begins, and
// the answer is the place where they end or stop, which no item has.
fn flat(text: &[u8], at: usize, close: u8, opened: bool) -> usize
    requires { at ≤ length text.now }
    ensures { ToBracket close text.now at opened (skip_of_number result) }
{
    let mut j = at;
    let mut first = opened;
    loop {
        let i = next_item(text, j, close, first);
        if STOP <= i {
            return i;
        }
        let b = text[i];
        let past = i + 1;
        if b == close {
            return past;
        }
        if b == b'[' {
            return past;
        }
        if b == b'{' {
            return past;
        }
        let n = plain(text, i);
        if STOP <= n {
            return n;
        }
        j = n;
        first = false;
    }
}

// Skips the items of a list and its closing bracket, from behind the opening one. Lists and tuples nest, each holding the other, so the skippers of both call each
// other, with the depth that is left falling. Two functions and not one with the bracket as a parameter, since the scope of the project has the skippers for lists
// and tuples call each other (01; docs/DECISIONS.md, "The form with two functions that call each other"). A loop by a place in each, as in `flat`.
#[cycle(skip_list_skip_tuple)]
fn skip_list(text: &[u8], at: usize, depth: usize) -> usize
    requires { at ≤ length text.now }
    ensures { Emptied (closing list) text.now at depth (skip_of_number result) }
{
    let mut j = at;
    let mut opened = true;
    loop {
        let n = flat(text, j, b']', opened);
        if STOP <= n {
            return n;
        }
        let i = n - 1;
        let b = text[i];
        if b == b']' {
            return n;
        }
        if depth == 0 {
            return stop(i);
        }
        let e = if b == b'[' {
            skip_list(text, n, depth - 1)
        } else {
            skip_tuple(text, n, depth - 1)
        };
        if STOP <= e {
            return e;
        }
        j = e;
        opened = false;
    }
}

// The same of a tuple.
#[cycle(skip_list_skip_tuple)]
fn skip_tuple(text: &[u8], at: usize, depth: usize) -> usize
    requires { at ≤ length text.now }
    ensures { Emptied (closing tuple) text.now at depth (skip_of_number result) }
{
    let mut j = at;
    let mut opened = true;
    loop {
        let n = flat(text, j, b'}', opened);
        if STOP <= n {
            return n;
        }
        let i = n - 1;
        let b = text[i];
        if b == b'}' {
            return n;
        }
        if depth == 0 {
            return stop(i);
        }
        let e = if b == b'[' {
            skip_list(text, n, depth - 1)
        } else {
            skip_tuple(text, n, depth - 1)
        };
        if STOP <= e {
            return e;
        }
        j = e;
        opened = false;
    }
}

// Skips the value of a pair, at a place: the place behind it, or the place of the first byte that no value has there.
pub fn skip_value(text: &[u8], at: usize) -> Result<usize, usize>
    ensures { PassedOver text.now at result }
{
    let i = tokens::past_white(text, at);
    if text.len() <= i {
        return Err(i);
    }
    match text[i] {
        b'[' => answer(skip_list(text, i + 1, DEPTH - 1)),
        b'{' => answer(skip_tuple(text, i + 1, DEPTH - 1)),
        _ => answer(plain(text, i)),
    }
}
