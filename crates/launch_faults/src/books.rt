// What is wrong with a text that is no book.
use book::{GROUP_ATOMS, LONGEST_ATOM};

// What is wrong with a book: a line, counted from 1, is empty, too long or without a newline; there are fewer lines than nodes, or too many; or a line has the
// atom of one in front of it. These are the errors of Results.
#[derive(Clone, Copy)]
pub enum Fault {
    Empty(usize),
    Long(usize),
    Open(usize),
    Few,
    Many,
    Again(usize, usize),
}

// How many lines a text has, or what is wrong with the first that is not fine by itself. A loop over what is left of the text, whose length
// bounds the count: over the items of `split_inclusive` the check doesn't find alone that adding one to the count doesn't overflow (tried).
fn lines_of(book: &[u8]) -> Result<usize, Fault> {
    let mut count = 0;
    let mut rest = book;
    while !rest.is_empty() {
        count += 1;
        let size = rest
            .iter()
            .position(|b| *b == b'\n')
            .ok_or(Fault::Open(count))?;
        if size < 1 {
            return Err(Fault::Empty(count));
        }
        if LONGEST_ATOM < size {
            return Err(Fault::Long(count));
        }
        rest = &rest[size + 1..];
    }
    Ok(count)
}

// The first line with the atom of one in front of it, and that one, if there is such a line. Each line is fine by itself.
fn again_in(book: &[u8]) -> Result<(), Fault> {
    for (i, atom) in book.split(|b| *b == b'\n').enumerate() {
        match book::seek(book, atom) {
            Some(first) if first < i => return Err(Fault::Again(i + 1, first + 1)),
            _ => (),
        }
    }
    Ok(())
}

// Whether a text is a book for n nodes, or what is wrong with it.
pub fn check_book(book: &[u8], n: u32) -> Result<(), Fault> {
    let lines = lines_of(book)?;
    let groups = lines.checked_sub(n as usize).ok_or(Fault::Few)?;
    if GROUP_ATOMS < groups {
        return Err(Fault::Many);
    }
    again_in(book)
}
