// The name book of a launch: one atom a line, those of the nodes first, in the order of the roster, then those of the groups. An index of 512 lent bytes is
// made while a book is tested; it leads from an atom to its line. What makes it takes the text, the number of nodes and the index side by side: the facts of a
// struct are the same for all its functions, and here each knows another (`Holds`, `Places`, `Reading`, `Noted`), up to that of `Book` at the end.
#![tactic(auto)]

ghost use Rattle.std.specs.Prelude.{◌≡◌, true, not, ◌&&◌, [], ◌≤◌, ◌<◌, leb, length, get_or, take, IfSome};
ghost use Rattle.std.specs.Iterator.{YieldsFirstRef, item_count};
ghost use Rattle.tokens.specs.Reserved.{among};
ghost use Rattle.book_index.specs.Layout.{hint_count, with_mark};
ghost use Rattle.book.specs.Book.{longest_atom, lines, fit, node_atoms, found_among, number_in};
ghost use Rattle.book.specs.Index.{indexed_lines, atom_mark, Holds, Places, Noted, Indexed};
ghost use Rattle.book.specs.Left.{lines_left};
ghost use Rattle.book.specs.Passing.{atom_end, groups_behind};
ghost use Rattle.book.specs.Reading.{Reading};

pub use book_index::INDEX_SIZE;
use book_index::{HINTS, Index, MARKS};

// The bytes of the longest atom.
pub const LONGEST_ATOM: usize = 64;

// So many group atoms a book can have.
pub const GROUP_ATOMS: usize = 65535;

// An index knows the places of so many lines, and behind these the number of group atoms.
const INDEXED_LINES: usize = 126;

const GROUP_NUMBER: usize = 127;

// A book for so many nodes, with its index.
#[derive(Clone, Copy)]
pub struct Book<'a> {
    pub text: &'a [u8],
    pub nodes: u32,
    pub index: &'a Index,
    ghost indexed: { Indexed nodes text.now index.now },
}

// The lines of a text, one by one: what is left of the text. What no newline ends is no line.
#[derive(Clone, Copy)]
struct Lines<'a> {
    rest: &'a [u8],
}

impl<'a> Iterator for Lines<'a> {
    type Item = &'a [u8];

    ghost next_gives = { YieldsFirstRef lines_left };

    ghost remaining = { item_count lines_left };

    #[tactic(auto, using(crate::specs::LineLaws::next_line))]
    fn next(&mut self) -> Option<&'a [u8]> {
        let end = text::find(self.rest, b'\n')?;
        let line = &self.rest[..end];
        self.rest = &self.rest[end + 1..];
        Some(line)
    }
}

// Line i of a book, from 0; empty where there are fewer.
pub fn line(book: &[u8], i: usize) -> &[u8]
    ensures { result.now ≡ get_or (lines book.now) i [] }
{
    Lines { rest: book }.nth(i).unwrap_or(&[])
}

// The place, from 0, of the first line that is an atom; none where none is.
pub fn seek(book: &[u8], atom: &[u8]) -> Option<usize>
    ensures { result ≡ found_among atom.now (lines book.now) }
{
    Lines { rest: book }.position(|line| atoms::same(atom, line))
}

// Whether a line of so many bytes is an atom.
fn is_atom(size: usize) -> bool
    ensures { result ≡ leb 1 size && leb size longest_atom }
{
    (1..=LONGEST_ATOM).contains(&size)
}

// Where the line at a place ends; none where no newline ends it, or it is no atom.
#[tactic(auto, unfolding(crate::specs::Passing::atom_end))]
pub fn atom_end(book: &[u8], at: usize) -> Option<usize>
    requires { at ≤ length book.now }
    ensures { result ≡ atom_end book.now at }
{
    let size = text::find(&book[at..], b'\n')?;
    if !is_atom(size) {
        return None;
    }
    Some(at + size)
}

// How many of so many lines are group atoms in a book for n nodes; none where they are too few or too many for a book.
#[tactic(auto, unfolding(crate::specs::Passing::groups_behind))]
pub fn groups_behind(count: usize, n: u32) -> Option<usize>
    ensures { result ≡ groups_behind count n }
{
    let groups = count.checked_sub(n as usize)?;
    if GROUP_ATOMS < groups {
        return None;
    }
    Some(groups)
}

// Line j of a book, by the places that the index has.
fn noted<'a>(book: &'a [u8], index: &Index, j: usize) -> &'a [u8]
    requires { (j < indexed_lines) × Holds book.now index.now j }
    ensures { result.now ≡ get_or (lines book.now) j [] }
{
    let from = book_index::number(index, j);
    let next = book_index::number(index, j + 1);
    &book[from..next - 1]
}

// Whether an atom is one of the first `count` lines of a book, by the places that the index has.
fn among_first(book: &[u8], index: &Index, count: usize, atom: &[u8]) -> bool
    requires { (count ≤ indexed_lines) × (count ≤ length (lines book.now)) × Places count book.now index.now }
    ensures { result ≡ among (take count (lines book.now)) atom.now }
{
    for j in 0..count {
        if atoms::same(atom, noted(book, index, j)) {
            return true;
        }
    }
    false
}

// Whether an atom is none of the lines passed, of which there are `count` up to a place; it gets its mark. The rare search has
// parts, as in `place`.
fn is_new(book: &[u8], at: usize, count: usize, atom: &[u8], index: &mut Index) -> bool
    requires { Reading book.now index.old count at }
    ensures { (result ≡ not (among (lines (take at book.now)) atom.now)) × (index.new ≡ with_mark index.old (atom_mark atom.now)) }
{
    let mark = (atoms::mark_of(atom) % MARKS) as usize;
    let met = book_index::has_mark(index, mark);
    book_index::set_mark(index, mark);
    if !met {
        return true;
    }
    if count <= INDEXED_LINES {
        return !among_first(book, index, count, atom);
    }
    seek(&book[..at], &atom[0..]).is_none()
}

// Whether a text is a book for n nodes. Where it is, the numbers of the index are those of the book. A loop by a place, as in `plain_book::fits`.
#[tactic(auto, using(crate::specs::Passing::line_found))]
fn read(book: &[u8], n: u32, index: &mut Index) -> bool
    ensures { (result ≡ fit n book.now) × (result ≡ true → Noted n book.now index.new) }
{
    book_index::clear(index);
    book_index::put_number(index, 0, 0);
    let mut i = 0;
    let mut at = 0;
    while at < book.len() {
        let Some(end) = atom_end(book, at) else {
            return false;
        };
        if !is_new(book, at, i, &book[at..end], index) {
            return false;
        }
        i += 1;
        at = end + 1;
        if i <= INDEXED_LINES {
            book_index::put_number(index, i, at as u16);
        }
    }
    let Some(groups) = groups_behind(i, n) else {
        return false;
    };
    book_index::put_number(index, GROUP_NUMBER, groups as u16);
    true
}

// The place where the hints of an atom begin.
fn slot_of(atom: &[u8]) -> usize
    ensures { result < hint_count }
{
    atoms::mark_of(atom) as usize % HINTS
}

// Writes a hint for each line whose place the index has.
fn hint(book: &[u8], n: u32, index: &mut Index)
    requires { Noted n book.now index.old }
    ensures { Indexed n book.now index.new }
{
    let count = n as usize + book_index::number(index, GROUP_NUMBER);
    let last = count.min(INDEXED_LINES);
    book_index::clear(index);
    for j in 0..last {
        let slot = slot_of(noted(book, index, j));
        let at = book_index::free(index, slot);
        index[at] = (j + 1) as u8;
    }
}

// Whether a text is a book for n nodes. Where it is, the index becomes that of the book.
pub fn fit(book: &[u8], n: u32, index: &mut Index) -> bool
    ensures { (result ≡ fit n book.now) × (result ≡ true → Indexed n book.now index.new) }
{
    if !read(book, n, index) {
        return false;
    }
    hint(book, n, index);
    true
}

impl Book<'_> {
    // The line that an atom is, where a hint leads to it. The place wraps, and so is stepped by hand.
    fn hinted(&self, atom: &[u8]) -> Option<usize>
        ensures { IfSome result (λ j. (j < indexed_lines) × (j < length (lines self.now.text.now)) × (get_or (lines self.now.text.now) j [] ≡ atom.now)) }
    {
        let mut at = slot_of(atom);
        for _ in 0..HINTS {
            let hint = usize::from(self.index[at]);
            if hint == 0 {
                return None;
            }
            let j = hint - 1;
            if atoms::same(atom, noted(self.text, self.index, j)) {
                return Some(j);
            }
            at = (at + 1) % HINTS;
        }
        None
    }

    // The place of an atom among all lines; none where it is none of them. The rare search has parts that are the whole runs: handed
    // on as they came, both would lie in memory for its sake, and cost more than the rest.
    fn place(&self, atom: &[u8]) -> Option<usize>
        ensures { result ≡ found_among atom.now (lines self.now.text.now) }
    {
        if let Some(j) = self.hinted(atom) {
            return Some(j);
        }
        seek(&self.text[0..], &atom[0..])
    }

    // The place of an atom among the node atoms; none where it is none of them.
    #[tactic(auto, using(crate::specs::Finding::node_placed))]
    pub fn node_of(&self, atom: &[u8]) -> Option<u32>
        ensures { result ≡ found_among atom.now (node_atoms self.now.nodes self.now.text.now) }
    {
        let at = self.place(atom)?;
        if self.nodes as usize <= at {
            return None;
        }
        Some(at as u32)
    }

    // The number of an atom among the group atoms, from 1; none where it is none of them.
    #[tactic(auto, using(crate::specs::Finding::group_placed))]
    pub fn group_of(&self, atom: &[u8]) -> Option<u16>
        ensures { result ≡ number_in self.now.nodes self.now.text.now atom.now }
    {
        let i = self.place(atom)?.checked_sub(self.nodes as usize)?;
        Some(i as u16 + 1)
    }
}
