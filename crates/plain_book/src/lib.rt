// A book tested and searched by its lines alone, for the rare ways of a launch: no index is made, and no array.
#![tactic(auto)]

ghost use Rattle.std.specs.Prelude.{◌≡◌, true};
ghost use Rattle.book.specs.Book.{fit, node_atoms, found_among, number_in};

// A book for so many nodes.
#[derive(Clone, Copy)]
pub struct PlainBook<'a> {
    pub text: &'a [u8],
    pub nodes: u32,
    ghost fits: { fit nodes text.now ≡ true },
}

// Whether a text is a book for n nodes. `book::read` goes over the lines as this does: one function for both would take what tells a new line, and what notes its
// place, as two closures with a place, a count and an index between them, and be longer than this loop.
#[tactic(auto, using(book::specs::Passing::line_found))]
pub fn fits(book: &[u8], n: u32) -> bool
    ensures { result ≡ fit n book.now }
{
    let mut i = 0;
    // A place in the text, since each line is looked for in what stands in front of it.
    let mut at = 0;
    while at < book.len() {
        let Some(end) = book::atom_end(book, at) else {
            return false;
        };
        if book::seek(&book[..at], &book[at..end]).is_some() {
            return false;
        }
        i += 1;
        at = end + 1;
    }
    book::groups_behind(i, n).is_some()
}

// Both methods are as those of `book::Book` but for the search: a trait with the search and its law would be longer than the two.
impl PlainBook<'_> {
    // The place of an atom among the node atoms; none where it is none of them.
    #[tactic(auto, using(book::specs::Finding::node_placed))]
    pub fn node_in(&self, atom: &[u8]) -> Option<u32>
        ensures { result ≡ found_among atom.now (node_atoms self.now.nodes self.now.text.now) }
    {
        let at = book::seek(self.text, atom)?;
        if self.nodes as usize <= at {
            return None;
        }
        Some(at as u32)
    }

    // The number of an atom among the group atoms, from 1; none where it is none of them.
    #[tactic(auto, using(book::specs::Finding::group_placed))]
    pub fn group_in(&self, atom: &[u8]) -> Option<u16>
        ensures { result ≡ number_in self.now.nodes self.now.text.now atom.now }
    {
        let i = book::seek(self.text, atom)?.checked_sub(self.nodes as usize)?;
        Some(i as u16 + 1)
    }
}
