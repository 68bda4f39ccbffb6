// The atom of a launch file for which a launch is refused.
use duplicates::{groups_at, next_group};
use walk::{Node, node_at};

// An atom of a file: the place where it begins, and its bytes.
#[derive(Clone, Copy)]
pub struct Spot<'a> {
    pub at: usize,
    pub atom: &'a [u8],
}

// An atom that is not in its part of the book: the name of a group, or a node of one. Both have the atom, so it is no Option.
#[derive(Clone, Copy)]
pub enum Stranger<'a> {
    Group(Spot<'a>),
    Node(Spot<'a>),
}

// The atoms of a book: its first n lines are those of the nodes, and those of the groups stand behind them. `launch_report` has a struct of the two of its own,
// whose methods put lines: neither crate stands on the other.
#[derive(Clone, Copy)]
struct Atoms<'a> {
    book: &'a [u8],
    n: u32,
}

// The atom between two places; it has no bytes where there are no such places.
fn spot_at(text: &[u8], from: usize, to: usize) -> Spot<'_> {
    let atom = text.get(from..to).unwrap_or(b"");
    Spot { at: from, atom }
}

// The name of the first group with the name of one that has other nodes, the node with this atom in it. The groups stand at g.
pub fn torn_group<'a>(text: &'a [u8], g: usize, node: &[u8]) -> Option<Spot<'a>> {
    for group in groups_at(text, g) {
        let name = spot_at(text, group.from, group.to);
        if duplicates::torn(text, g, name.atom, group.nodes, node) {
            return Some(name);
        }
    }
    None
}

impl Atoms<'_> {
    // Whether an atom is one of a node.
    fn has_node(&self, atom: &[u8]) -> bool {
        book::seek(self.book, atom).is_some_and(|i| i < self.n as usize)
    }

    // Whether an atom is one of a group.
    fn has_group(&self, atom: &[u8]) -> bool {
        book::seek(self.book, atom).is_some_and(|i| self.n as usize <= i)
    }

    // The atom between two places, where it is not one of a node.
    fn unlisted_at<'a>(&self, text: &'a [u8], from: usize, to: usize) -> Option<Spot<'a>> {
        let name = spot_at(text, from, to);
        if self.has_node(name.atom) {
            return None;
        }
        Some(name)
    }

    // The first of the nodes at a place that is not in the book. By places: `walk::Nodes` gives names alone, and a message needs the place.
    fn unlisted_node<'a>(&self, text: &'a [u8], nodes: usize) -> Option<Spot<'a>> {
        let mut at = nodes;
        for _ in 0..text.len() {
            match node_at(text, at).ok()? {
                Node::Last(node) => return self.unlisted_at(text, node.from, node.to),
                Node::More(node) => {
                    let found = self.unlisted_at(text, node.from, node.to);
                    if found.is_some() {
                        return found;
                    }
                    at = node.past;
                }
            }
        }
        None
    }

    // The first atom of a group with this name that is not in the book: the name, or one of the nodes, which stand at a place.
    fn unlisted_in<'a>(
        &self,
        text: &'a [u8],
        name: Spot<'a>,
        nodes: usize,
    ) -> Option<Stranger<'a>> {
        if !self.has_group(name.atom) {
            return Some(Stranger::Group(name));
        }
        self.unlisted_node(text, nodes).map(Stranger::Node)
    }
}

// The first atom of a group that is to be made that is not in the book for n nodes. The groups stand at g. By a place, since the number of a group is wanted too:
// with `groups_at` and `enumerate` the goal `loop-count-init` stays open (tried).
pub fn unlisted<'a>(text: &'a [u8], g: usize, book: &[u8], n: u32) -> Option<Stranger<'a>> {
    let atoms = Atoms { book, n };
    let mut at = g;
    for count in 0..text.len() {
        let group = next_group(text, at, 0 < count)?;
        let name = spot_at(text, group.from, group.to);
        if duplicates::made(text, g, count, name.atom, group.nodes) {
            let found = atoms.unlisted_in(text, name, group.nodes);
            if found.is_some() {
                return found;
            }
        }
        at = group.past;
    }
    None
}
