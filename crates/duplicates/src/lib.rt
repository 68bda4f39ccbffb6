// Groups of one name in a launch file. The groups are not stored: g is the place behind the bracket of their list, and each function walks the text from there.
// A text and its places come side by side, as in `walk`: callers hold the text and have another place each time, so that a struct of both would be made for
// every call.
#![tactic(auto)]

ghost use Rattle.std.specs.Prelude.{◌≡◌, false, not, ◌||◌, take};
ghost use Rattle.std.specs.Iterator.{YieldsFirst, item_count};
ghost use Rattle.tokens.specs.Reserved.{same, among};
ghost use Rattle.walk.specs.Walk.{part};
ghost use Rattle.walk.specs.Groups.{nodes, groups};
ghost use Rattle.walk.specs.Unfold.{IsInside};
ghost use Rattle.duplicates.specs.Duplicates.{covered, equal_nodes, agreed, named, made, torn, clash};
ghost use Rattle.duplicates.specs.Next.{next_group};
ghost use Rattle.duplicates.specs.Along.{places, places_left};

use walk::{Entry, nodes_from};

// A group of the list: where its name begins and ends, the place of its first node, and the place behind it.
#[derive(Clone, Copy)]
pub struct Group {
    pub from: usize,
    pub to: usize,
    pub nodes: usize,
    pub past: usize,
}

// The groups of the list, one by one: where the next one would begin, and whether one stands in front of it.
#[derive(Clone, Copy)]
pub struct Groups<'a> {
    text: &'a [u8],
    at: usize,
    begun: bool,
}

// The group at a place of the list, behind its bracket or, once it has begun, behind a group; or no group is left.
#[tactic(auto, unfolding(crate::specs::Next::next_group))]
pub fn next_group(text: &[u8], at: usize, begun: bool) -> Option<Group>
    ensures { result ≡ next_group text.now at begun }
{
    match walk::entry_at(text, at, begun).ok()? {
        Entry::Group(front) => {
            let name = walk::head_at(text, front).ok()?;
            let past = walk::pass_nodes(text, name.past).ok()?;
            Some(Group {
                from: name.from,
                to: name.to,
                nodes: name.past,
                past,
            })
        }
        Entry::Closed(_) => None,
    }
}

// The groups of the list at a place.
pub fn groups_at(text: &[u8], g: usize) -> Groups<'_>
    ensures { places_left result ≡ places text.now g false }
{
    Groups {
        text,
        at: g,
        begun: false,
    }
}

impl Iterator for Groups<'_> {
    type Item = Group;

    ghost next_gives = { YieldsFirst places_left };

    ghost remaining = { item_count places_left };

    #[tactic(auto, using(crate::specs::Along::next_place))]
    fn next(&mut self) -> Option<Group> {
        let group = next_group(self.text, self.at, self.begun)?;
        self.at = group.past;
        self.begun = true;
        Some(group)
    }
}

// Whether an atom is among the nodes at a place.
fn holds(text: &[u8], at: usize, atom: &[u8]) -> bool
    ensures { result ≡ among (nodes text.now at) atom.now }
{
    nodes_from(text, at).any(|node| atoms::same(atom, node))
}

// Whether every node at a place is among those at the other.
fn covers(text: &[u8], at: usize, other: usize) -> bool
    ensures { result ≡ covered (nodes text.now at) (nodes text.now other) }
{
    nodes_from(text, at).all(|node| holds(text, other, node))
}

// Whether the same nodes stand at two places, in whatever order and however often.
fn equal_nodes(text: &[u8], at: usize, other: usize) -> bool
    ensures { result ≡ equal_nodes (nodes text.now at) (nodes text.now other) }
{
    covers(text, at, other) && covers(text, other, at)
}

// Whether a group has another name or the nodes at a place. At its own place it has its own nodes.
#[tactic(auto, using(crate::specs::Names::own_nodes))]
fn agrees(text: &[u8], group: Group, name: &[u8], at: usize) -> bool
    requires { IsInside text.now group.from group.to }
    ensures { result ≡ (not (same (part text.now group.from group.to) name.now) || equal_nodes (nodes text.now group.nodes) (nodes text.now at)) }
{
    group.nodes == at
        || !atoms::same(&text[group.from..group.to], name)
        || equal_nodes(text, group.nodes, at)
}

// Whether every group of a name has the nodes at a place.
fn agreed(text: &[u8], g: usize, name: &[u8], at: usize) -> bool
    ensures { result ≡ agreed (groups text.now g) name.now (nodes text.now at) }
{
    groups_at(text, g).all(|group| agrees(text, group, name, at))
}

// Whether a node is among those at a place, and not every group of a name has these.
pub fn torn(text: &[u8], g: usize, name: &[u8], at: usize, node: &[u8]) -> bool
    ensures { result ≡ torn (groups text.now g) name.now (nodes text.now at) node.now }
{
    holds(text, at, node) && !agreed(text, g, name, at)
}

// Whether one of the first so many groups has a name.
fn named_among(text: &[u8], g: usize, count: usize, name: &[u8]) -> bool
    ensures { result ≡ named (take count (groups text.now g)) name.now }
{
    groups_at(text, g)
        .take(count)
        .any(|group| atoms::same(&text[group.from..group.to], name))
}

// Whether a group with a name and the nodes at a place, behind the first so many, is made.
pub fn made(text: &[u8], g: usize, count: usize, name: &[u8], at: usize) -> bool
    ensures { result ≡ made (groups text.now g) (take count (groups text.now g)) name.now (nodes text.now at) }
{
    agreed(text, g, name, at) && !named_among(text, g, count, name)
}

// Whether a node is in a group whose namesakes do not agree.
pub fn clashes(text: &[u8], g: usize, node: &[u8]) -> bool
    ensures { result ≡ clash (groups text.now g) node.now }
{
    groups_at(text, g).any(|group| torn(text, g, &text[group.from..group.to], group.nodes, node))
}
