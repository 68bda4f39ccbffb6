// Walking the groups of a launch file: each function reads one thing at a place of the text, and answers the place behind it or, as an error, the place where it
// stops. The text and the place are two parameters, as in `tokens`.
#![tactic(auto)]

ghost use Rattle.std.specs.Prelude.{◌≡◌};
ghost use Rattle.std.specs.Iterator.{YieldsFirstRef, item_count};
ghost use Rattle.walk.specs.Walk.{sign_at, atom_at, letters_at, normal_at, head_at, node_at, entry_at};
ghost use Rattle.walk.specs.Groups.{nodes, pass_nodes, pass_groups};
ghost use Rattle.walk.specs.Along.{nodes_left};

use tokens::{Atom, Token, past_white};

// A node of a group: behind it stands a comma, and the place is behind that; or it is the last one, and the place is behind the whole group. Either was
// read, so it is no Result: neither is an error.
#[derive(Clone, Copy)]
pub enum Node {
    More(Atom),
    Last(Atom),
}

// The nodes of a group, one by one: the place of the next one, where one is left.
#[derive(Clone, Copy)]
pub struct Nodes<'a> {
    text: &'a [u8],
    at: Option<usize>,
}

// What stands in the list of groups: a group, and the place behind its bracket; or the end of the list, and the place behind that. Either
// was read, so it is no Result; and both have a place, so it is no Option.
#[derive(Clone, Copy)]
pub enum Entry {
    Group(usize),
    Closed(usize),
}

// The sign c, behind white space.
#[tactic(auto, unfolding(crate::specs::Walk::sign_at, crate::specs::Walk::sign_from))]
pub fn sign_at(text: &[u8], at: usize, c: u8) -> Result<usize, usize>
    ensures { result ≡ sign_at text.now at c }
{
    let i = past_white(text, at);
    if text.get(i) == Some(&c) {
        return Ok(i + 1);
    }
    Err(i)
}

// An atom, behind white space.
#[tactic(auto, unfolding(crate::specs::Walk::atom_at))]
pub fn atom_at(text: &[u8], at: usize) -> Result<Atom, usize>
    ensures { result ≡ atom_at text.now at }
{
    let i = past_white(text, at);
    match tokens::token_at(text, i)? {
        Token::Atom(name) => Ok(name),
        Token::Number(_) => Err(i),
    }
}

// The letters of a word. The place goes on beside them: the sum of `at` and an index of `enumerate` might wrap, where a place at which a letter stands does not.
#[tactic(auto, unfolding(crate::specs::Walk::letters_at))]
fn letters_at(text: &[u8], at: usize, word: &[u8]) -> Result<usize, usize>
    ensures { result ≡ letters_at text.now at word.now }
{
    let mut j = at;
    for letter in word {
        if text.get(j) != Some(letter) {
            return Err(j);
        }
        j += 1;
    }
    Ok(j)
}

// `normal`, plain or quoted, behind white space.
#[tactic(auto, unfolding(crate::specs::Walk::normal_at, crate::specs::Walk::normal_from, crate::specs::Walk::letters_at))]
fn normal_at(text: &[u8], at: usize) -> Result<usize, usize>
    ensures { result ≡ normal_at text.now at }
{
    let i = past_white(text, at);
    if text.get(i) == Some(&b'\'') {
        return letters_at(text, i + 1, b"normal'");
    }
    letters_at(text, i, b"normal")
}

// The front of a group, behind its bracket: its name, `normal`, and the bracket of its nodes, behind which the place is.
#[tactic(auto, unfolding(crate::specs::Walk::head_at))]
pub fn head_at(text: &[u8], at: usize) -> Result<Atom, usize>
    ensures { result ≡ head_at text.now at }
{
    let name = atom_at(text, at)?;
    let kind = normal_at(text, sign_at(text, name.past, b',')?)?;
    let past = sign_at(text, sign_at(text, kind, b',')?, b'[')?;
    Ok(Atom { past, ..name })
}

// A node of a group, and what stands behind it.
#[tactic(auto, using(crate::proofs::Steps::sign_ended), unfolding(crate::specs::Walk::node_at, crate::specs::Walk::node_from))]
pub fn node_at(text: &[u8], at: usize) -> Result<Node, usize>
    ensures { result ≡ node_at text.now at }
{
    let node = atom_at(text, at)?;
    let i = past_white(text, node.past);
    if text.get(i) == Some(&b',') {
        return Ok(Node::More(Atom {
            past: i + 1,
            ..node
        }));
    }
    let past = sign_at(text, sign_at(text, i, b']')?, b'}')?;
    Ok(Node::Last(Atom { past, ..node }))
}

// What stands at a place of the list of groups, behind its bracket or, once it has begun, behind a group.
#[tactic(auto, using(crate::proofs::Steps::sign_ended), unfolding(crate::specs::Walk::entry_at, crate::specs::Walk::entry_from, crate::specs::Walk::bracket_at))]
pub fn entry_at(text: &[u8], at: usize, begun: bool) -> Result<Entry, usize>
    ensures { result ≡ entry_at text.now at begun }
{
    let i = past_white(text, at);
    if text.get(i) == Some(&b']') {
        return Ok(Entry::Closed(i + 1));
    }
    let bracket = if begun { sign_at(text, i, b',')? } else { i };
    Ok(Entry::Group(sign_at(text, bracket, b'{')?))
}

// The names of the nodes from a place on.
pub fn nodes_from(text: &[u8], at: usize) -> Nodes<'_>
    ensures { nodes_left result ≡ nodes text.now at }
{
    Nodes { text, at: Some(at) }
}

impl<'a> Iterator for Nodes<'a> {
    type Item = &'a [u8];

    ghost next_gives = { YieldsFirstRef nodes_left };

    ghost remaining = { item_count nodes_left };

    #[tactic(auto, using(crate::proofs::Steps::next_node))]
    fn next(&mut self) -> Option<&'a [u8]> {
        let at = self.at?;
        self.at = None;
        let node = match node_at(self.text, at).ok()? {
            Node::More(node) => {
                self.at = Some(node.past);
                node
            }
            Node::Last(node) => node,
        };
        Some(&self.text[node.from..node.to])
    }
}

// The rest of a group, from its first node or from behind a comma. A loop by a place: each node says where the next one stands, and the answer is the
// place where the nodes end or stop, which no item of `Nodes` has.
#[tactic(auto, using(crate::proofs::Steps::node_steps))]
pub fn pass_nodes(text: &[u8], at: usize) -> Result<usize, usize>
    ensures { result ≡ pass_nodes text.now at }
{
    let mut j = at;
    loop {
        match node_at(text, j)? {
            Node::More(node) => j = node.past,
            Node::Last(node) => return Ok(node.past),
        }
    }
}

// The groups, from behind the bracket of their list to behind the one that closes it. A loop by a place, as in `pass_nodes`.
#[tactic(auto, using(crate::proofs::Steps::group_steps))]
pub fn pass_groups(text: &[u8], at: usize) -> Result<usize, usize>
    ensures { result ≡ pass_groups text.now at }
{
    let mut j = at;
    let mut begun = false;
    loop {
        match entry_at(text, j, begun)? {
            Entry::Group(front) => {
                j = pass_nodes(text, head_at(text, front)?.past)?;
                begun = true;
            }
            Entry::Closed(past) => return Ok(past),
        }
    }
}
