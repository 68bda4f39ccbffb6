// The groups of a launch file made a plan of in one walk: each is read, looked up in the book and written down. Where anything about them is not plain, nothing
// is said, and a closer look is left to others.
#![tactic(auto)]

ghost use Rattle.std.specs.Prelude.{◌≡◌, ◌≤◌, IfSome};
ghost use Rattle.semantics.specs.Sizes.{group_limit};
ghost use Rattle.gathering.specs.Gathering.{Noded, Planned};

use book::Book;
use layout::GROUP_LIMIT;
use pairs::{Made, Plan};
use walk::{Entry, Node};

// The nodes from a place on, by the book, and the place behind their group; none where one is not on the roster, or the text stops. A loop by a place, here and
// in `gather`: the place behind is answered, which no item of an iterator has.
fn nodes_at(text: &[u8], at: usize, book: &Book) -> Option<(u64, usize)>
    ensures { IfSome result (λ r. Noded book.now.nodes book.now.text.now text.now at 0 r.0 r.1) }
{
    let mut set: u64 = 0;
    let mut j = at;
    loop {
        match walk::node_at(text, j).ok()? {
            Node::More(node) => {
                let i = book.node_of(&text[node.from..node.to])?;
                set = nodes::with(set, i);
                j = node.past;
            }
            Node::Last(node) => {
                let last = book.node_of(&text[node.from..node.to])?;
                return Some((nodes::with(set, last), node.past));
            }
        }
    }
}

// The groups of the list whose bracket stands in front of g, by a book. Where each is in the book and no two have one name: how many they are, and the place
// behind their list; the first that are made are theirs. None where something about them wants a closer look.
pub fn gather(text: &[u8], g: usize, book: &Book, plan: &mut Plan) -> Option<(usize, usize)>
    ensures { IfSome result (λ r. Planned book.now.nodes book.now.text.now text.now g plan.new r.0 r.1) }
{
    let mut k = 0;
    let mut j = g;
    let mut begun = false;
    loop {
        match walk::entry_at(text, j, begun).ok()? {
            Entry::Closed(end) => return Some((k, end)),
            Entry::Group(front) => {
                let name = walk::head_at(text, front).ok()?;
                let number = book.group_of(&text[name.from..name.to])?;
                if GROUP_LIMIT <= k {
                    return None;
                }
                if plan.has(k, number) {
                    return None;
                }
                let (set, next) = nodes_at(text, name.past, book)?;
                plan.put(k, Made { number, set });
                k += 1;
                j = next;
                begun = true;
            }
        }
    }
}
