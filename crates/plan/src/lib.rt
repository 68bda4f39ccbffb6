// What is to be made of the groups of a launch file: the number and the nodes of each, by the book.
#![tactic(auto)]

ghost use Rattle.std.specs.Prelude.{◌≡◌, Ok, ℕ, ◌*◌, ◌<◌, length, take};
ghost use Rattle.pairs.specs.Woven.{woven};
ghost use Rattle.semantics.specs.Sizes.{group_limit};
ghost use Rattle.walk.specs.Groups.{nodes, groups};
ghost use Rattle.book.specs.Book.{node_atoms};
ghost use Rattle.duplicates.specs.Duplicates.{kept};
ghost use Rattle.plan.specs.Plan.{plan_words, fitting, verdict};
ghost use Rattle.plan.specs.Looked.{members, entered, put};

use layout::GROUP_LIMIT;
use pairs::{Made, Plan};
use plain_book::PlainBook;

// What speaks against the groups, first of all.
#[derive(Clone, Copy)]
pub enum Misfit {
    // the starting node is in a group whose namesakes do not agree
    Clash,
    // an atom is not in the book
    Unknown,
    TooMany,
}

// The nodes at a place, by the book; or one of them is not on the roster.
#[tactic(auto, using(crate::proofs::Steps::member_steps))]
fn members_at(text: &[u8], at: usize, book: &PlainBook<'_>) -> Option<u64>
    ensures { result ≡ members (node_atoms book.now.nodes book.now.text.now) 0 (nodes text.now at) }
{
    let mut set = 0;
    for node in walk::nodes_from(text, at) {
        set = nodes::with(set, book.node_in(node)?);
    }
    Some(set)
}

// A group with a name and the nodes at a place, by the book; or an atom of it is not there.
#[tactic(auto, using(crate::proofs::Steps::entered_steps))]
fn enter(text: &[u8], name: &[u8], at: usize, book: &PlainBook<'_>) -> Option<Made>
    ensures { result ≡ entered book.now.nodes book.now.text.now name.now (nodes text.now at) }
{
    let number = book.group_in(name)?;
    let set = members_at(text, at, book)?;
    Some(Made { number, set })
}

// The group k is written, where there is room for it.
#[tactic(auto, using(crate::proofs::Steps::put_steps))]
fn put(plan: &mut Plan, k: usize, group: Made)
    ensures room { k < group_limit → length plan.old ≡ group_limit }
    ensures written { woven plan.new ≡ put (woven plan.old) k group.number group.set }
{
    if k < GROUP_LIMIT {
        plan.put(k, group);
    }
}

// The plan where no node clashes.
fn fitted(text: &[u8], g: usize, book: &PlainBook<'_>, plan: &mut Plan) -> Result<usize, Misfit>
    ensures value { result ≡ fitting book.now.nodes book.now.text.now (kept (groups text.now g)) }
    ensures by_index { (k : ℕ) → result ≡ Ok k → take (2 * k) (woven plan.new) ≡ plan_words book.now.nodes book.now.text.now (kept (groups text.now g)) }
{
    let mut k = 0;
    for (count, group) in duplicates::groups_at(text, g).enumerate() {
        let name = &text[group.from..group.to];
        if duplicates::made(text, g, count, name, group.nodes) {
            let next = enter(text, name, group.nodes, book).ok_or(Misfit::Unknown)?;
            put(plan, k, next);
            k += 1;
        }
    }
    if GROUP_LIMIT < k {
        return Err(Misfit::TooMany);
    }
    Ok(k)
}

// How many groups are to be made of the list whose bracket stands in front of g, by a book, from the starting node on. Where they fit, the first ones are theirs.
#[tactic(auto, unfolding(crate::specs::Plan::verdict))]
pub fn plan_of(
    text: &[u8],
    g: usize,
    book: &PlainBook<'_>,
    start: u32,
    plan: &mut Plan,
) -> Result<usize, Misfit>
    ensures value { result ≡ verdict book.now.nodes book.now.text.now start (groups text.now g) }
    ensures by_index { (k : ℕ) → result ≡ Ok k → take (2 * k) (woven plan.new) ≡ plan_words book.now.nodes book.now.text.now (kept (groups text.now g)) }
{
    if duplicates::clashes(text, g, book::line(book.text, start as usize)) {
        return Err(Misfit::Clash);
    }
    fitted(text, g, book, plan)
}
