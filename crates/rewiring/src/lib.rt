// What changes the connections and the free groups, in place: node i has the word i of a run. A node past the end of a run touches nothing. A run and a set
// stand side by side, since the run is a section of the table and the set is the command's; words are taken by an index, since once the borrow of `get_mut` is
// over, a proof knows nothing of what was written through it.
#![tactic(auto)]

ghost use Rattle.std.specs.Prelude.{◌≡◌, cond, ◌%◌, eqb};
ghost use Rattle.nodes.specs.Sets.{has, diff};
ghost use Rattle.semantics.specs.Steps.{mapi, interconnect, leave_free, one_free_group};

use nodes::Members;

// From so many nodes on, a pass over all words is quicker than a walk over the nodes.
const MANY_NODES: u32 = 56;

// Each pair of the set is connected: each member's word gets the other members.
pub fn interconnect(links: &mut [u64], set: u64)
    ensures { links.new ≡ interconnect set links.old }
{
    for node in Members(set) {
        let i = node as usize;
        if i < links.len() {
            links[i] |= nodes::without(set, node);
        }
    }
}

// The word stands at each node of the set: a walk over the nodes, quick where they are few.
fn fill_walk(words: &mut [u64], set: u64, word: u64)
    ensures { words.new ≡ mapi (λ i w. cond (has set i) word w) 0 words.old }
{
    for node in Members(set) {
        let i = node as usize;
        if i < words.len() {
            words[i] = word;
        }
    }
}

// The word where the lowest digit of `left` is 1, else what stands there.
fn chosen(left: u64, word: u64, old: u64) -> u64
    ensures { result ≡ cond (eqb (left % 2) 1) word old }
{
    if left % 2 == 1 { word } else { old }
}

// The word stands at each node of the set: a pass over all words, quick where the nodes are many. `left` has the digits still to come.
fn fill_pass(words: &mut [u64], set: u64, word: u64)
    ensures { words.new ≡ mapi (λ i w. cond (has set i) word w) 0 words.old }
{
    let mut left = set;
    for old in words.iter_mut() {
        *old = chosen(left, word, *old);
        left /= 2;
    }
}

// The word stands at each node of the set, in the quicker of the two ways.
fn fill(words: &mut [u64], set: u64, word: u64)
    ensures { words.new ≡ mapi (λ i w. cond (has set i) word w) 0 words.old }
{
    if MANY_NODES <= nodes::count(set) {
        fill_pass(words, set, word);
        return;
    }
    fill_walk(words, set, word);
}

// Every word loses the nodes of the set.
fn take_out(words: &mut [u64], set: u64)
    ensures { words.new ≡ mapi (λ i w. diff w set) 0 words.old }
{
    for word in words.iter_mut() {
        *word = nodes::diff(*word, set);
    }
}

// All nodes of the set leave their free groups together: they have none, and no other word has them.
pub fn leave_free(free: &mut [u64], set: u64)
    ensures { free.new ≡ leave_free set free.old }
{
    take_out(free, set);
    fill(free, set, 0);
}

// The nodes of the set are one free group: it stands in the word of each.
pub fn one_free_group(free: &mut [u64], set: u64)
    ensures { free.new ≡ one_free_group set free.old }
{
    fill(free, set, set);
}
