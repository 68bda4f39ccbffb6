// The tests of free normal groups and of members' connections, which stand in runs of one word a node. Each loop gathers what is wrong and looks at it once,
// at the end: a sound table has to be passed whole, and a loop that stops early takes longer there (tried in plain Rust with `all_zero`: four times as long on
// 32 words).
#![tactic(auto)]

ghost use Rattle.std.specs.Prelude.{◌≡◌, ◌≤◌, ◌<◌, length};
ghost use Rattle.nodes.specs.Sets.{node_limit};
ghost use Rattle.semantics.specs.Test.{freely};
ghost use Rattle.free_test.specs.WireTests.{all_zero, all_of, members_met, own_free, is_lowest, free_sound};
ghost use Rattle.free_test.specs.Knowing.{Known, knows_all};

use nodes::{Members, NODE_LIMIT, diff, lowest, subset, without, word_at};

// How many words a run has.
pub const NODE_WORDS: usize = NODE_LIMIT as usize;

// Whether every word is zero.
pub fn all_zero(words: &[u64]) -> bool
    ensures { result ≡ all_zero words.now }
{
    let mut all: u64 = 0;
    for word in words {
        all |= *word;
    }
    all == 0
}

// Whether each member of the set has the other members among its connections.
pub fn members_met(links: &[u64], set: u64) -> bool
    ensures { result ≡ members_met links.now set }
{
    let Some(links) = links.as_array::<NODE_WORDS>() else {
        return false;
    };
    let mut missed: u64 = 0;
    for i in Members(set) {
        missed |= diff(without(set, i), links[i as usize]);
    }
    missed == 0
}

// Writes the connections of each node with the node itself among them. By an index: once a `zip` over `iter_mut` is over, a proof knows nothing of what it wrote.
pub fn know(links: &[u64; NODE_WORDS], known: &mut [u64; NODE_WORDS])
    ensures { Known links.now known.new }
{
    for i in 0..NODE_WORDS {
        known[i] = links[i] | (1 << i);
    }
}

// Whether each member of the set knows all members.
pub fn known_met(known: &[u64; NODE_WORDS], set: u64) -> bool
    ensures { result ≡ all_of set (knows_all known.now set) }
{
    let mut common: u64 = !0;
    for i in Members(set) {
        common &= known[i as usize];
    }
    subset(set, common)
}

// The free normal group of node i, from its connections and the free normal nodes: by shifts, without the test of i against 64 that `nodes::has` and `with`
// make. That i is below is asked as in `connecting::link`.
fn freely(loose: u64, i: usize, word: u64) -> u64
    requires { i < node_limit }
    ensures { result ≡ freely loose i word }
{
    if (loose >> i) % 2 == 1 {
        (word & loose) | (1 << i)
    } else {
        0
    }
}

// Whether each of the first n words is the free normal group that the connections give. That n is no more than 64 is asked here and twice in links_test: it is
// one number, which a struct would only wrap.
fn own_free(links: &[u64; NODE_WORDS], free: &[u64; NODE_WORDS], loose: u64, n: usize) -> bool
    requires { n ≤ node_limit }
    ensures { result ≡ own_free links.now free.now loose n }
{
    let mut off: u64 = 0;
    for i in 0..n {
        off |= free[i] ^ freely(loose, i, links[i]);
    }
    off == 0
}

// Whether the word of each node of the set is that of its lowest node.
fn own_lowest(free: &[u64; NODE_WORDS], set: u64) -> bool
    ensures { result ≡ all_of set (is_lowest free.now) }
{
    let mut off: u64 = 0;
    for i in Members(set) {
        let group = free[i as usize];
        off |= word_at(free, lowest(group) as usize) ^ group;
    }
    off == 0
}

// Whether the free normal groups are those of the first n nodes, of which loose has the free normal ones.
pub fn free_sound<'a>(links: &'a [u64], free: &'a [u64], loose: u64, n: u32) -> bool
    ensures { result ≡ free_sound links.now free.now loose n }
{
    let Some(links) = links.as_array::<NODE_WORDS>() else {
        return false;
    };
    let Some(free) = free.as_array::<NODE_WORDS>() else {
        return false;
    };
    if n > NODE_LIMIT {
        return false;
    }
    if loose == 0 {
        return all_zero(free);
    }
    let size = n as usize;
    own_free(links, free, loose, size) & all_zero(&free[size..]) & own_lowest(free, loose)
}
