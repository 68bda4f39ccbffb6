// Sets of nodes in a word: node i is in the set where the binary digit i of the word is 1.
#![tactic(auto)]

ghost use Rattle.std.specs.Prelude.{◌≡◌, min, take, MatchOption};
ghost use Rattle.std.specs.Iterator.{at_most};
ghost use Rattle.nodes.specs.Sets.{node_limit, has, union, inter, diff, with_node, without_node, subset, roster, beyond};
ghost use Rattle.nodes.specs.Sets.{count, lowest, rest, word_at, unions_at, union_all};
ghost use Rattle.nodes.specs.Members.{Step};

// How many nodes there can be.
pub const NODE_LIMIT: u32 = 64;

// Whether the set has the node i. No set has a node past 63.
pub fn has(set: u64, i: u32) -> bool
    ensures { result ≡ has set i }
{
    i < NODE_LIMIT && (set >> i) % 2 == 1
}

// The set with the node i. A node past 63 is left out.
pub fn with(set: u64, i: u32) -> u64
    ensures { result ≡ with_node set i }
{
    if i < NODE_LIMIT { set | (1 << i) } else { set }
}

// The set without the node i.
pub fn without(set: u64, i: u32) -> u64
    ensures { result ≡ without_node set i }
{
    if i < NODE_LIMIT {
        diff(set, 1 << i)
    } else {
        set
    }
}

// The nodes that are in a or in b.
pub fn union(a: u64, b: u64) -> u64
    ensures { result ≡ union a b }
{
    a | b
}

// The nodes that are in a and in b.
pub fn inter(a: u64, b: u64) -> u64
    ensures { result ≡ inter a b }
{
    a & b
}

// The nodes of a that are not in b.
pub fn diff(a: u64, b: u64) -> u64
    ensures { result ≡ diff a b }
{
    a & !b
}

// Whether every node of a is in b.
pub fn subset(a: u64, b: u64) -> bool
    ensures { result ≡ subset a b }
{
    (a & b) == a
}

// The first n nodes. Past 64 it is all 64.
pub fn roster(n: u32) -> u64
    ensures { result ≡ roster (min n node_limit) }
{
    if n < NODE_LIMIT { (1 << n) - 1 } else { !0 }
}

// Whether a node of the set is not among the first n.
pub fn beyond(set: u64, n: u32) -> bool
    ensures { result ≡ beyond set n }
{
    n < NODE_LIMIT && (set >> n) != 0
}

// How many nodes the set has.
pub fn count(set: u64) -> u32
    ensures { result ≡ count set }
{
    u64::count_ones(set)
}

// The lowest node of the set, and 64 where it has none: no Option, since `created` of creating/Creating and `made` of launch/Launch cite `lowest` as the number of
// the caller, and `is_lowest` of free_test/WireTests as a place, for every set.
pub fn lowest(set: u64) -> u32
    ensures { result ≡ lowest set }
{
    u64::trailing_zeros(set)
}

// The set without its lowest node.
pub fn rest(set: u64) -> u64
    ensures { result ≡ rest set }
{
    if set == 0 { 0 } else { set & (set - 1) }
}

// A walk over a set: its nodes, lowest first. It holds those that are left.
#[derive(Drop)]
pub struct Members(pub u64);

impl Iterator for Members {
    type Item = u32;

    // Each node makes the number less.
    ghost remaining = { λ s. at_most s.0 };

    // A node is a step of the walk; after none is left, none is left.
    ghost next_gives = { λ s r t. MatchOption r ((s.0 ≡ 0) × (t.0 ≡ 0)) (λ node. Step s.0 node t.0) };

    fn next(&mut self) -> Option<u32> {
        let left = self.0;
        if left == 0 {
            return None;
        }
        self.0 = rest(left);
        Some(lowest(left))
    }
}

// The word at i, and the empty set past the end, as `word_at` of nodes/NodeSets has it.
pub fn word_at(words: &[u64], i: usize) -> u64
    ensures { result ≡ word_at words.now i }
{
    words.get(i).copied().unwrap_or(0)
}

// The union of the words at the nodes of the set, lowest first.
pub fn unions_at(words: &[u64], set: u64) -> u64
    ensures { result ≡ unions_at words.now set }
{
    let mut all: u64 = 0;
    for node in Members(set) {
        all |= word_at(words, node as usize);
    }
    all
}

// The union of the first n words. Where there are fewer, of all: no part is asked for, since `connecting` takes n from the table and does not know that it fits.
pub fn union_all(words: &[u64], n: usize) -> u64
    ensures { result ≡ union_all (take n words.now) }
{
    let mut all: u64 = 0;
    for word in &words[..n.min(words.len())] {
        all |= *word;
    }
    all
}
