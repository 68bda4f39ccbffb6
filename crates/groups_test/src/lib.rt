// The tests of the s_groups of a table, whose s_groups hold at most `cap` names each. The loops gather, as in `free_test`, and go by an index, which is the
// place of an s_group.
#![tactic(auto)]

ghost use Rattle.std.specs.Prelude.{◌≡◌, ◌≤◌, ◌<◌, length};
ghost use Rattle.semantics.specs.Sizes.{group_limit, bodies_at, table_words};
ghost use Rattle.free_test.specs.WireTests.{all_below};
ghost use Rattle.groups_test.specs.GroupTests.{grouped_of, names_right, met_right, body};

use free_test::NODE_WORDS;
use layout::{BODIES_AT, CONTENTS_AT, FREE_AT, LINKS_AT, MEMBERS_AT, group_name, name_count};
use namespace_test::SLOT_COUNT;

// From so many s_groups on it is quicker to write each node beside its connections first.
const KNOWN_FROM: usize = 6;

// The words of a table, lent for reading, with the number of s_groups that its head gives. It may end where the names would begin: only what reads names asks
// for the room of `cap` names an s_group.
#[derive(Clone, Copy)]
pub struct Counted<'a> {
    pub words: &'a [u64],
    pub count: usize,
    pub ghost long: { bodies_at ≤ length words.now },
    pub ghost few: { count ≤ group_limit },
}

impl<'a> Counted<'a> {
    // The words of the names of an s_group.
    pub fn body(self, cap: usize, i: usize) -> &'a [u64]
        requires sized { length self.words.now ≡ table_words cap }
        requires below { i < group_limit }
        ensures { result.now ≡ body cap self.entry.words.now i }
    {
        let start = BODIES_AT + cap * i;
        &self.words[start..start + cap]
    }
}

// The nodes in an s_group, where the names of the s_groups ascend from 1, their counts of names are within the capacity, each has a member, and all members are
// among the first n nodes; none where something is wrong with contents or members.
pub fn grouped_nodes(t: Counted<'_>, n: u32, cap: usize) -> Option<u64>
    ensures { result ≡ grouped_of cap t.entry.words.now t.entry.count n }
{
    let mut right = true;
    let mut all: u64 = 0;
    let mut last: u64 = 0;
    for i in 0..t.count {
        let word = t.words[CONTENTS_AT + i];
        let set = t.words[MEMBERS_AT + i];
        let name = group_name(word);
        right &= (last < name) & ((name_count(word) <= cap) & (set != 0));
        last = name;
        all |= set;
    }
    (right & !nodes::beyond(all, n)).then_some(all)
}

// Whether the members of each are all connected, from the connections as they are.
fn few_met(t: Counted<'_>) -> bool
    ensures { result ≡ all_below t.entry.count (met_right t.entry.words.now) }
{
    let mut right = true;
    for i in 0..t.count {
        let set = t.words[MEMBERS_AT + i];
        right &= free_test::members_met(&t.words[LINKS_AT..FREE_AT], set);
    }
    right
}

// Whether the members of each are all connected, with each node written beside its connections first. Beside `few_met`, not with it one function that takes
// the test as a closure: what such a one promises would speak of the closure in place of `met_right`.
fn many_met(t: Counted<'_>) -> bool
    ensures { result ≡ all_below t.entry.count (met_right t.entry.words.now) }
{
    let mut known = [0u64; NODE_WORDS];
    let links = t.words[LINKS_AT..FREE_AT].as_array::<NODE_WORDS>().unwrap();
    free_test::know(links, &mut known);
    let mut right = true;
    for i in 0..t.count {
        let set = t.words[MEMBERS_AT + i];
        right &= free_test::known_met(&known, set);
    }
    right
}

// Whether the members of each are all connected.
pub fn members_met(t: Counted<'_>) -> bool
    ensures { result ≡ all_below t.entry.count (met_right t.entry.words.now) }
{
    if t.count < KNOWN_FROM {
        few_met(t)
    } else {
        many_met(t)
    }
}

// Whether the names of each are a sound namespace, with hosts among the first n nodes. All share the slots, and each has a stamp of its own.
pub fn names_sound(t: Counted<'_>, n: u32, cap: usize) -> bool
    requires { length t.words.now ≡ table_words cap }
    ensures { result ≡ all_below t.entry.count (names_right cap t.entry.words.now n) }
{
    let mut seen = [0u8; SLOT_COUNT];
    for i in 0..t.count {
        let count = name_count(t.words[CONTENTS_AT + i]);
        let stamp = (i + 1) as u8;
        if !namespace_test::is_sound(t.body(cap, i), count, n, &mut seen, stamp) {
            return false;
        }
    }
    true
}
