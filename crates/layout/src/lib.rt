// Where the parts of a table stand.
#![tactic(auto)]

ghost use Rattle.std.specs.Prelude.{◌≡◌, ◌+◌, ◌*◌, ◌/◌, ◌%◌, ◌<◌};

use std::ops::Range;

// How much there can be: nodes on a roster, s_groups, names in an s_group.
pub const NODE_LIMIT: usize = nodes::NODE_LIMIT as usize;

pub const GROUP_LIMIT: usize = 32;

pub const NAMES_PER_GROUP: usize = 32;

// S_group names lie below this; a contents word holds the count of names above the name.
pub const GROUP_NAMES: u64 = 65536;

// The head: roster size, hidden nodes, number of s_groups, zero.
pub const SIZE_AT: usize = 0;

pub const HIDDEN_AT: usize = 1;

pub const COUNT_AT: usize = 2;

pub const SPARE_AT: usize = 3;

// Where the parts begin: contents and members, a word an s_group; connections and free groups, a word a node; the names.
pub const CONTENTS_AT: usize = 4;

pub const MEMBERS_AT: usize = CONTENTS_AT + GROUP_LIMIT;

pub const LINKS_AT: usize = MEMBERS_AT + GROUP_LIMIT;

pub const FREE_AT: usize = LINKS_AT + NODE_LIMIT;

pub const BODIES_AT: usize = FREE_AT + NODE_LIMIT;

// How many words a table has.
pub const TABLE_WORDS: usize = BODIES_AT + GROUP_LIMIT * NAMES_PER_GROUP;

// A row of the index has so many words: its key, and a name.
pub const ROW_WORDS: usize = 2;

// How many words an index has: a row for each name that a table can hold.
pub const INDEX_WORDS: usize = ROW_WORDS * GROUP_LIMIT * NAMES_PER_GROUP;

// The name of an s_group, from its contents word.
pub fn group_name(contents: u64) -> u64
    ensures { result ≡ contents % GROUP_NAMES }
{
    contents % GROUP_NAMES
}

// How many names an s_group has, from its contents word.
pub fn name_count(contents: u64) -> usize
    ensures { result ≡ contents / GROUP_NAMES }
{
    (contents / GROUP_NAMES) as usize
}

// The bounds of the words of the names of the s_group at a place.
pub fn own_words(at: usize) -> Range<usize>
    requires { at < GROUP_LIMIT }
    ensures start { result.start ≡ BODIES_AT + NAMES_PER_GROUP * at }
    ensures end { result.end ≡ result.start + NAMES_PER_GROUP }
{
    let start = BODIES_AT + NAMES_PER_GROUP * at;
    start..start + NAMES_PER_GROUP
}
