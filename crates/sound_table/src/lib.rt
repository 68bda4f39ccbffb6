// A sound table, lent for reading: its head, and the words of its s_groups.
#![tactic(auto)]

ghost use Rattle.std.specs.Prelude.{◌≡◌, ◌+◌, ◌*◌, ◌/◌, ◌≤◌, ◌<◌, true, length, get_or, take, drop};
ghost use Rattle.nodes.specs.Sets.{node_limit};
ghost use Rattle.semantics.specs.Sizes.{group_limit, group_names, names_per_group, table_words, contents_at, members_at, bodies_at};
ghost use Rattle.semantics.specs.Soundness.{size_of, count_of};
ghost use Rattle.semantics.specs.Test.{sound};

use layout::{CONTENTS_AT, COUNT_AT, MEMBERS_AT, SIZE_AT, name_count, own_words};

// The words of a sound table. What writes (`names`, `groups`, `connecting`, `naming`, `reaching`, `grouping`, `creating`, `step`, `indexing`) takes the bare
// words, with their length as a fact: between its writes the table is no sound one, and a function that takes a struct with a `&mut` in it has to promise
// besides that the struct still holds the caller's run.
#[derive(Clone, Copy)]
pub struct SoundTable<'a> {
    pub words: &'a [u64],
    pub ghost sized: { length words.now ≡ table_words names_per_group },
    pub ghost fit: { sound names_per_group words.now ≡ true },
}

impl<'a> SoundTable<'a> {
    // How many nodes are on the roster.
    pub fn size(self) -> u32
        ensures value { result ≡ size_of self.entry.words.now }
        ensures few { result ≤ node_limit }
    {
        self.words[SIZE_AT] as u32
    }

    // How many s_groups there are.
    pub fn count(self) -> usize
        ensures value { result ≡ count_of self.entry.words.now }
        ensures few { result ≤ group_limit }
    {
        self.words[COUNT_AT] as usize
    }

    // The contents word of each s_group.
    pub fn contents(self) -> &'a [u64]
        ensures { result.now ≡ take (count_of self.entry.words.now) (drop contents_at self.entry.words.now) }
    {
        &self.words[CONTENTS_AT..CONTENTS_AT + self.count()]
    }

    // The members of each s_group.
    pub fn members(self) -> &'a [u64]
        ensures { result.now ≡ take (count_of self.entry.words.now) (drop members_at self.entry.words.now) }
    {
        &self.words[MEMBERS_AT..MEMBERS_AT + self.count()]
    }
}

// The s_group at a place of a table's words, lent for reading.
#[derive(Clone, Copy)]
pub struct GroupAt<'a> {
    pub words: &'a [u64],
    pub at: usize,
    pub ghost sized: { length words.now ≡ table_words names_per_group },
    pub ghost below: { at < group_limit },
}

impl<'a> GroupAt<'a> {
    // How many names it has.
    pub fn count(self) -> usize
        ensures { result ≡ get_or self.entry.words.now (contents_at + self.entry.at) 0 / group_names }
    {
        name_count(self.words[CONTENTS_AT + self.at])
    }

    // Its members.
    pub fn members(self) -> u64
        ensures { result ≡ get_or self.entry.words.now (members_at + self.entry.at) 0 }
    {
        self.words[MEMBERS_AT + self.at]
    }

    // The words of its names.
    pub fn names(self) -> &'a [u64]
        ensures { result.now ≡ take names_per_group (drop (bodies_at + names_per_group * self.entry.at) self.entry.words.now) }
    {
        &self.words[own_words(self.at)]
    }
}
