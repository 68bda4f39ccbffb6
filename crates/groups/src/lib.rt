// S_groups put into a table, taken out, and given other members.
#![tactic(auto)]

ghost use Rattle.std.specs.Prelude.{◌≡◌, List, ◌∷◌, ◌++◌, ◌≤◌, ◌<◌, length};
ghost use Rattle.semantics.specs.Sizes.{group_limit, names_per_group, table_words};
ghost use Rattle.semantics.specs.Soundness.{count_of};
ghost use Rattle.semantics.specs.State.{Group, State, with_groups};
ghost use Rattle.semantics.specs.WordsOfState.{Laid};
ghost use Rattle.groups.specs.Grouped.{fresh, manned};

use bodies::{drop_body, put_body};
use layout::{CONTENTS_AT, COUNT_AT, MEMBERS_AT, own_words};

// A new s_group of no names goes in at the place: the s_groups from there on move up.
pub fn insert_group(t: &mut [u64], at: usize, s: u32, set: u64)
    requires t_len { length t.old ≡ table_words names_per_group }
    requires t_bound { count_of t.old < group_limit }
    requires at_bound { at ≤ count_of t.old }
    ensures { (st : State) → Laid names_per_group st t.old → (a b : List Group) → st.groups ≡ a ++ b → length a ≡ at → Laid names_per_group (with_groups (a ++ fresh s set ∷ b) st) t.new }
{
    let count = t[COUNT_AT] as usize;
    moves::put_first(&mut t[CONTENTS_AT + at..CONTENTS_AT + count + 1], s as u64);
    moves::put_first(&mut t[MEMBERS_AT + at..MEMBERS_AT + count + 1], set);
    put_body(&mut t[own_words(at).start..own_words(count).end]);
    t[COUNT_AT] = (count + 1) as u64;
}

// The s_group at the place goes, with its names: those after it move down, and zeros follow.
pub fn delete_group(t: &mut [u64], at: usize)
    requires t_len { length t.old ≡ table_words names_per_group }
    requires t_bound { count_of t.old ≤ group_limit }
    requires at_bound { at < count_of t.old }
    ensures { (st : State) → Laid names_per_group st t.old → (a b : List Group) (g : Group) → st.groups ≡ a ++ g ∷ b → length a ≡ at → Laid names_per_group (with_groups (a ++ b) st) t.new }
{
    let count = t[COUNT_AT] as usize;
    moves::drop_first(&mut t[CONTENTS_AT + at..CONTENTS_AT + count]);
    moves::drop_first(&mut t[MEMBERS_AT + at..MEMBERS_AT + count]);
    drop_body(&mut t[own_words(at).start..own_words(count - 1).end]);
    t[COUNT_AT] = (count - 1) as u64;
}

// The s_group at the place has the set as its members.
pub fn set_members(t: &mut [u64], at: usize, set: u64)
    requires t_len { length t.old ≡ table_words names_per_group }
    requires at_lt_group_limit { at < group_limit }
    ensures { (st : State) → Laid names_per_group st t.old → (a b : List Group) (g : Group) → st.groups ≡ a ++ g ∷ b → length a ≡ at → Laid names_per_group (with_groups (a ++ manned set g ∷ b) st) t.new }
{
    t[MEMBERS_AT + at] = set;
}
