// The names of the s_group at a place of the table: its own words are lent to the namespace functions, and its contents word counts them.
#![tactic(auto)]

ghost use Rattle.std.specs.Prelude.{◌≡◌, ◌<◌, length};
ghost use Rattle.std.proofs.Math.Option.{none};
ghost use Rattle.entries.specs.Entries.{insert, remove, renew, lookup, rank, holds_pid, drop_hosted};
ghost use Rattle.entries.specs.Raw.{answer_at, lookup_seen};
ghost use Rattle.semantics.specs.Sizes.{group_limit, names_per_group, table_words};
ghost use Rattle.semantics.specs.State.{State};
ghost use Rattle.semantics.specs.Ranges.{held};
ghost use Rattle.semantics.specs.Steps.{ask};
ghost use Rattle.semantics.specs.Places.{group_at};
ghost use Rattle.semantics.specs.Table.{state_of};
ghost use Rattle.semantics.specs.WordsOfState.{Laid};
ghost use Rattle.names.specs.NamesAt.{Standing, counted, names_at, with_names};
ghost use Rattle.names.specs.Looked.{looked_up};

use answers::Reason;
use entries::{Refusal, Seen};
use layout::{CONTENTS_AT, GROUP_NAMES, name_count, own_words};
use place::place_for;
use sound_table::{GroupAt, SoundTable};

// Where the name stands among the names, and its pid.
pub fn find_name(g: GroupAt<'_>, n: u32) -> Result<(usize, u32), Refusal>
    ensures { (st : State) → Laid names_per_group st g.entry.words.now → Standing g.entry.at st → result ≡ answer_at (rank n (names_at g.entry.at st)) (lookup n (names_at g.entry.at st)) }
{
    search::find(g.names(), g.count(), n)
}

// The pid of the name, and whether its host is a member.
pub fn look_up(g: GroupAt<'_>, n: u32) -> Result<Seen, Refusal>
    ensures { (st : State) → Laid names_per_group st g.entry.words.now → Standing g.entry.at st → result ≡ lookup_seen (group_at st.groups g.entry.at).members (lookup n (names_at g.entry.at st)) }
{
    search::look_up(g.names(), g.count(), n, g.members())
}

// Whether the pid stands under some name.
pub fn pid_held(g: GroupAt<'_>, p: u32) -> bool
    ensures { (st : State) → Laid names_per_group st g.entry.words.now → Standing g.entry.at st → result ≡ holds_pid p (names_at g.entry.at st) }
{
    search::holds_pid(g.names(), g.count(), p).unwrap_or(false)
}

// One name more, which is not held. What writes takes the words and the place with a fact each, here and in `groups` and `naming`: of a struct that holds a
// `&mut` the contract would have to say besides that it still holds the caller's run, as those of `print::Printer` do.
pub fn add_name(t: &mut [u64], at: usize, n: u32, p: u32)
    requires t_len { length t.old ≡ table_words names_per_group }
    requires at_lt_group_limit { at < group_limit }
    requires t_bound { counted at t.old < names_per_group }
    ensures { (st : State) → Laid names_per_group st t.old → Standing at st → lookup n (names_at at st) ≡ none → Laid names_per_group (with_names at (insert (record { name = n; pid = p }) (names_at at st)) st) t.new }
{
    let contents = t[CONTENTS_AT + at];
    let count = name_count(contents);
    namespace::add(&mut t[own_words(at)], count, n, p).unwrap();
    t[CONTENTS_AT + at] = contents + GROUP_NAMES;
}

// Without the name, and whether it was held.
pub fn drop_name(t: &mut [u64], at: usize, n: u32) -> bool
    requires t_len { length t.old ≡ table_words names_per_group }
    requires at_lt_group_limit { at < group_limit }
    ensures value { (st : State) → Laid names_per_group st t.old → Standing at st → result ≡ held (lookup n (names_at at st)) }
    ensures laid { (st : State) → Laid names_per_group st t.old → Standing at st → Laid names_per_group (with_names at (remove n (names_at at st)) st) t.new }
{
    let contents = t[CONTENTS_AT + at];
    let count = name_count(contents);
    let dropped = namespace::drop_name(&mut t[own_words(at)], count, n).is_ok();
    if dropped {
        t[CONTENTS_AT + at] = contents - GROUP_NAMES;
    }
    dropped
}

// The name with another pid, where it is held, and whether it is.
pub fn replace_name(t: &mut [u64], at: usize, n: u32, p: u32) -> bool
    requires t_len { length t.old ≡ table_words names_per_group }
    requires at_lt_group_limit { at < group_limit }
    ensures value { (st : State) → Laid names_per_group st t.old → Standing at st → result ≡ held (lookup n (names_at at st)) }
    ensures laid { (st : State) → Laid names_per_group st t.old → Standing at st → Laid names_per_group (with_names at (renew n p (names_at at st)) st) t.new }
{
    let count = GroupAt { words: t, at }.count();
    namespace::replace(&mut t[own_words(at)], count, n, p).is_ok()
}

// Without the names whose pid lives on a node of the set.
pub fn drop_hosted(t: &mut [u64], at: usize, set: u64)
    requires t_len { length t.old ≡ table_words names_per_group }
    requires at_lt_group_limit { at < group_limit }
    ensures { (st : State) → Laid names_per_group st t.old → Standing at st → Laid names_per_group (with_names at (drop_hosted set (names_at at st)) st) t.new }
{
    let contents = t[CONTENTS_AT + at];
    let count = name_count(contents);
    if let Ok(kept) = namespace::drop_hosted(&mut t[own_words(at)], count, set) {
        t[CONTENTS_AT + at] = contents - GROUP_NAMES * (count - kept) as u64;
    }
}

// What node `node` finds under the name in the s_group: the pid and the reason beside it, or why there is none. Zero as the s_group's name finds nothing.
pub fn look(t: SoundTable<'_>, node: u32, s: u32, n: u32) -> Result<(u32, Reason), Reason>
    ensures { looked_up result ≡ ask node s n (state_of names_per_group t.entry.words.now) }
{
    if s == 0 {
        return Err(Reason::NotRegistered);
    }
    let at = place_for(t, node, s)?;
    match look_up(GroupAt { words: t.words, at }, n) {
        Ok(Seen::Inside(p)) => Ok((p, Reason::Done)),
        Ok(Seen::Outside(p)) => Ok((p, Reason::HostOutside)),
        Err(_) => Err(Reason::NotRegistered),
    }
}
