// One command on a sound table with its index: the step, and the rows that it changes.
#![tactic(auto)]

ghost use Rattle.std.specs.Prelude.{◌≡◌, true, length};
ghost use Rattle.semantics.specs.Sizes.{names_per_group, table_words};
ghost use Rattle.semantics.specs.State.{find};
ghost use Rattle.semantics.specs.Table.{state_of};
ghost use Rattle.semantics.specs.Test.{sound};
ghost use Rattle.semantics.specs.Fits.{Fits};
ghost use Rattle.semantics.specs.Call.{call, listed_over};
ghost use Rattle.indexes.specs.Index.{index_of_table};
ghost use Rattle.indexes.specs.Updates.{pid_in, moved, taken, leaving, update_of};
ghost use Rattle.indexing.specs.PidFound.{pid_found};

use answers::{Answer, Reason};
use commands::Command;
use index_test::names_total;
use indexes::{Update, key_of};
use sound_table::{GroupAt, SoundTable};

// The pid that stands under the name in the s_group.
fn find_in(t: SoundTable<'_>, s: u32, n: u32) -> Option<u32>
    ensures { pid_found result ≡ pid_in n (find s (state_of names_per_group t.entry.words.now).groups) }
{
    let Ok(at) = place::place_of(t, s) else {
        return None;
    };
    let (_, pid) = names::find_name(GroupAt { words: t.words, at }, n).ok()?;
    Some(pid)
}

// Whose names leave when the members in the set leave the s_group: theirs, or all where none is left.
fn leaving(t: SoundTable<'_>, s: u32, set: u64) -> u64
    ensures { result ≡ leaving set (find s (state_of names_per_group t.entry.words.now).groups) }
{
    let Ok(at) = place::place_of(t, s) else {
        return 0;
    };
    let members = t.members()[at];
    if nodes::diff(members, set) == 0 {
        return nodes::roster(nodes::NODE_LIMIT);
    }
    nodes::inter(members, set)
}

// What the command makes of the rows where it is done. A match, since what each of the five takes differs: a table of functions would be no plainer.
#[tactic(auto, unfolding(indexes::specs::Updates::update_of))]
fn update_of(t: SoundTable<'_>, command: Command) -> Option<Update>
    ensures value { result ≡ update_of command (state_of names_per_group t.entry.words.now).groups }
    ensures fits { Fits command }
{
    match command {
        Command::RegisterName { s, n, p } => Some(Update::More(key_of(p, s), n)),
        Command::ReRegisterName { s, n, p } => Some(moved(find_in(t, s, n), s, n, p)),
        Command::UnregisterName { s, n } => taken(find_in(t, s, n), s),
        Command::RemoveNodes { s, set } => Some(Update::Gone(s, leaving(t, s, set))),
        Command::DeleteSGroup { s } => Some(Update::Gone(s, nodes::roster(nodes::NODE_LIMIT))),
        _ => None,
    }
}

// A re-registration: the row of the pid that the name had moves.
fn moved(found: Option<u32>, s: u32, n: u32, p: u32) -> Update
    ensures { result ≡ moved s n p (pid_found found) }
{
    match found {
        Some(q) => Update::Moved(key_of(q, s), key_of(p, s), n),
        None => Update::More(key_of(p, s), n),
    }
}

// The row of the pid that the name had goes.
fn taken(found: Option<u32>, s: u32) -> Option<Update>
    ensures { result ≡ taken s (pid_found found) }
{
    Some(Update::Less(key_of(found?, s)))
}

// What the caller's command answers; a list goes to the front of `out`, and the index is kept.
pub fn step(
    t: &mut [u64],
    index: &mut [u64],
    out: &mut [u64],
    caller: u32,
    command: Command,
) -> Answer
    requires t_len { length t.old ≡ table_words names_per_group }
    requires t_value { sound names_per_group t.old ≡ true }
    requires index_value { index.old ≡ index_of_table names_per_group t.old }
    ensures value { result ≡ (call (length out.old) caller command t.old).answer }
    ensures t_after { t.new ≡ (call (length out.old) caller command t.old).table }
    ensures out_after { out.new ≡ listed_over (call (length out.old) caller command t.old).list out.old }
    ensures index_after { index.new ≡ index_of_table names_per_group (call (length out.old) caller command t.old).table }
{
    let table = SoundTable { words: t };
    let count = names_total(table);
    let change = update_of(table, command);
    let answer = step::step(t, out, caller, command);
    if answer.reason == Reason::Done {
        index_rows::update(index, count, change);
    }
    answer
}
