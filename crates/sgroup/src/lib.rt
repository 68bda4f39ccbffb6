// The fifteen commands over a lent table, each with its test.
#![tactic(auto)]

ghost use Rattle.std.specs.Prelude.{◌≡◌, length};
ghost use Rattle.commands.specs.declared.Command.TheVariants.{RegisteredNames, WhereisName, OwnNodes, OwnSGroups};
ghost use Rattle.semantics.specs.Call.{call, listed_over};

use answers::{Answer, refused};
use commands::Command;
use sound_table::SoundTable;
use table::check;

// What the caller's command answers on the table; a list goes to the front of `out`.
pub fn call(table: &mut [u64], out: &mut [u64], caller: u32, command: Command) -> Answer
    ensures value { result ≡ (call (length out.old) caller command table.old).answer }
    ensures table_after { table.new ≡ (call (length out.old) caller command table.old).table }
    ensures out_after { out.new ≡ listed_over (call (length out.old) caller command table.old).list out.old }
{
    if let Err(reason) = check(table) {
        return refused(reason);
    }
    step::step(table, out, caller, command)
}

// ---- the commands that only read: a caller may hold a table that it cannot lend for writing, as a const one of C Each tests the table by itself: where one
// function does so and takes the step as a closure, nothing is known afterwards of the list that the closure wrote to `out`, so that `out_after` stays open
// (tried); the two without `out` go as the others do. Their arguments stand side by side as C gives them; a `Command` bundles them for `call`.

// The names of the s_group, listed in the run.
pub fn registered_names(table: &[u64], caller: u32, s: u32, out: &mut [u64]) -> Answer
    ensures value { result ≡ (call (length out.old) caller (RegisteredNames s) table.now).answer }
    ensures out_after { out.new ≡ listed_over (call (length out.old) caller (RegisteredNames s) table.now).list out.old }
{
    if let Err(reason) = check(table) {
        return refused(reason);
    }
    reading::registered_names(SoundTable { words: table }, caller, s, out)
}

// What the caller finds under the name in the s_group.
pub fn whereis_name(table: &[u64], caller: u32, s: u32, n: u32) -> Answer
    ensures { result ≡ (call 0 caller (WhereisName s n) table.now).answer }
{
    if let Err(reason) = check(table) {
        return refused(reason);
    }
    reading::whereis_name(SoundTable { words: table }, caller, s, n)
}

// The nodes of the caller's groups, and how many they are.
pub fn own_nodes(table: &[u64], caller: u32) -> Answer
    ensures { result ≡ (call 0 caller OwnNodes table.now).answer }
{
    if let Err(reason) = check(table) {
        return refused(reason);
    }
    own::own_nodes(SoundTable { words: table }, caller)
}

// The caller's s_groups, name and members of each, listed in the run.
pub fn own_s_groups(table: &[u64], caller: u32, out: &mut [u64]) -> Answer
    ensures value { result ≡ (call (length out.old) caller OwnSGroups table.now).answer }
    ensures out_after { out.new ≡ listed_over (call (length out.old) caller OwnSGroups table.now).list out.old }
{
    if let Err(reason) = check(table) {
        return refused(reason);
    }
    own::own_s_groups(SoundTable { words: table }, caller, out)
}
