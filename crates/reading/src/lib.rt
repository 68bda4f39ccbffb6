// The steps of registered_names and whereis_name.
#![tactic(auto)]

ghost use Rattle.std.specs.Prelude.{◌≡◌, length};
ghost use Rattle.semantics.specs.Sizes.{names_per_group};
ghost use Rattle.semantics.specs.State.{State};
ghost use Rattle.commands.specs.declared.Command.TheVariants.{RegisteredNames, WhereisName};
ghost use Rattle.semantics.specs.Call.{call, listed_over};
ghost use Rattle.semantics.specs.Places.{group_at};
ghost use Rattle.semantics.specs.WordsOfState.{Laid};
ghost use Rattle.returns.specs.Judged.{names_in};
ghost use Rattle.names.specs.NamesAt.{Standing};
ghost use Rattle.returns.specs.Listing.{Told};

use answers::{Answer, Reason, Value, done, refused, said};
use inputs::{check_group, check_name};
use names::look;
use place::place_for;
use sound_table::{GroupAt, SoundTable};

// The names of the s_group, which is called `s`, in the run, where it has room.
fn list_names(g: GroupAt<'_>, s: u32, out: &mut [u64]) -> Answer
    ensures { (st : State) → Laid names_per_group st g.entry.words.now → Standing g.entry.at st → Told (names_in (length out.old) s (group_at st.groups g.entry.at)) out.old result out.new }
{
    match namespace::list_names(g.names(), g.count(), s, out) {
        Ok(words) => done(Value::Listed(words)),
        Err(_) => refused(Reason::RunShort),
    }
}

// The step of registered_names.
pub fn registered_names(t: SoundTable<'_>, caller: u32, s: u32, out: &mut [u64]) -> Answer
    ensures value { result ≡ (call (length out.old) caller (RegisteredNames s) t.entry.words.now).answer }
    ensures out_after { out.new ≡ listed_over (call (length out.old) caller (RegisteredNames s) t.entry.words.now).list out.old }
{
    if let Err(reason) = check_group(t.size(), caller, s) {
        return refused(reason);
    }
    match place_for(t, caller, s) {
        Ok(at) => list_names(GroupAt { words: t.words, at }, s, out),
        Err(denial) => said(Value::Listed(0), denial),
    }
}

// The step of whereis_name.
pub fn whereis_name(t: SoundTable<'_>, caller: u32, s: u32, n: u32) -> Answer
    ensures { result ≡ (call 0 caller (WhereisName s n) t.entry.words.now).answer }
{
    if let Err(reason) = check_name(t.size(), caller, s, n) {
        return refused(reason);
    }
    match look(t, caller, s, n) {
        Ok((p, why)) => said(Value::Pid(p), why),
        Err(why) => said(Value::Undefined, why),
    }
}
