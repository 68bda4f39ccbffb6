// The steps of the three commands that change names: register_name, re_register_name, unregister_name.
#![tactic(auto)]

ghost use Rattle.std.specs.Prelude.{◌≡◌, true, false, ℕ, ◌<◌, length};
ghost use Rattle.entries.specs.Entries.{lookup, holds_pid};
ghost use Rattle.semantics.specs.Sizes.{group_limit, names_per_group, table_words};
ghost use Rattle.semantics.specs.State.{State};
ghost use Rattle.commands.specs.declared.Command.TheVariants.{RegisterName, ReRegisterName, UnregisterName};
ghost use Rattle.semantics.specs.Test.{sound};
ghost use Rattle.semantics.specs.Call.{call};
ghost use Rattle.semantics.specs.Ranges.{held};
ghost use Rattle.semantics.specs.Regular.{Regular};
ghost use Rattle.semantics.specs.WordsOfState.{Laid};
ghost use Rattle.returns.specs.Judged.{register_in, re_register_in, unregister_in};
ghost use Rattle.place.specs.Seats.{Seat};
ghost use Rattle.names.specs.NamesAt.{names_at};
ghost use Rattle.returns.specs.Settled.{Settles};

use answers::{Answer, Reason, Value, done, refused, said};
use inputs::{check_name, check_pid};
use layout::NAMES_PER_GROUP;
use names::{add_name, drop_name, find_name, pid_held, replace_name};
use place::place_for;
use sound_table::{GroupAt, SoundTable};

// The name and the pid, neither of which is held, in the s_group at `at`, where it has room.
fn register_new(t: &mut [u64], at: usize, n: u32, p: u32) -> Answer
    requires t_len { length t.old ≡ table_words names_per_group }
    requires at_lt_group_limit { at < group_limit }
    ensures { (st : State) → Laid names_per_group st t.old → Regular names_per_group st → (s : ℕ) (w : Seat s at st.groups) → held (lookup n (names_at at st)) ≡ false → holds_pid p (names_at at st) ≡ false → Settles s (register_in n p w.group) st result t.new }
{
    let count = GroupAt { words: t, at }.count();
    if NAMES_PER_GROUP <= count {
        return said(Value::False, Reason::NamespaceFull);
    }
    add_name(t, at, n, p);
    done(Value::True)
}

// The name and the pid in the s_group at `at`, neither of which may be held.
fn register_in(t: &mut [u64], at: usize, n: u32, p: u32) -> Answer
    requires t_len { length t.old ≡ table_words names_per_group }
    requires at_lt_group_limit { at < group_limit }
    ensures { (st : State) → Laid names_per_group st t.old → Regular names_per_group st → (s : ℕ) (w : Seat s at st.groups) → Settles s (register_in n p w.group) st result t.new }
{
    if find_name(GroupAt { words: t, at }, n).is_ok() {
        return said(Value::False, Reason::NameTaken);
    }
    if pid_held(GroupAt { words: t, at }, p) {
        return said(Value::False, Reason::PidTaken);
    }
    register_new(t, at, n, p)
}

// The name with this pid, which may not be held, in the s_group at `at`.
fn re_register_in(t: &mut [u64], at: usize, n: u32, p: u32) -> Answer
    requires t_len { length t.old ≡ table_words names_per_group }
    requires at_lt_group_limit { at < group_limit }
    ensures { (st : State) → Laid names_per_group st t.old → Regular names_per_group st → (s : ℕ) (w : Seat s at st.groups) → Settles s (re_register_in n p w.group) st result t.new }
{
    if pid_held(GroupAt { words: t, at }, p) {
        return said(Value::False, Reason::PidTaken);
    }
    if replace_name(t, at, n, p) {
        return done(Value::True);
    }
    register_new(t, at, n, p)
}

// The s_group at `at` without the name.
fn unregister_in(t: &mut [u64], at: usize, n: u32) -> Answer
    requires t_len { length t.old ≡ table_words names_per_group }
    requires at_lt_group_limit { at < group_limit }
    ensures { (st : State) → Laid names_per_group st t.old → Regular names_per_group st → (s : ℕ) (w : Seat s at st.groups) → Settles s (unregister_in n w.group) st result t.new }
{
    if drop_name(t, at, n) {
        return done(Value::True);
    }
    said(Value::True, Reason::NotRegistered)
}

// The step of register_name.
pub fn register_name(t: &mut [u64], caller: u32, s: u32, n: u32, p: u32) -> Answer
    requires t_len { length t.old ≡ table_words names_per_group }
    requires t_value { sound names_per_group t.old ≡ true }
    ensures value { result ≡ (call 0 caller (RegisterName s n p) t.old).answer }
    ensures t_after { t.new ≡ (call 0 caller (RegisterName s n p) t.old).table }
{
    let size = SoundTable { words: t }.size();
    if let Err(reason) = check_pid(size, caller, s, n, p) {
        return refused(reason);
    }
    match place_for(SoundTable { words: t }, caller, s) {
        Ok(at) => register_in(t, at, n, p),
        Err(denial) => said(Value::False, denial),
    }
}

// The step of re_register_name. Apart from that of register_name, though alike: one step of both would take a closure, and its contract would have to
// speak of the closure's, for every state and s_group, in place of the command's call.
pub fn re_register_name(t: &mut [u64], caller: u32, s: u32, n: u32, p: u32) -> Answer
    requires t_len { length t.old ≡ table_words names_per_group }
    requires t_value { sound names_per_group t.old ≡ true }
    ensures value { result ≡ (call 0 caller (ReRegisterName s n p) t.old).answer }
    ensures t_after { t.new ≡ (call 0 caller (ReRegisterName s n p) t.old).table }
{
    let size = SoundTable { words: t }.size();
    if let Err(reason) = check_pid(size, caller, s, n, p) {
        return refused(reason);
    }
    match place_for(SoundTable { words: t }, caller, s) {
        Ok(at) => re_register_in(t, at, n, p),
        Err(denial) => said(Value::False, denial),
    }
}

// The step of unregister_name.
pub fn unregister_name(t: &mut [u64], caller: u32, s: u32, n: u32) -> Answer
    requires t_len { length t.old ≡ table_words names_per_group }
    requires t_value { sound names_per_group t.old ≡ true }
    ensures value { result ≡ (call 0 caller (UnregisterName s n) t.old).answer }
    ensures t_after { t.new ≡ (call 0 caller (UnregisterName s n) t.old).table }
{
    let size = SoundTable { words: t }.size();
    if let Err(reason) = check_name(size, caller, s, n) {
        return refused(reason);
    }
    match place_for(SoundTable { words: t }, caller, s) {
        Ok(at) => unregister_in(t, at, n),
        Err(denial) => said(Value::False, denial),
    }
}
