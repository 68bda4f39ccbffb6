// The steps of the commands that make, change and delete s_groups, on a sound table.
#![tactic(auto)]

ghost use Rattle.std.specs.Prelude.{◌≡◌, true, length};
ghost use Rattle.semantics.specs.Sizes.{names_per_group, table_words};
ghost use Rattle.commands.specs.declared.Command.TheVariants.{NewSGroup, AddNodes, RemoveNodes, DeleteSGroup};
ghost use Rattle.semantics.specs.Test.{sound};
ghost use Rattle.semantics.specs.Call.{call};

use answers::{Answer, Value, done, refused};
use connecting::{become_free, interconnect, leave_free};
use groups::{delete_group, insert_group, set_members};
use inputs::{check_creation, check_group, check_set};
use names::drop_hosted;
use place::{place_for, place_of};
use sound_table::{GroupAt, SoundTable};

// A new s_group of the set: its members are all connected and leave the free groups.
pub fn new_s_group(t: &mut [u64], caller: u32, s: u32, set: u64) -> Answer
    requires t_len { length t.old ≡ table_words names_per_group }
    requires t_value { sound names_per_group t.old ≡ true }
    ensures value { result ≡ (call 0 caller (NewSGroup s set) t.old).answer }
    ensures t_after { t.new ≡ (call 0 caller (NewSGroup s set) t.old).table }
{
    let table = SoundTable { words: t };
    let place = place_of(table, s);
    if let Err(reason) = check_creation(
        table.size(),
        table.count(),
        caller,
        s,
        set,
        place.is_ok(),
    ) {
        return refused(reason);
    }
    let at = place.unwrap_err();
    leave_free(t, set);
    interconnect(t, set);
    insert_group(t, at, s, set);
    done(Value::Grouped(s, set))
}

// The set joins the s_group: all members are connected, and the set leaves the free groups.
pub fn add_nodes(t: &mut [u64], caller: u32, s: u32, set: u64) -> Answer
    requires t_len { length t.old ≡ table_words names_per_group }
    requires t_value { sound names_per_group t.old ≡ true }
    ensures value { result ≡ (call 0 caller (AddNodes s set) t.old).answer }
    ensures t_after { t.new ≡ (call 0 caller (AddNodes s set) t.old).table }
{
    let size = SoundTable { words: t }.size();
    if let Err(reason) = check_set(size, caller, s, set) {
        return refused(reason);
    }
    match place_for(SoundTable { words: t }, caller, s) {
        Err(denial) => refused(denial),
        Ok(at) => {
            let members = nodes::union(GroupAt { words: t, at }.members(), set);
            leave_free(t, set);
            interconnect(t, members);
            set_members(t, at, members);
            done(Value::Grouped(s, set))
        }
    }
}

// The nodes of the set that are members leave the s_group, with the names of their pids; where none is left, it is deleted.
pub fn remove_nodes(t: &mut [u64], caller: u32, s: u32, set: u64) -> Answer
    requires t_len { length t.old ≡ table_words names_per_group }
    requires t_value { sound names_per_group t.old ≡ true }
    ensures value { result ≡ (call 0 caller (RemoveNodes s set) t.old).answer }
    ensures t_after { t.new ≡ (call 0 caller (RemoveNodes s set) t.old).table }
{
    let size = SoundTable { words: t }.size();
    if let Err(reason) = check_set(size, caller, s, set) {
        return refused(reason);
    }
    match place_for(SoundTable { words: t }, caller, s) {
        Err(denial) => refused(denial),
        Ok(at) => {
            let members = GroupAt { words: t, at }.members();
            let left = nodes::diff(members, set);
            if left == 0 {
                delete_group(t, at);
                become_free(t, members);
                return done(Value::True);
            }
            let gone = nodes::inter(members, set);
            drop_hosted(t, at, gone);
            set_members(t, at, left);
            become_free(t, gone);
            done(Value::True)
        }
    }
}

// The s_group goes, with its names.
pub fn delete_s_group(t: &mut [u64], caller: u32, s: u32) -> Answer
    requires t_len { length t.old ≡ table_words names_per_group }
    requires t_value { sound names_per_group t.old ≡ true }
    ensures value { result ≡ (call 0 caller (DeleteSGroup s) t.old).answer }
    ensures t_after { t.new ≡ (call 0 caller (DeleteSGroup s) t.old).table }
{
    let size = SoundTable { words: t }.size();
    if let Err(reason) = check_group(size, caller, s) {
        return refused(reason);
    }
    match place_for(SoundTable { words: t }, caller, s) {
        Err(denial) => refused(denial),
        Ok(at) => {
            let members = GroupAt { words: t, at }.members();
            delete_group(t, at);
            become_free(t, members);
            done(Value::True)
        }
    }
}
