// The steps of the lookup by another node and of the sends, on a sound table. The connection that a lookup or a send asks for is made once its
// arguments pass, whether a pid is found or not.
#![tactic(auto)]

ghost use Rattle.std.specs.Prelude.{◌≡◌, true, ◌<◌, length};
ghost use Rattle.nodes.specs.Sets.{node_limit};
ghost use Rattle.semantics.specs.Sizes.{names_per_group, table_words};
ghost use Rattle.commands.specs.declared.Command.TheVariants.{WhereisNameAt, Send, SendName, SendAt};
ghost use Rattle.semantics.specs.State.{State};
ghost use Rattle.semantics.specs.Steps.{connect};
ghost use Rattle.semantics.specs.Regular.{Regular};
ghost use Rattle.semantics.specs.WordsOfState.{Laid};
ghost use Rattle.semantics.specs.Test.{sound};
ghost use Rattle.semantics.specs.Call.{call};

use answers::{Answer, Reason, Value, refused, said};
use connecting::connect;
use entries::host_of;
use inputs::{check_asking, check_host, check_name};
use names::look;
use sound_table::SoundTable;

// The caller connects with the node on the way, and then with the host. Where nobody else is asked, the caller itself is the way. A function of
// its own, so that sends stay short. That each node is below the limit is asked as in `connecting::link`.
fn connect_by(t: &mut [u64], caller: u32, way: u32, host: u32)
    requires t_len { length t.old ≡ table_words names_per_group }
    requires caller_lt_node_limit { caller < node_limit }
    requires way_lt_node_limit { way < node_limit }
    requires host_lt_node_limit { host < node_limit }
    ensures { (st : State) → Laid names_per_group st t.old → Regular names_per_group st → caller < st.size → way < st.size → Laid names_per_group (connect caller host (connect caller way st)) t.new }
{
    connect(t, caller, way);
    connect(t, caller, host);
}

// What the node finds under the name in the s_group; the caller connects with the node.
pub fn whereis_name_at(t: &mut [u64], caller: u32, node: u32, s: u32, n: u32) -> Answer
    requires t_len { length t.old ≡ table_words names_per_group }
    requires t_value { sound names_per_group t.old ≡ true }
    ensures value { result ≡ (call 0 caller (WhereisNameAt node s n) t.old).answer }
    ensures t_after { t.new ≡ (call 0 caller (WhereisNameAt node s n) t.old).table }
{
    let size = SoundTable { words: t }.size();
    if let Err(reason) = check_asking(size, caller, node, s, n) {
        return refused(reason);
    }
    let seen = look(SoundTable { words: t }, node, s, n);
    connect(t, caller, node);
    match seen {
        Ok((p, why)) => said(Value::Pid(p), why),
        Err(why) => said(Value::Undefined, why),
    }
}

// The caller connects with the pid's host.
pub fn send(t: &mut [u64], caller: u32, p: u32) -> Answer
    requires t_len { length t.old ≡ table_words names_per_group }
    requires t_value { sound names_per_group t.old ≡ true }
    ensures value { result ≡ (call 0 caller (Send p) t.old).answer }
    ensures t_after { t.new ≡ (call 0 caller (Send p) t.old).table }
{
    let size = SoundTable { words: t }.size();
    if let Err(reason) = check_host(size, caller, p) {
        return refused(reason);
    }
    connect_by(t, caller, caller, host_of(p));
    said(Value::Pid(p), Reason::Done)
}

// A send to the pid that the caller finds under the name.
pub fn send_name(t: &mut [u64], caller: u32, s: u32, n: u32) -> Answer
    requires t_len { length t.old ≡ table_words names_per_group }
    requires t_value { sound names_per_group t.old ≡ true }
    ensures value { result ≡ (call 0 caller (SendName s n) t.old).answer }
    ensures t_after { t.new ≡ (call 0 caller (SendName s n) t.old).table }
{
    let size = SoundTable { words: t }.size();
    if let Err(reason) = check_name(size, caller, s, n) {
        return refused(reason);
    }
    match look(SoundTable { words: t }, caller, s, n) {
        Ok((p, why)) => {
            connect(t, caller, host_of(p));
            said(Value::Pid(p), why)
        }
        Err(why) => said(Value::Undefined, why),
    }
}

// A send to the pid that the node finds under the name; the caller connects with the node, and with the host of a pid that is found.
pub fn send_at(t: &mut [u64], caller: u32, node: u32, s: u32, n: u32) -> Answer
    requires t_len { length t.old ≡ table_words names_per_group }
    requires t_value { sound names_per_group t.old ≡ true }
    ensures value { result ≡ (call 0 caller (SendAt node s n) t.old).answer }
    ensures t_after { t.new ≡ (call 0 caller (SendAt node s n) t.old).table }
{
    let size = SoundTable { words: t }.size();
    if let Err(reason) = check_asking(size, caller, node, s, n) {
        return refused(reason);
    }
    match look(SoundTable { words: t }, node, s, n) {
        Ok((pid, why)) => {
            connect_by(t, caller, node, host_of(pid));
            said(Value::Pid(pid), why)
        }
        Err(why) => {
            connect(t, caller, node);
            said(Value::Undefined, why)
        }
    }
}
