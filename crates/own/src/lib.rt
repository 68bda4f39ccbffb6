// The steps of own_nodes and own_s_groups.
#![tactic(auto)]

ghost use Rattle.std.specs.Prelude.{◌≡◌, ◌<◌, ◌≤◌, length};
ghost use Rattle.nodes.specs.Sets.{node_limit};
ghost use Rattle.semantics.specs.Sizes.{group_limit, names_per_group};
ghost use Rattle.commands.specs.declared.Command.TheVariants.{OwnNodes, OwnSGroups};
ghost use Rattle.semantics.specs.Steps.{own_set};
ghost use Rattle.semantics.specs.Table.{state_of};
ghost use Rattle.semantics.specs.Call.{call, listed_over};
ghost use Rattle.own.specs.OwnWords.{shared_members, own_length, own_words};

use answers::{Answer, Reason, Value, done, refused};
use inputs::check_caller;
use layout::{FREE_AT, group_name};
use sound_table::SoundTable;

// The nodes of the sets that have the node.
fn shared_members(members: &[u64], node: u32) -> u64
    ensures { result ≡ shared_members node members.now }
{
    let mut all = 0;
    for set in members {
        if nodes::has(*set, node) {
            all |= *set;
        }
    }
    all
}

// The nodes of the node's groups: its free group, or those of its s_groups, or itself alone.
// That the node is below the limit is asked as in `connecting::link`.
fn own_set(t: SoundTable<'_>, node: u32) -> u64
    requires { node < node_limit }
    ensures { result ≡ own_set node (state_of names_per_group t.entry.words.now) }
{
    let free = t.words[FREE_AT + (node as usize)];
    if free != 0 {
        return free;
    }
    let all = shared_members(t.members(), node);
    if all != 0 {
        return all;
    }
    nodes::with(0, node)
}

// The step of own_nodes.
pub fn own_nodes(t: SoundTable<'_>, caller: u32) -> Answer
    ensures { result ≡ (call 0 caller OwnNodes t.entry.words.now).answer }
{
    if let Err(reason) = check_caller(t.size(), caller) {
        return refused(reason);
    }
    let set = own_set(t, caller);
    done(Value::Nodes(set, nodes::count(set)))
}

// How many words the list of the node's s_groups has, two for each of the sets that have the node.
fn own_length(members: &[u64], node: u32) -> usize
    requires { length members.now ≤ group_limit }
    ensures { result ≡ own_length node members.now }
{
    let own = members.iter().filter(|set| nodes::has(**set, node));
    2 * own.count()
}

// The name and the members of each of the s_groups that have the node, in the run. Contents and members are two runs, since a table has them in two sections
// (`contents_at` and `members_at` of semantics/Sizes); `zip` goes over both. By an index into `out`, as in `namespace::list_names`.
fn write_own(contents: &[u64], members: &[u64], node: u32, out: &mut [u64])
    requires { length (own_words node contents.now members.now) ≤ length out.old }
    ensures { out.new ≡ listed_over (own_words node contents.now members.now) out.old }
{
    let mut at = 0;
    for (word, set) in contents.iter().zip(members) {
        if nodes::has(*set, node) {
            out[at] = group_name(*word);
            out[at + 1] = *set;
            at += 2;
        }
    }
}

// The step of own_s_groups.
pub fn own_s_groups(t: SoundTable<'_>, caller: u32, out: &mut [u64]) -> Answer
    ensures value { result ≡ (call (length out.old) caller OwnSGroups t.entry.words.now).answer }
    ensures out_after { out.new ≡ listed_over (call (length out.old) caller OwnSGroups t.entry.words.now).list out.old }
{
    if let Err(reason) = check_caller(t.size(), caller) {
        return refused(reason);
    }
    let members = t.members();
    let words = own_length(members, caller);
    if out.len() < words {
        return refused(Reason::RunShort);
    }
    write_own(t.contents(), members, caller, out);
    done(Value::Listed(words))
}
