// A table opened.
#![tactic(auto)]

ghost use Rattle.std.specs.Prelude.{◌≡◌, cond};
ghost use Rattle.nodes.specs.Sets.{has, with_node};
ghost use Rattle.semantics.specs.Steps.{mapi};
ghost use Rattle.semantics.specs.Call.{opening};

use answers::{Answer, Reason, Value, done, refused};
use layout::{BODIES_AT, FREE_AT, HIDDEN_AT, NODE_LIMIT, SIZE_AT, TABLE_WORDS};
use nodes::Members;

// Each node of the set stands in its own word, alone. By an index: once the borrow of `get_mut` is over, a proof knows nothing of what was written through it.
// A loop beside that of `rewiring`, which writes one word everywhere: here each node has its own.
fn alone(words: &mut [u64], set: u64)
    ensures { words.new ≡ mapi (λ i w. cond (has set i) (with_node 0 i) w) 0 words.old }
{
    for node in Members(set) {
        let i = node as usize;
        if i < words.len() {
            words[i] = nodes::with(0, node);
        }
    }
}

// Opens the table for n nodes, some of them hidden, as `sgroup_open` of C takes the two: nobody is grouped or connected, and every normal node is a free group
// by itself.
pub fn open(t: &mut [u64], n: u32, hidden: u64) -> Answer
    ensures value { result ≡ (opening n hidden t.old).answer }
    ensures t_after { t.new ≡ (opening n hidden t.old).table }
{
    if t.len() != TABLE_WORDS {
        return refused(Reason::TableLength);
    }
    if n < 1 {
        return refused(Reason::RosterSize);
    }
    if NODE_LIMIT < n as usize {
        return refused(Reason::RosterSize);
    }
    if nodes::beyond(hidden, n) {
        return refused(Reason::NodeUnknown);
    }
    moves::clear(t);
    t[SIZE_AT] = n as u64;
    t[HIDDEN_AT] = hidden;
    alone(
        &mut t[FREE_AT..BODIES_AT],
        nodes::diff(nodes::roster(n), hidden),
    );
    done(Value::Ok)
}
