// Connections and free groups changed in a table.
#![tactic(auto)]

ghost use Rattle.std.specs.Prelude.{◌≡◌, ◌≤◌, ◌<◌, length};
ghost use Rattle.nodes.specs.Sets.{node_limit};
ghost use Rattle.semantics.specs.Sizes.{names_per_group, table_words};
ghost use Rattle.semantics.specs.Soundness.{size_of};
ghost use Rattle.semantics.specs.State.{State, with_links, with_free};
ghost use Rattle.semantics.specs.Steps.{interconnect, leave_free, link, merge, connect, become_free};
ghost use Rattle.semantics.specs.Regular.{Regular};
ghost use Rattle.semantics.specs.WordsOfState.{Laid};
ghost use Rattle.connecting.specs.Loosed.{Rostered, Apart};

use layout::{BODIES_AT, COUNT_AT, FREE_AT, HIDDEN_AT, LINKS_AT, MEMBERS_AT, SIZE_AT};

// Each pair of the set is connected.
pub fn interconnect(t: &mut [u64], set: u64)
    requires { length t.old ≡ table_words names_per_group }
    ensures { (st : State) → Laid names_per_group st t.old → Laid names_per_group (with_links (interconnect set st.links) st) t.new }
{
    rewiring::interconnect(&mut t[LINKS_AT..FREE_AT], set);
}

// The nodes of the set leave their free groups together. Nodes past the roster have none.
pub fn leave_free(t: &mut [u64], set: u64)
    requires t_len { length t.old ≡ table_words names_per_group }
    requires t_bound { size_of t.old ≤ node_limit }
    ensures { (st : State) → Laid names_per_group st t.old → Rostered st → Laid names_per_group (with_free (leave_free set st.free) st) t.new }
{
    let end = FREE_AT + (t[SIZE_AT] as usize);
    rewiring::leave_free(&mut t[FREE_AT..end], set);
}

// The nodes of the set are one free group, and all connected.
fn merge(t: &mut [u64], set: u64)
    requires { length t.old ≡ table_words names_per_group }
    ensures { (st : State) → Laid names_per_group st t.old → Laid names_per_group (merge set st) t.new }
{
    rewiring::interconnect(&mut t[LINKS_AT..FREE_AT], set);
    rewiring::one_free_group(&mut t[FREE_AT..BODIES_AT], set);
}

// Two nodes are connected, and no free groups become one. The ends stand side by side with a fact each: a struct of a node and its fact would only wrap the number.
fn link(t: &mut [u64], a: u32, b: u32)
    requires t_len { length t.old ≡ table_words names_per_group }
    requires a_lt_node_limit { a < node_limit }
    requires b_lt_node_limit { b < node_limit }
    requires fact { a ≡ b → ⊥ }
    ensures { (st : State) → Laid names_per_group st t.old → Laid names_per_group (link a b st) t.new }
{
    let i = LINKS_AT + (a as usize);
    let j = LINKS_AT + (b as usize);
    t[i] = nodes::with(t[i], b);
    t[j] = nodes::with(t[j], a);
}

// Two nodes connect: those of two free groups bring their groups together.
pub fn connect(t: &mut [u64], a: u32, b: u32)
    requires t_len { length t.old ≡ table_words names_per_group }
    requires a_lt_node_limit { a < node_limit }
    requires b_lt_node_limit { b < node_limit }
    ensures { (st : State) → Laid names_per_group st t.old → Regular names_per_group st → Laid names_per_group (connect a b st) t.new }
{
    if a == b {
        return;
    }
    let x = t[FREE_AT + (a as usize)];
    let y = t[FREE_AT + (b as usize)];
    if (x == 0) | (y == 0) {
        link(t, a, b);
        return;
    }
    if x == y {
        return;
    }
    merge(t, nodes::union(x, y));
}

// The nodes that left an s_group and are in none now become free: the normal ones, as one lot, with every free group that has a node
// connected to one of them.
pub fn become_free(t: &mut [u64], gone: u64)
    requires { length t.old ≡ table_words names_per_group }
    ensures { (st : State) → Laid names_per_group st t.old → Apart st → Laid names_per_group (become_free gone st.groups st) t.new }
{
    let count = t[COUNT_AT] as usize;
    let hidden = t[HIDDEN_AT];
    let taken = nodes::union_all(&t[MEMBERS_AT..LINKS_AT], count);
    let lot = nodes::diff(nodes::diff(gone, taken), hidden);
    if lot == 0 {
        return;
    }
    let met = nodes::unions_at(&t[LINKS_AT..FREE_AT], lot);
    let near = nodes::diff(nodes::diff(met, taken), hidden);
    let touched = nodes::unions_at(&t[FREE_AT..BODIES_AT], near);
    merge(t, nodes::union(lot, touched));
}
