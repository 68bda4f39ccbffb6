// Whether a run of words is a sound table.
#![tactic(auto)]

ghost use Rattle.std.specs.Prelude.{◌≡◌, ◌+◌, ◌*◌, ◌≤◌, ◌<◌, cond, Ok, Err, length};
ghost use Rattle.entries.specs.Entries.{half_word};
ghost use Rattle.semantics.specs.Sizes.{group_limit, names_per_group, bodies_at, table_words};
ghost use Rattle.semantics.specs.Test.{sound};
ghost use Rattle.semantics.specs.Call.{why};
ghost use Rattle.free_test.specs.WireTests.{all_zero};
ghost use Rattle.groups_test.specs.GroupTests.{part, head_right, unused_zero, rest_right, parts_right};

use answers::Reason;
use free_test::{all_zero, free_sound};
use groups_test::Counted;
use layout::{
    BODIES_AT, CONTENTS_AT, COUNT_AT, FREE_AT, GROUP_LIMIT, HIDDEN_AT, LINKS_AT, MEMBERS_AT,
    NAMES_PER_GROUP, NODE_LIMIT, SIZE_AT, SPARE_AT, TABLE_WORDS,
};
use links_test::links_sound;

// Whether the head is right: a roster size in range, hidden nodes on the roster, no more s_groups than there is room for, zero.
fn head_sound(size: u64, hidden: u64, count: u64, spare: u64) -> bool
    ensures { result ≡ head_right size hidden count spare }
{
    if size < 1 {
        return false;
    }
    if (NODE_LIMIT as u64) < size {
        return false;
    }
    (count <= GROUP_LIMIT as u64) & ((spare == 0) & !nodes::beyond(hidden, size as u32))
}

// Whether the words of names past the s_groups that there are are zero, a namespace at a time: a single loop over all of them takes half as long again where
// its code falls into two lines of the processor's code cache.
fn bodies_zero(t: Counted<'_>, cap: usize) -> bool
    requires { length t.words.now ≡ table_words cap }
    ensures { result ≡ all_zero (part t.entry.words.now (bodies_at + cap * t.entry.count) (table_words cap)) }
{
    let mut right = true;
    for i in t.count..GROUP_LIMIT {
        right &= all_zero(t.body(cap, i));
    }
    right
}

// Whether contents, members and names past the s_groups that there are are zero.
fn unused_zero(t: Counted<'_>, cap: usize) -> bool
    requires { length t.words.now ≡ table_words cap }
    ensures { result ≡ unused_zero cap t.entry.words.now t.entry.count }
{
    let contents = &t.words[CONTENTS_AT + t.count..MEMBERS_AT];
    let members = &t.words[MEMBERS_AT + t.count..LINKS_AT];
    all_zero(contents) & (all_zero(members) & bodies_zero(t, cap))
}

// Whether all that follows contents and members is right, for n nodes, and those of them in an s_group. It goes through the table from front to back.
fn rest_sound(t: Counted<'_>, n: u32, cap: usize, grouped: u64) -> bool
    requires { length t.words.now ≡ table_words cap }
    ensures { result ≡ rest_right cap t.entry.words.now t.entry.count n grouped }
{
    let loose = nodes::diff(nodes::diff(nodes::roster(n), t.words[HIDDEN_AT]), grouped);
    let links = links_sound(&t.words[LINKS_AT..FREE_AT], n);
    let met = groups_test::members_met(t);
    let free = free_sound(
        &t.words[LINKS_AT..FREE_AT],
        &t.words[FREE_AT..BODIES_AT],
        loose,
        n,
    );
    let unused = unused_zero(t, cap);
    let names = groups_test::names_sound(t, n, cap);
    links & (met & (free & (unused & names)))
}

// Whether all that follows the head is right, for n nodes.
fn parts_sound(t: Counted<'_>, n: u32, cap: usize) -> bool
    requires { length t.words.now ≡ table_words cap }
    ensures { result ≡ parts_right cap t.entry.words.now t.entry.count n }
{
    match groups_test::grouped_nodes(t, n, cap) {
        Some(grouped) => rest_sound(t, n, cap, grouped),
        None => false,
    }
}

// Whether the run is a sound table of s_groups that hold at most `cap` names each.
fn sound_for(t: &[u64], cap: usize) -> bool
    requires { cap < half_word }
    ensures { result ≡ sound cap t.now }
{
    if t.len() != BODIES_AT + GROUP_LIMIT * cap {
        return false;
    }
    let size = t[SIZE_AT];
    let count = t[COUNT_AT];
    if head_sound(size, t[HIDDEN_AT], count, t[SPARE_AT]) {
        return parts_sound(
            Counted {
                words: t,
                count: count as usize,
            },
            size as u32,
            cap,
        );
    }
    false
}

// Whether the run is a sound table. A part that is the whole run is handed on: a slice that is handed on as it is stays in the frame of each caller.
pub fn is_sound(t: &[u64]) -> bool
    ensures { result ≡ sound names_per_group t.now }
{
    sound_for(&t[0..], NAMES_PER_GROUP)
}

// That the run is a sound table; else the reason: its length, which is tested first, or that it is unsound.
pub fn check(table: &[u64]) -> Result<(), Reason>
    ensures { result ≡ cond (sound names_per_group table.now) (Ok tt) (Err (why table.now)) }
{
    if is_sound(table) {
        return Ok(());
    }
    if table.len() == TABLE_WORDS {
        return Err(Reason::Unsound);
    }
    Err(Reason::TableLength)
}
