// Whether a namespace is sound. Pids are told apart by slots, which the caller lends: a slot holds the stamp of the namespace whose pid came by last, so that
// nothing is cleared between two namespaces with different stamps. A slot that holds the stamp leads to an exact look back; whatever the slots hold, the answer
// is the same. The count comes beside the run: `sound_words` of entries/NamespaceSound answers a count beyond the run as well. Slots and stamp stand side by
// side: in a struct that is lent as `&mut` the stamp could change too, so that each of these functions would have to promise besides that it does not.
#![tactic(auto)]

ghost use Rattle.std.specs.Prelude.{◌≡◌, ◌&&◌, ◌≤◌, ◌%◌, eqb, length, get_or, set};
ghost use Rattle.entries.specs.Entries.{half_word, holds_pid, entries};
ghost use Rattle.entries.specs.NamespaceSound.{is_ascending, is_distinct, is_hosted, all_zero, sound_words};
ghost use Rattle.namespace_test.specs.Slots.{slot};
ghost use Rattle.namespace_test.specs.Passing.{name_before, is_plain, Kept, Passed, Reached};

use entries::{host_of, name_of, pid_of};
use nodes::NODE_LIMIT;
use search::has_pid;

// So many slots tell most pids apart.
pub const SLOT_COUNT: usize = 1024;

// A slot is made of the digits of a pid's multiple by the first of these, from the second on.
const SLOT_FACTOR: u64 = 2654435761;

const SLOT_DIGIT: u64 = 4194304;

// So many words are passed in a turn.
const TURN: usize = 4;

// Whether every word is zero. It looks at all of them: `all`, which stops early, takes four times as long on 32 words of zero (tried in plain Rust).
// `free_test` has the same of its own: its clause cites `all_zero` of free_test/WireTests, and neither crate stands on the other.
fn all_zero(words: &[u64]) -> bool
    ensures { result ≡ all_zero words.now }
{
    let mut any = 0;
    for word in words {
        any |= *word;
    }
    any == 0
}

// Whether each pid of the words has its host among the first `size` nodes. With a full roster every pid has. It looks at all
// of them: `all`, which stops early, takes twice as long at 32 names (tried in plain Rust).
fn hosted(words: &[u64], size: u32) -> bool
    ensures { result ≡ is_hosted size (entries (length words.now) words.now) }
{
    if NODE_LIMIT <= size {
        return true;
    }
    let mut right = true;
    for word in words {
        right &= host_of(pid_of(*word)) < size;
    }
    right
}

// The slot of a pid: digits of a multiple of it, so that few pids of a namespace share one.
fn slot_of(pid: u32) -> usize
    ensures { result ≡ slot pid }
{
    ((pid as u64) * SLOT_FACTOR / SLOT_DIGIT % (SLOT_COUNT as u64)) as usize
}

// Stamps the slot of the pid, and says whether it held the stamp before.
fn taken(pid: u32, seen: &mut [u8; SLOT_COUNT], stamp: u8) -> bool
    ensures value { result ≡ eqb (get_or seen.old (slot pid) 0) stamp }
    ensures seen_after { seen.new ≡ set seen.old (slot pid) stamp }
{
    let slot = slot_of(pid);
    if seen[slot] == stamp {
        return true;
    }
    seen[slot] = stamp;
    false
}

// The name of the word before the one at `i`, and 0 before the first.
fn name_before(ns: &[u64], i: usize) -> u32
    requires { i ≤ length ns.now }
    ensures { result ≡ name_before i ns.now }
{
    if i == 0 {
        return 0;
    }
    name_of(ns[i - 1])
}

// Stamps the slot of the word's pid, and says whether the word is plainly right after one of the name `last`: its name is higher, and its slot did not hold the
// stamp.
fn is_plain(word: u64, last: u32, seen: &mut [u8; SLOT_COUNT], stamp: u8) -> bool
    ensures value { result ≡ is_plain word last stamp seen.old }
    ensures seen_after { seen.new ≡ set seen.old (slot (word % half_word)) stamp }
{
    !((name_of(word) <= last) | taken(pid_of(word), seen, stamp))
}

// Passes the words from `from` on, four in a turn, up to one that is not plainly right or to the last three, and stamps the slot of each. With a word a turn
// plain Rust took a third longer (docs/DECISIONS.md); by index, since it goes on where `stamped` says, and says itself how far it came.
fn pass(ns: &[u64], from: usize, before: u32, seen: &mut [u8; SLOT_COUNT], stamp: u8) -> usize
    requires { Reached ns.now (length ns.now) stamp from before seen.old }
    ensures { (from ≤ result) × (Passed ns.now (length ns.now) stamp result seen.new) }
{
    let mut last = before;
    let mut i = from;
    while TURN <= ns.len() - i {
        let a = ns[i];
        let b = ns[i + 1];
        let c = ns[i + 2];
        let d = ns[i + 3];
        if !is_plain(a, last, seen, stamp) {
            return i;
        }
        if !is_plain(b, name_of(a), seen, stamp) {
            return i + 1;
        }
        if !is_plain(c, name_of(b), seen, stamp) {
            return i + 2;
        }
        if !is_plain(d, name_of(c), seen, stamp) {
            return i + 3;
        }
        last = name_of(d);
        i += TURN;
    }
    i
}

// Whether the pid of the word at `i` stands before it. It looks back only where the slot of the pid held the stamp.
fn stands_before(ns: &[u64], i: usize, pid: u32, seen: &mut [u8; SLOT_COUNT], stamp: u8) -> bool
    requires { (i ≤ length ns.now) × (Kept ns.now stamp i seen.old) }
    ensures value { result ≡ holds_pid pid (entries i ns.now) }
    ensures seen_after { seen.new ≡ set seen.old (slot pid) stamp }
{
    taken(pid, seen, stamp) && has_pid(&ns[..i], pid)
}

// Whether the names of the words ascend from 1 and no pid stands twice. By index: a pass says how far it came.
fn stamped(ns: &[u64], seen: &mut [u8; SLOT_COUNT], stamp: u8) -> bool
    ensures { result ≡ is_ascending 0 (entries (length ns.now) ns.now) && is_distinct (entries (length ns.now) ns.now) }
{
    let mut last = 0;
    let mut i = 0;
    while i < ns.len() {
        i = pass(ns, i, last, seen, stamp);
        if i < ns.len() {
            let name = name_of(ns[i]);
            if name <= name_before(ns, i) {
                return false;
            }
            if stands_before(ns, i, pid_of(ns[i]), seen, stamp) {
                return false;
            }
            last = name;
            i += 1;
        }
    }
    true
}

// Whether the run holds a sound namespace of `count` names, whose pids live on the first `size` nodes. It takes the least time where no slot holds the stamp.
pub fn is_sound(ns: &[u64], count: usize, size: u32, seen: &mut [u8; SLOT_COUNT], stamp: u8) -> bool
    ensures { result ≡ sound_words size count ns.now }
{
    if ns.len() < count || !all_zero(&ns[count..]) || !hosted(&ns[..count], size) {
        return false;
    }
    stamped(&ns[..count], seen, stamp)
}
