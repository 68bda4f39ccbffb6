// What an index of a table holds: the rows of all registered names, by pid. The definitions and laws stand in specs/.
#![tactic(auto)]

ghost use Rattle.std.specs.Prelude.{◌≡◌, ◌/◌, ◌%◌};
ghost use Rattle.entries.specs.Entries.{half_word};
ghost use Rattle.indexes.specs.Index.{key_of};

use entries::HALF_WORD;

// What a command that is done may make of the rows: one more, of a key and a name; the one of a key gone; the one of a key gone and another put in; those of an
// s_group gone whose pid lives on a node of a set.
#[derive(Clone, Copy)]
pub enum Update {
    More(u64, u32),
    Less(u64),
    Moved(u64, u64, u32),
    Gone(u32, u64),
}

// The key of a pid in an s_group. It has halves, as the words of a namespace in `entries`, but it is none of these.
pub fn key_of(p: u32, s: u32) -> u64
    ensures { result ≡ key_of p s }
{
    p as u64 * HALF_WORD + s as u64
}

// The pid of a key.
pub fn pid_of(key: u64) -> u32
    ensures { result ≡ key / half_word }
{
    (key / HALF_WORD) as u32
}

// The name of its s_group.
pub fn group_of(key: u64) -> u32
    ensures { result ≡ key % half_word }
{
    (key % HALF_WORD) as u32
}
