// A namespace in a lent run of words: the halves of a word, and what the functions answer. The definitions and laws stand in specs/.
#![tactic(auto)]

ghost use Rattle.std.specs.Prelude.{◌≡◌, ◌/◌, ◌%◌};
ghost use Rattle.entries.specs.Entries.{half_word, host, word_of};

// Names and pids are below this, and a word counts its name by it.
pub const HALF_WORD: u64 = 4294967296;

// Each host has so many pids.
pub const PIDS_PER_HOST: u32 = 67108864;

// Why a namespace's function does not do what it is asked: the name is not held, no word is free, or the count is past the end of the run.
#[derive(Clone, Copy, PartialEq, Eq)]
pub enum Refusal {
    Absent,
    Full,
    Unfit,
}

// What a lookup tells of a held name by a set of nodes: its pid, whose host is in the set or outside it. Either tells a pid, so that it is no Result.
#[derive(Clone, Copy)]
pub enum Seen {
    Inside(u32),
    Outside(u32),
}

// The word of a name and its pid.
pub fn word_of(name: u32, pid: u32) -> u64
    ensures { result ≡ word_of (record { name = name; pid = pid }) }
{
    name as u64 * HALF_WORD + pid as u64
}

// The name in a word.
pub fn name_of(word: u64) -> u32
    ensures { result ≡ word / half_word }
{
    (word / HALF_WORD) as u32
}

// The pid in a word.
pub fn pid_of(word: u64) -> u32
    ensures { result ≡ word % half_word }
{
    (word % HALF_WORD) as u32
}

// The node that a pid lives on.
pub fn host_of(pid: u32) -> u32
    ensures { result ≡ host pid }
{
    pid / PIDS_PER_HOST
}
