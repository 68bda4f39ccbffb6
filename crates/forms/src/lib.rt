// The fifteen commands as a script writes them: the number of a command by its word and how many arguments it has, and the command of a number.
#![tactic(auto)]

ghost use Rattle.std.specs.Prelude.{◌≡◌, ℕ};
ghost use Rattle.forms.specs.Forms.{number_of, command_of, takes_set};
ghost use Rattle.forms.specs.Words.{spelt, number_with};

use commands::Command;

// The numbers of the commands, in document 01's order. Numbers and not an enum, since the functions below take every number: a narrower parameter would ask
// more of their callers.
pub const REGISTER_NAME: u32 = 1;

pub const RE_REGISTER_NAME: u32 = 2;

pub const UNREGISTER_NAME: u32 = 3;

pub const REGISTERED_NAMES: u32 = 4;

pub const WHEREIS_NAME: u32 = 5;

pub const WHEREIS_NAME_AT: u32 = 6;

pub const SEND: u32 = 7;

pub const SEND_NAME: u32 = 8;

pub const SEND_AT: u32 = 9;

pub const NEW_S_GROUP: u32 = 10;

pub const ADD_NODES: u32 = 11;

pub const REMOVE_NODES: u32 = 12;

pub const DELETE_S_GROUP: u32 = 13;

pub const OWN_NODES: u32 = 14;

pub const OWN_S_GROUPS: u32 = 15;

// The number of no command.
pub const NONE: u32 = 0;

// A command word.
#[derive(Clone, Copy)]
enum Word {
    RegisterName,
    ReRegisterName,
    UnregisterName,
    RegisteredNames,
    WhereisName,
    Send,
    NewSGroup,
    AddNodes,
    RemoveNodes,
    DeleteSGroup,
    OwnNodes,
    OwnSGroups,
}

// The command word that s is. By comparisons: a match on byte strings leaves over a hundred cases of its last arm open (tried).
fn word_of(s: &[u8]) -> Option<Word>
    ensures { (n : ℕ) → number_of s.now n ≡ number_with result n }
{
    if s == b"register_name".as_slice() {
        Some(Word::RegisterName)
    } else if s == b"re_register_name".as_slice() {
        Some(Word::ReRegisterName)
    } else if s == b"unregister_name".as_slice() {
        Some(Word::UnregisterName)
    } else if s == b"registered_names".as_slice() {
        Some(Word::RegisteredNames)
    } else if s == b"whereis_name".as_slice() {
        Some(Word::WhereisName)
    } else if s == b"send".as_slice() {
        Some(Word::Send)
    } else if s == b"new_s_group".as_slice() {
        Some(Word::NewSGroup)
    } else if s == b"add_nodes".as_slice() {
        Some(Word::AddNodes)
    } else if s == b"remove_nodes".as_slice() {
        Some(Word::RemoveNodes)
    } else if s == b"delete_s_group".as_slice() {
        Some(Word::DeleteSGroup)
    } else if s == b"own_nodes".as_slice() {
        Some(Word::OwnNodes)
    } else if s == b"own_s_groups".as_slice() {
        Some(Word::OwnSGroups)
    } else {
        None
    }
}

// The number of the command with a word and so many arguments.
#[tactic(auto, unfolding(crate::specs::Forms::number_of, crate::specs::Forms::number_from, crate::specs::Forms::forms))]
fn number_by(word: Word, arguments: usize) -> u32
    ensures { result ≡ number_of (spelt word) arguments }
{
    match (word, arguments) {
        (Word::RegisterName, 3) => REGISTER_NAME,
        (Word::ReRegisterName, 3) => RE_REGISTER_NAME,
        (Word::UnregisterName, 2) => UNREGISTER_NAME,
        (Word::RegisteredNames, 1) => REGISTERED_NAMES,
        (Word::WhereisName, 2) => WHEREIS_NAME,
        (Word::WhereisName, 3) => WHEREIS_NAME_AT,
        (Word::Send, 1) => SEND,
        (Word::Send, 2) => SEND_NAME,
        (Word::Send, 3) => SEND_AT,
        (Word::NewSGroup, 2) => NEW_S_GROUP,
        (Word::AddNodes, 2) => ADD_NODES,
        (Word::RemoveNodes, 2) => REMOVE_NODES,
        (Word::DeleteSGroup, 1) => DELETE_S_GROUP,
        (Word::OwnNodes, 0) => OWN_NODES,
        (Word::OwnSGroups, 0) => OWN_S_GROUPS,
        // no command of this word has so many
        (_, 0..=3) => NONE,
        (_, 4..) => NONE,
    }
}

// The number of the command with the word s and so many arguments, or NONE. No Option: `number_of` of forms/Forms, which the clause cites, gives 0 for no command.
pub fn number(s: &[u8], arguments: usize) -> u32
    ensures { result ≡ number_of s.now arguments }
{
    match word_of(s) {
        Some(word) => number_by(word, arguments),
        None => NONE,
    }
}

// The command of a number: its arguments of 32 bits are a, b and c in their order, and set is its set of nodes.
// The arguments stand side by side as C gives them; what is made of them here is the struct of a command.
#[tactic(auto, unfolding(crate::specs::Forms::command_of, crate::specs::Forms::form_of, crate::specs::Forms::form_from, crate::specs::Forms::forms))]
pub fn command_of(number: u32, a: u32, b: u32, c: u32, set: u64) -> Option<Command>
    ensures { result ≡ command_of number a b c set }
{
    let command = match number {
        REGISTER_NAME => Command::RegisterName { s: a, n: b, p: c },
        RE_REGISTER_NAME => Command::ReRegisterName { s: a, n: b, p: c },
        UNREGISTER_NAME => Command::UnregisterName { s: a, n: b },
        REGISTERED_NAMES => Command::RegisteredNames { s: a },
        WHEREIS_NAME => Command::WhereisName { s: a, n: b },
        WHEREIS_NAME_AT => Command::WhereisNameAt {
            node: a,
            s: b,
            n: c,
        },
        SEND => Command::Send { p: a },
        SEND_NAME => Command::SendName { s: a, n: b },
        SEND_AT => Command::SendAt {
            node: a,
            s: b,
            n: c,
        },
        NEW_S_GROUP => Command::NewSGroup { s: a, set },
        ADD_NODES => Command::AddNodes { s: a, set },
        REMOVE_NODES => Command::RemoveNodes { s: a, set },
        DELETE_S_GROUP => Command::DeleteSGroup { s: a },
        OWN_NODES => Command::OwnNodes,
        OWN_S_GROUPS => Command::OwnSGroups,
        _ => return None,
    };
    Some(command)
}

// Whether the command of a number takes a set of nodes.
#[tactic(auto, unfolding(crate::specs::Forms::takes_set, crate::specs::Forms::form_of, crate::specs::Forms::form_from, crate::specs::Forms::forms))]
pub fn takes_set(number: u32) -> bool
    ensures { result ≡ takes_set number }
{
    matches!(number, NEW_S_GROUP | ADD_NODES | REMOVE_NODES)
}
