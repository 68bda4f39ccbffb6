// The library for C and Rust: opening, the test and the commands, with numbers for their answers. A run is passed as a pointer and a length.
// Functions of one body stay apart, here and in `with_index`: C calls each under its own name, with arguments of its own. `commanded`, which C does not call, stands
// in both, since what the other promises is of an index too.
#![tactic(auto)]

mod with_index;

ghost use Rattle.std.specs.Prelude.{◌≡◌, [], Some};
ghost use Rattle.semantics.specs.Sizes.{names_per_group};
ghost use Rattle.commands.specs.declared.Command.TheVariants.{RegisterName, ReRegisterName, UnregisterName, RegisteredNames, WhereisName, WhereisNameAt, Send, SendName, SendAt, NewSGroup, AddNodes, RemoveNodes, DeleteSGroup, OwnNodes, OwnSGroups};
ghost use Rattle.commands.specs.declared.Command.{Command};
ghost use Rattle.forms.specs.Forms.{command_of};
ghost use Rattle.semantics.specs.Call.{opening};
ghost use Rattle.semantics.specs.Test.{sound};
ghost use Rattle.answer_words.specs.AnswerWords.{told, commanded};
ghost use Rattle.answer_words.specs.Told.{TellsTable};
ghost use Rattle.launch.specs.Launch.{launch};
ghost use Rattle.sgroup_c.specs.LaunchWords.{launch_told};

use answer_words::put;

// How many words an answer takes: its kind, two numbers, the number of its reason.
const ANSWER_WORDS: usize = 4;

// What is returned where the run for the answer is shorter; nothing is called then.
const NO_ROOM: u32 = 4294967295;

// Where the place of a refused launch stands in its answer.
const PLACE_AT: usize = 1;

// Whether the run is a sound table.
#[unsafe(no_mangle)]
pub extern "C" fn sgroup_is_sound(table: &[u64]) -> bool
    ensures { result ≡ sound names_per_group table.now }
{
    table::is_sound(table)
}

// Opens the table for n nodes, some of them hidden: nobody is grouped or connected, and every normal node is a free group by itself.
#[unsafe(no_mangle)]
pub extern "C" fn sgroup_open(table: &mut [u64], n: u32, hidden: u64, answer: &mut [u64]) -> u32
    ensures value { result ≡ (told (opening n hidden table.old) answer.old [] table.old).returned }
    ensures answer_after { answer.new ≡ (told (opening n hidden table.old) answer.old [] table.old).answer }
    ensures table_after { table.new ≡ (told (opening n hidden table.old) answer.old [] table.old).table }
{
    if answer.len() < ANSWER_WORDS {
        return NO_ROOM;
    }
    put(answer, opening::open(table, n, hidden))
}

// Opens the table for n nodes, some of them hidden, and makes the s_groups of a launch file, by the book; start is the node that is started.
#[unsafe(no_mangle)]
pub extern "C" fn sgroup_launch(
    table: &mut [u64],
    n: u32,
    hidden: u64,
    start: u32,
    book: &[u8],
    file: &[u8],
    answer: &mut [u64],
) -> u32
    ensures value { result ≡ (launch_told (launch n hidden start book.now file.now table.old) answer.old table.old).returned }
    ensures answer_after { answer.new ≡ (launch_told (launch n hidden start book.now file.now table.old) answer.old table.old).answer }
    ensures table_after { table.new ≡ (launch_told (launch n hidden start book.now file.now table.old) answer.old table.old).table }
{
    if answer.len() < ANSWER_WORDS {
        return NO_ROOM;
    }
    let launched = launch::launch(table, n, hidden, start, book, file);
    let place = launched.place;
    let reason = put(answer, launched.answer);
    answer[PLACE_AT] = place as u64;
    reason
}

// The command of a number, with its answer in the run `answer` and no run for a list: its arguments of 32 bits are a, b and c in their order, and set is
// its set of nodes. The command is made here of these, so that it is never stored: two fields that are stored apart and read as one word wait for memory.
fn commanded(
    table: &mut [u64],
    answer: &mut [u64],
    caller: u32,
    number: u32,
    a: u32,
    b: u32,
    c: u32,
    set: u64,
) -> u32
    ensures { (command : Command) → command_of number a b c set ≡ Some command → TellsTable (commanded caller command answer.old [] table.old) result answer.new table.new }
{
    if answer.len() < ANSWER_WORDS {
        return NO_ROOM;
    }
    match forms::command_of(number, a, b, c, set) {
        Some(command) => {
            let mut none = [0u64; 0];
            put(answer, sgroup::call(table, &mut none, caller, command))
        }
        None => NO_ROOM,
    }
}

// Registers the pid under the name in the s_group.
#[unsafe(no_mangle)]
pub extern "C" fn sgroup_register_name(
    table: &mut [u64],
    caller: u32,
    s: u32,
    n: u32,
    p: u32,
    answer: &mut [u64],
) -> u32
    ensures value { result ≡ (commanded caller (RegisterName s n p) answer.old [] table.old).returned }
    ensures answer_after { answer.new ≡ (commanded caller (RegisterName s n p) answer.old [] table.old).answer }
    ensures table_after { table.new ≡ (commanded caller (RegisterName s n p) answer.old [] table.old).table }
{
    commanded(table, answer, caller, forms::REGISTER_NAME, s, n, p, 0)
}

// Registers the pid under the name in the s_group, in place of the one that the name had.
#[unsafe(no_mangle)]
pub extern "C" fn sgroup_re_register_name(
    table: &mut [u64],
    caller: u32,
    s: u32,
    n: u32,
    p: u32,
    answer: &mut [u64],
) -> u32
    ensures value { result ≡ (commanded caller (ReRegisterName s n p) answer.old [] table.old).returned }
    ensures answer_after { answer.new ≡ (commanded caller (ReRegisterName s n p) answer.old [] table.old).answer }
    ensures table_after { table.new ≡ (commanded caller (ReRegisterName s n p) answer.old [] table.old).table }
{
    commanded(table, answer, caller, forms::RE_REGISTER_NAME, s, n, p, 0)
}

// Takes the name out of the s_group's namespace.
#[unsafe(no_mangle)]
pub extern "C" fn sgroup_unregister_name(
    table: &mut [u64],
    caller: u32,
    s: u32,
    n: u32,
    answer: &mut [u64],
) -> u32
    ensures value { result ≡ (commanded caller (UnregisterName s n) answer.old [] table.old).returned }
    ensures answer_after { answer.new ≡ (commanded caller (UnregisterName s n) answer.old [] table.old).answer }
    ensures table_after { table.new ≡ (commanded caller (UnregisterName s n) answer.old [] table.old).table }
{
    commanded(table, answer, caller, forms::UNREGISTER_NAME, s, n, 0, 0)
}

// The names in the s_group, to the run `out`.
#[unsafe(no_mangle)]
pub extern "C" fn sgroup_registered_names(
    table: &[u64],
    caller: u32,
    s: u32,
    out: &mut [u64],
    answer: &mut [u64],
) -> u32
    ensures value { result ≡ (commanded caller (RegisteredNames s) answer.old out.old table.now).returned }
    ensures answer_after { answer.new ≡ (commanded caller (RegisteredNames s) answer.old out.old table.now).answer }
    ensures out_after { out.new ≡ (commanded caller (RegisteredNames s) answer.old out.old table.now).list }
{
    if answer.len() < ANSWER_WORDS {
        return NO_ROOM;
    }
    put(answer, sgroup::registered_names(table, caller, s, out))
}

// What the caller finds under the name in the s_group.
#[unsafe(no_mangle)]
pub extern "C" fn sgroup_whereis_name(
    table: &[u64],
    caller: u32,
    s: u32,
    n: u32,
    answer: &mut [u64],
) -> u32
    ensures value { result ≡ (commanded caller (WhereisName s n) answer.old [] table.now).returned }
    ensures answer_after { answer.new ≡ (commanded caller (WhereisName s n) answer.old [] table.now).answer }
{
    if answer.len() < ANSWER_WORDS {
        return NO_ROOM;
    }
    put(answer, sgroup::whereis_name(table, caller, s, n))
}

// What the node finds under the name in the s_group; the caller connects with the node.
#[unsafe(no_mangle)]
pub extern "C" fn sgroup_whereis_name_at(
    table: &mut [u64],
    caller: u32,
    node: u32,
    s: u32,
    n: u32,
    answer: &mut [u64],
) -> u32
    ensures value { result ≡ (commanded caller (WhereisNameAt node s n) answer.old [] table.old).returned }
    ensures answer_after { answer.new ≡ (commanded caller (WhereisNameAt node s n) answer.old [] table.old).answer }
    ensures table_after { table.new ≡ (commanded caller (WhereisNameAt node s n) answer.old [] table.old).table }
{
    commanded(table, answer, caller, forms::WHEREIS_NAME_AT, node, s, n, 0)
}

// The caller sends to the pid, and connects with its host.
#[unsafe(no_mangle)]
pub extern "C" fn sgroup_send(table: &mut [u64], caller: u32, p: u32, answer: &mut [u64]) -> u32
    ensures value { result ≡ (commanded caller (Send p) answer.old [] table.old).returned }
    ensures answer_after { answer.new ≡ (commanded caller (Send p) answer.old [] table.old).answer }
    ensures table_after { table.new ≡ (commanded caller (Send p) answer.old [] table.old).table }
{
    commanded(table, answer, caller, forms::SEND, p, 0, 0, 0)
}

// The caller sends to the pid that it finds under the name in the s_group.
#[unsafe(no_mangle)]
pub extern "C" fn sgroup_send_name(
    table: &mut [u64],
    caller: u32,
    s: u32,
    n: u32,
    answer: &mut [u64],
) -> u32
    ensures value { result ≡ (commanded caller (SendName s n) answer.old [] table.old).returned }
    ensures answer_after { answer.new ≡ (commanded caller (SendName s n) answer.old [] table.old).answer }
    ensures table_after { table.new ≡ (commanded caller (SendName s n) answer.old [] table.old).table }
{
    commanded(table, answer, caller, forms::SEND_NAME, s, n, 0, 0)
}

// The caller sends to the pid that the node finds under the name in the s_group.
#[unsafe(no_mangle)]
pub extern "C" fn sgroup_send_at(
    table: &mut [u64],
    caller: u32,
    node: u32,
    s: u32,
    n: u32,
    answer: &mut [u64],
) -> u32
    ensures value { result ≡ (commanded caller (SendAt node s n) answer.old [] table.old).returned }
    ensures answer_after { answer.new ≡ (commanded caller (SendAt node s n) answer.old [] table.old).answer }
    ensures table_after { table.new ≡ (commanded caller (SendAt node s n) answer.old [] table.old).table }
{
    commanded(table, answer, caller, forms::SEND_AT, node, s, n, 0)
}

// A new s_group of the set.
#[unsafe(no_mangle)]
pub extern "C" fn sgroup_new_s_group(
    table: &mut [u64],
    caller: u32,
    s: u32,
    set: u64,
    answer: &mut [u64],
) -> u32
    ensures value { result ≡ (commanded caller (NewSGroup s set) answer.old [] table.old).returned }
    ensures answer_after { answer.new ≡ (commanded caller (NewSGroup s set) answer.old [] table.old).answer }
    ensures table_after { table.new ≡ (commanded caller (NewSGroup s set) answer.old [] table.old).table }
{
    commanded(table, answer, caller, forms::NEW_S_GROUP, s, 0, 0, set)
}

// The set joins the s_group.
#[unsafe(no_mangle)]
pub extern "C" fn sgroup_add_nodes(
    table: &mut [u64],
    caller: u32,
    s: u32,
    set: u64,
    answer: &mut [u64],
) -> u32
    ensures value { result ≡ (commanded caller (AddNodes s set) answer.old [] table.old).returned }
    ensures answer_after { answer.new ≡ (commanded caller (AddNodes s set) answer.old [] table.old).answer }
    ensures table_after { table.new ≡ (commanded caller (AddNodes s set) answer.old [] table.old).table }
{
    commanded(table, answer, caller, forms::ADD_NODES, s, 0, 0, set)
}

// The members of the set leave the s_group.
#[unsafe(no_mangle)]
pub extern "C" fn sgroup_remove_nodes(
    table: &mut [u64],
    caller: u32,
    s: u32,
    set: u64,
    answer: &mut [u64],
) -> u32
    ensures value { result ≡ (commanded caller (RemoveNodes s set) answer.old [] table.old).returned }
    ensures answer_after { answer.new ≡ (commanded caller (RemoveNodes s set) answer.old [] table.old).answer }
    ensures table_after { table.new ≡ (commanded caller (RemoveNodes s set) answer.old [] table.old).table }
{
    commanded(table, answer, caller, forms::REMOVE_NODES, s, 0, 0, set)
}

// The s_group goes, with its names.
#[unsafe(no_mangle)]
pub extern "C" fn sgroup_delete_s_group(
    table: &mut [u64],
    caller: u32,
    s: u32,
    answer: &mut [u64],
) -> u32
    ensures value { result ≡ (commanded caller (DeleteSGroup s) answer.old [] table.old).returned }
    ensures answer_after { answer.new ≡ (commanded caller (DeleteSGroup s) answer.old [] table.old).answer }
    ensures table_after { table.new ≡ (commanded caller (DeleteSGroup s) answer.old [] table.old).table }
{
    commanded(table, answer, caller, forms::DELETE_S_GROUP, s, 0, 0, 0)
}

// The nodes of the caller's groups, and how many they are.
#[unsafe(no_mangle)]
pub extern "C" fn sgroup_own_nodes(table: &[u64], caller: u32, answer: &mut [u64]) -> u32
    ensures value { result ≡ (commanded caller OwnNodes answer.old [] table.now).returned }
    ensures answer_after { answer.new ≡ (commanded caller OwnNodes answer.old [] table.now).answer }
{
    if answer.len() < ANSWER_WORDS {
        return NO_ROOM;
    }
    put(answer, sgroup::own_nodes(table, caller))
}

// The caller's s_groups, name and members, to the run `out`.
#[unsafe(no_mangle)]
pub extern "C" fn sgroup_own_s_groups(
    table: &[u64],
    caller: u32,
    out: &mut [u64],
    answer: &mut [u64],
) -> u32
    ensures value { result ≡ (commanded caller OwnSGroups answer.old out.old table.now).returned }
    ensures answer_after { answer.new ≡ (commanded caller OwnSGroups answer.old out.old table.now).answer }
    ensures out_after { out.new ≡ (commanded caller OwnSGroups answer.old out.old table.now).list }
{
    if answer.len() < ANSWER_WORDS {
        return NO_ROOM;
    }
    put(answer, sgroup::own_s_groups(table, caller, out))
}
