// The calls with an index beside the table, with numbers for their answers. Functions of one body stay apart, since C calls each under its own name.
ghost use Rattle.std.specs.Prelude.{◌≡◌, [], length, Some};
ghost use Rattle.commands.specs.declared.Command.TheVariants.{RegisterName, ReRegisterName, UnregisterName, RegisteredNames, WhereisName, WhereisNameAt, Send, SendName, SendAt, NewSGroup, AddNodes, RemoveNodes, DeleteSGroup, OwnNodes, OwnSGroups};
ghost use Rattle.commands.specs.declared.Command.{Command};
ghost use Rattle.forms.specs.Forms.{command_of};
ghost use Rattle.indexes.specs.IndexCalls.{opened, written, read};
ghost use Rattle.answer_words.specs.AnswerWords.{told, told_indexed, commanded_indexed};
ghost use Rattle.answer_words.specs.Told.{TellsIndexed};

use crate::{ANSWER_WORDS, NO_ROOM};
use answer_words::put;

// Opens the table for n nodes, some of them hidden, and zeroes the index.
#[unsafe(no_mangle)]
pub extern "C" fn sgroup_open_indexed(
    table: &mut [u64],
    index: &mut [u64],
    n: u32,
    hidden: u64,
    answer: &mut [u64],
) -> u32
    ensures value { result ≡ (told_indexed (opened n hidden table.old index.old) answer.old [] table.old index.old).told.returned }
    ensures answer_after { answer.new ≡ (told_indexed (opened n hidden table.old index.old) answer.old [] table.old index.old).told.answer }
    ensures table_after { table.new ≡ (told_indexed (opened n hidden table.old index.old) answer.old [] table.old index.old).told.table }
    ensures index_after { index.new ≡ (told_indexed (opened n hidden table.old index.old) answer.old [] table.old index.old).index }
{
    if answer.len() < ANSWER_WORDS {
        return NO_ROOM;
    }
    put(answer, indexed::open(table, index, n, hidden))
}

// The index of the table is written.
#[unsafe(no_mangle)]
pub extern "C" fn sgroup_index(table: &[u64], index: &mut [u64], answer: &mut [u64]) -> u32
    ensures value { result ≡ (told_indexed (written table.now index.old) answer.old [] table.now index.old).told.returned }
    ensures answer_after { answer.new ≡ (told_indexed (written table.now index.old) answer.old [] table.now index.old).told.answer }
    ensures index_after { index.new ≡ (told_indexed (written table.now index.old) answer.old [] table.now index.old).index }
{
    if answer.len() < ANSWER_WORDS {
        return NO_ROOM;
    }
    put(answer, indexed::write(table, index))
}

// S_group and name of each name of the pid, to the run `out`.
#[unsafe(no_mangle)]
pub extern "C" fn sgroup_names_of(
    table: &[u64],
    index: &[u64],
    p: u32,
    out: &mut [u64],
    answer: &mut [u64],
) -> u32
    ensures value { result ≡ (told (read (length out.old) p table.now index.now) answer.old out.old table.now).returned }
    ensures answer_after { answer.new ≡ (told (read (length out.old) p table.now index.now) answer.old out.old table.now).answer }
    ensures out_after { out.new ≡ (told (read (length out.old) p table.now index.now) answer.old out.old table.now).list }
{
    if answer.len() < ANSWER_WORDS {
        return NO_ROOM;
    }
    put(answer, indexed::names_of(table, index, p, out))
}

// The command of a number, with an index; else as `commanded` without one.
fn commanded(
    table: &mut [u64],
    index: &mut [u64],
    answer: &mut [u64],
    caller: u32,
    number: u32,
    a: u32,
    b: u32,
    c: u32,
    set: u64,
) -> u32
    ensures { (command : Command) → command_of number a b c set ≡ Some command → TellsIndexed (commanded_indexed caller command answer.old [] table.old index.old) result answer.new table.new index.new }
{
    if answer.len() < ANSWER_WORDS {
        return NO_ROOM;
    }
    match forms::command_of(number, a, b, c, set) {
        Some(command) => {
            let mut none = [0u64; 0];
            put(
                answer,
                indexed::call(table, index, &mut none, caller, command),
            )
        }
        None => NO_ROOM,
    }
}

// Registers the pid under the name in the s_group.
#[unsafe(no_mangle)]
pub extern "C" fn sgroup_register_name_indexed(
    table: &mut [u64],
    index: &mut [u64],
    caller: u32,
    s: u32,
    n: u32,
    p: u32,
    answer: &mut [u64],
) -> u32
    ensures value { result ≡ (commanded_indexed caller (RegisterName s n p) answer.old [] table.old index.old).told.returned }
    ensures answer_after { answer.new ≡ (commanded_indexed caller (RegisterName s n p) answer.old [] table.old index.old).told.answer }
    ensures table_after { table.new ≡ (commanded_indexed caller (RegisterName s n p) answer.old [] table.old index.old).told.table }
    ensures index_after { index.new ≡ (commanded_indexed caller (RegisterName s n p) answer.old [] table.old index.old).index }
{
    commanded(
        table,
        index,
        answer,
        caller,
        forms::REGISTER_NAME,
        s,
        n,
        p,
        0,
    )
}

// Registers the pid under the name in the s_group, in place of the one that the name had.
#[unsafe(no_mangle)]
pub extern "C" fn sgroup_re_register_name_indexed(
    table: &mut [u64],
    index: &mut [u64],
    caller: u32,
    s: u32,
    n: u32,
    p: u32,
    answer: &mut [u64],
) -> u32
    ensures value { result ≡ (commanded_indexed caller (ReRegisterName s n p) answer.old [] table.old index.old).told.returned }
    ensures answer_after { answer.new ≡ (commanded_indexed caller (ReRegisterName s n p) answer.old [] table.old index.old).told.answer }
    ensures table_after { table.new ≡ (commanded_indexed caller (ReRegisterName s n p) answer.old [] table.old index.old).told.table }
    ensures index_after { index.new ≡ (commanded_indexed caller (ReRegisterName s n p) answer.old [] table.old index.old).index }
{
    commanded(
        table,
        index,
        answer,
        caller,
        forms::RE_REGISTER_NAME,
        s,
        n,
        p,
        0,
    )
}

// Takes the name out of the s_group's namespace.
#[unsafe(no_mangle)]
pub extern "C" fn sgroup_unregister_name_indexed(
    table: &mut [u64],
    index: &mut [u64],
    caller: u32,
    s: u32,
    n: u32,
    answer: &mut [u64],
) -> u32
    ensures value { result ≡ (commanded_indexed caller (UnregisterName s n) answer.old [] table.old index.old).told.returned }
    ensures answer_after { answer.new ≡ (commanded_indexed caller (UnregisterName s n) answer.old [] table.old index.old).told.answer }
    ensures table_after { table.new ≡ (commanded_indexed caller (UnregisterName s n) answer.old [] table.old index.old).told.table }
    ensures index_after { index.new ≡ (commanded_indexed caller (UnregisterName s n) answer.old [] table.old index.old).index }
{
    commanded(
        table,
        index,
        answer,
        caller,
        forms::UNREGISTER_NAME,
        s,
        n,
        0,
        0,
    )
}

// The names in the s_group, to the run `out`.
#[unsafe(no_mangle)]
pub extern "C" fn sgroup_registered_names_indexed(
    table: &[u64],
    index: &[u64],
    caller: u32,
    s: u32,
    out: &mut [u64],
    answer: &mut [u64],
) -> u32
    ensures value { result ≡ (commanded_indexed caller (RegisteredNames s) answer.old out.old table.now index.now).told.returned }
    ensures answer_after { answer.new ≡ (commanded_indexed caller (RegisteredNames s) answer.old out.old table.now index.now).told.answer }
    ensures out_after { out.new ≡ (commanded_indexed caller (RegisteredNames s) answer.old out.old table.now index.now).told.list }
{
    if answer.len() < ANSWER_WORDS {
        return NO_ROOM;
    }
    put(
        answer,
        indexed::registered_names(table, index, caller, s, out),
    )
}

// What the caller finds under the name in the s_group.
#[unsafe(no_mangle)]
pub extern "C" fn sgroup_whereis_name_indexed(
    table: &[u64],
    index: &[u64],
    caller: u32,
    s: u32,
    n: u32,
    answer: &mut [u64],
) -> u32
    ensures value { result ≡ (commanded_indexed caller (WhereisName s n) answer.old [] table.now index.now).told.returned }
    ensures answer_after { answer.new ≡ (commanded_indexed caller (WhereisName s n) answer.old [] table.now index.now).told.answer }
{
    if answer.len() < ANSWER_WORDS {
        return NO_ROOM;
    }
    put(answer, indexed::whereis_name(table, index, caller, s, n))
}

// What the node finds under the name in the s_group; the caller connects with the node.
#[unsafe(no_mangle)]
pub extern "C" fn sgroup_whereis_name_at_indexed(
    table: &mut [u64],
    index: &mut [u64],
    caller: u32,
    node: u32,
    s: u32,
    n: u32,
    answer: &mut [u64],
) -> u32
    ensures value { result ≡ (commanded_indexed caller (WhereisNameAt node s n) answer.old [] table.old index.old).told.returned }
    ensures answer_after { answer.new ≡ (commanded_indexed caller (WhereisNameAt node s n) answer.old [] table.old index.old).told.answer }
    ensures table_after { table.new ≡ (commanded_indexed caller (WhereisNameAt node s n) answer.old [] table.old index.old).told.table }
    ensures index_after { index.new ≡ (commanded_indexed caller (WhereisNameAt node s n) answer.old [] table.old index.old).index }
{
    commanded(
        table,
        index,
        answer,
        caller,
        forms::WHEREIS_NAME_AT,
        node,
        s,
        n,
        0,
    )
}

// The caller sends to the pid, and connects with its host.
#[unsafe(no_mangle)]
pub extern "C" fn sgroup_send_indexed(
    table: &mut [u64],
    index: &mut [u64],
    caller: u32,
    p: u32,
    answer: &mut [u64],
) -> u32
    ensures value { result ≡ (commanded_indexed caller (Send p) answer.old [] table.old index.old).told.returned }
    ensures answer_after { answer.new ≡ (commanded_indexed caller (Send p) answer.old [] table.old index.old).told.answer }
    ensures table_after { table.new ≡ (commanded_indexed caller (Send p) answer.old [] table.old index.old).told.table }
    ensures index_after { index.new ≡ (commanded_indexed caller (Send p) answer.old [] table.old index.old).index }
{
    commanded(table, index, answer, caller, forms::SEND, p, 0, 0, 0)
}

// The caller sends to the pid that it finds under the name in the s_group.
#[unsafe(no_mangle)]
pub extern "C" fn sgroup_send_name_indexed(
    table: &mut [u64],
    index: &mut [u64],
    caller: u32,
    s: u32,
    n: u32,
    answer: &mut [u64],
) -> u32
    ensures value { result ≡ (commanded_indexed caller (SendName s n) answer.old [] table.old index.old).told.returned }
    ensures answer_after { answer.new ≡ (commanded_indexed caller (SendName s n) answer.old [] table.old index.old).told.answer }
    ensures table_after { table.new ≡ (commanded_indexed caller (SendName s n) answer.old [] table.old index.old).told.table }
    ensures index_after { index.new ≡ (commanded_indexed caller (SendName s n) answer.old [] table.old index.old).index }
{
    commanded(table, index, answer, caller, forms::SEND_NAME, s, n, 0, 0)
}

// The caller sends to the pid that the node finds under the name in the s_group.
#[unsafe(no_mangle)]
pub extern "C" fn sgroup_send_at_indexed(
    table: &mut [u64],
    index: &mut [u64],
    caller: u32,
    node: u32,
    s: u32,
    n: u32,
    answer: &mut [u64],
) -> u32
    ensures value { result ≡ (commanded_indexed caller (SendAt node s n) answer.old [] table.old index.old).told.returned }
    ensures answer_after { answer.new ≡ (commanded_indexed caller (SendAt node s n) answer.old [] table.old index.old).told.answer }
    ensures table_after { table.new ≡ (commanded_indexed caller (SendAt node s n) answer.old [] table.old index.old).told.table }
    ensures index_after { index.new ≡ (commanded_indexed caller (SendAt node s n) answer.old [] table.old index.old).index }
{
    commanded(table, index, answer, caller, forms::SEND_AT, node, s, n, 0)
}

// A new s_group of the set.
#[unsafe(no_mangle)]
pub extern "C" fn sgroup_new_s_group_indexed(
    table: &mut [u64],
    index: &mut [u64],
    caller: u32,
    s: u32,
    set: u64,
    answer: &mut [u64],
) -> u32
    ensures value { result ≡ (commanded_indexed caller (NewSGroup s set) answer.old [] table.old index.old).told.returned }
    ensures answer_after { answer.new ≡ (commanded_indexed caller (NewSGroup s set) answer.old [] table.old index.old).told.answer }
    ensures table_after { table.new ≡ (commanded_indexed caller (NewSGroup s set) answer.old [] table.old index.old).told.table }
    ensures index_after { index.new ≡ (commanded_indexed caller (NewSGroup s set) answer.old [] table.old index.old).index }
{
    commanded(
        table,
        index,
        answer,
        caller,
        forms::NEW_S_GROUP,
        s,
        0,
        0,
        set,
    )
}

// The set joins the s_group.
#[unsafe(no_mangle)]
pub extern "C" fn sgroup_add_nodes_indexed(
    table: &mut [u64],
    index: &mut [u64],
    caller: u32,
    s: u32,
    set: u64,
    answer: &mut [u64],
) -> u32
    ensures value { result ≡ (commanded_indexed caller (AddNodes s set) answer.old [] table.old index.old).told.returned }
    ensures answer_after { answer.new ≡ (commanded_indexed caller (AddNodes s set) answer.old [] table.old index.old).told.answer }
    ensures table_after { table.new ≡ (commanded_indexed caller (AddNodes s set) answer.old [] table.old index.old).told.table }
    ensures index_after { index.new ≡ (commanded_indexed caller (AddNodes s set) answer.old [] table.old index.old).index }
{
    commanded(table, index, answer, caller, forms::ADD_NODES, s, 0, 0, set)
}

// The members of the set leave the s_group.
#[unsafe(no_mangle)]
pub extern "C" fn sgroup_remove_nodes_indexed(
    table: &mut [u64],
    index: &mut [u64],
    caller: u32,
    s: u32,
    set: u64,
    answer: &mut [u64],
) -> u32
    ensures value { result ≡ (commanded_indexed caller (RemoveNodes s set) answer.old [] table.old index.old).told.returned }
    ensures answer_after { answer.new ≡ (commanded_indexed caller (RemoveNodes s set) answer.old [] table.old index.old).told.answer }
    ensures table_after { table.new ≡ (commanded_indexed caller (RemoveNodes s set) answer.old [] table.old index.old).told.table }
    ensures index_after { index.new ≡ (commanded_indexed caller (RemoveNodes s set) answer.old [] table.old index.old).index }
{
    commanded(
        table,
        index,
        answer,
        caller,
        forms::REMOVE_NODES,
        s,
        0,
        0,
        set,
    )
}

// The s_group goes, with its names.
#[unsafe(no_mangle)]
pub extern "C" fn sgroup_delete_s_group_indexed(
    table: &mut [u64],
    index: &mut [u64],
    caller: u32,
    s: u32,
    answer: &mut [u64],
) -> u32
    ensures value { result ≡ (commanded_indexed caller (DeleteSGroup s) answer.old [] table.old index.old).told.returned }
    ensures answer_after { answer.new ≡ (commanded_indexed caller (DeleteSGroup s) answer.old [] table.old index.old).told.answer }
    ensures table_after { table.new ≡ (commanded_indexed caller (DeleteSGroup s) answer.old [] table.old index.old).told.table }
    ensures index_after { index.new ≡ (commanded_indexed caller (DeleteSGroup s) answer.old [] table.old index.old).index }
{
    commanded(
        table,
        index,
        answer,
        caller,
        forms::DELETE_S_GROUP,
        s,
        0,
        0,
        0,
    )
}

// The nodes of the caller's groups, and how many they are.
#[unsafe(no_mangle)]
pub extern "C" fn sgroup_own_nodes_indexed(
    table: &[u64],
    index: &[u64],
    caller: u32,
    answer: &mut [u64],
) -> u32
    ensures value { result ≡ (commanded_indexed caller OwnNodes answer.old [] table.now index.now).told.returned }
    ensures answer_after { answer.new ≡ (commanded_indexed caller OwnNodes answer.old [] table.now index.now).told.answer }
{
    if answer.len() < ANSWER_WORDS {
        return NO_ROOM;
    }
    put(answer, indexed::own_nodes(table, index, caller))
}

// The caller's s_groups, name and members, to the run `out`.
#[unsafe(no_mangle)]
pub extern "C" fn sgroup_own_s_groups_indexed(
    table: &[u64],
    index: &[u64],
    caller: u32,
    out: &mut [u64],
    answer: &mut [u64],
) -> u32
    ensures value { result ≡ (commanded_indexed caller OwnSGroups answer.old out.old table.now index.now).told.returned }
    ensures answer_after { answer.new ≡ (commanded_indexed caller OwnSGroups answer.old out.old table.now index.now).told.answer }
    ensures out_after { out.new ≡ (commanded_indexed caller OwnSGroups answer.old out.old table.now index.now).told.list }
{
    if answer.len() < ANSWER_WORDS {
        return NO_ROOM;
    }
    put(answer, indexed::own_s_groups(table, index, caller, out))
}
