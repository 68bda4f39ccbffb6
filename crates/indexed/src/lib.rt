// Calls on a table with an index beside it: opening and the fifteen commands, which keep it, reading by pid, and writing the index of a table that has none.
// Table and index come apart, as C gives them, and neither is known to be one before it is tested.
#![tactic(auto)]

ghost use Rattle.std.specs.Prelude.{◌≡◌, List, ℕ, length};
ghost use Rattle.commands.specs.declared.Command.TheVariants.{RegisteredNames, WhereisName, OwnNodes, OwnSGroups};
ghost use Rattle.semantics.specs.Sizes.{names_per_group, index_words};
ghost use Rattle.semantics.specs.Test.{same};
ghost use Rattle.indexes.specs.Index.{index_of_table};
ghost use Rattle.semantics.specs.FirstReason.{first};
ghost use Rattle.inputs.specs.Judge.{checked};
ghost use Rattle.semantics.specs.Call.{listed_over};
ghost use Rattle.indexes.specs.IndexCalls.{no_index, indexed, opened, written, read};

use answers::{Answer, Reason, Value, done, refused};
use commands::Command;
use index_test::is_index;
use layout::{INDEX_WORDS, NODE_LIMIT, TABLE_WORDS};
use sound_table::SoundTable;
use table::check;

// Whether the run is the index of the table, which is sound. It is called from two places, so that what it keeps on the stack is not there while the table
// is tested; and it hands on parts that are the whole, since slices that are handed on as they are would stay in its callers' frames.
fn is_right(table: SoundTable<'_>, index: &[u64]) -> bool
    ensures { result ≡ same index.now (index_of_table names_per_group table.entry.words.now) }
{
    if index.len() == INDEX_WORDS {
        return is_index(
            SoundTable {
                words: &table.words[0..],
            },
            &index[0..],
        );
    }
    false
}

// The runs are a sound table and its index.
fn check_index(table: &[u64], index: &[u64]) -> Result<(), Reason>
    ensures { result ≡ checked (first (no_index table.now index.now)) }
{
    check(table)?;
    if is_right(SoundTable { words: table }, index) {
        return Ok(());
    }
    Err(Reason::IndexWrong)
}

// What the caller's command answers on the table; a list goes to the front of `out`, and the index is kept.
pub fn call(
    table: &mut [u64],
    index: &mut [u64],
    out: &mut [u64],
    caller: u32,
    command: Command,
) -> Answer
    ensures value { result ≡ (indexed (length out.old) caller command table.old index.old).given.answer }
    ensures table_after { table.new ≡ (indexed (length out.old) caller command table.old index.old).given.table }
    ensures index_after { index.new ≡ (indexed (length out.old) caller command table.old index.old).index }
    ensures out_after { out.new ≡ listed_over (indexed (length out.old) caller command table.old index.old).given.list out.old }
{
    if let Err(reason) = check(table) {
        return refused(reason);
    }
    if is_right(SoundTable { words: table }, index) {
        return indexing::step(table, index, out, caller, command);
    }
    refused(Reason::IndexWrong)
}

// The refusal of an opening whose run for the index has not an index's length: reasons 1 and 2 stand before. Their tests are made here too, since
// `opening::open` would open the table where neither holds.
fn misfit(table: &[u64], n: u32) -> Answer
    ensures { (hidden : ℕ) (x : List ℕ) → (length x ≡ index_words names_per_group → ⊥) → result ≡ (opened n hidden table.now x).given.answer }
{
    if table.len() != TABLE_WORDS {
        return refused(Reason::TableLength);
    }
    if n < 1 || NODE_LIMIT < n as usize {
        return refused(Reason::RosterSize);
    }
    refused(Reason::IndexWrong)
}

// Opens the table for n nodes, some of them hidden; every word of the index becomes zero.
pub fn open(table: &mut [u64], index: &mut [u64], n: u32, hidden: u64) -> Answer
    ensures value { result ≡ (opened n hidden table.old index.old).given.answer }
    ensures table_after { table.new ≡ (opened n hidden table.old index.old).given.table }
    ensures index_after { index.new ≡ (opened n hidden table.old index.old).index }
{
    if index.len() != INDEX_WORDS {
        return misfit(table, n);
    }
    let answer = opening::open(table, n, hidden);
    if answer.reason == Reason::Done {
        moves::clear(index);
    }
    answer
}

// Writes the index of the table.
pub fn write(table: &[u64], index: &mut [u64]) -> Answer
    ensures value { result ≡ (written table.now index.old).given.answer }
    ensures index_after { index.new ≡ (written table.now index.old).index }
{
    if let Err(reason) = check(table) {
        return refused(reason);
    }
    if index.len() != INDEX_WORDS {
        return refused(Reason::IndexWrong);
    }
    index_writing::write(SoundTable { words: table }, index);
    done(Value::Ok)
}

// S_group and name of each row of the pid, as a list in the run.
pub fn names_of(table: &[u64], index: &[u64], p: u32, out: &mut [u64]) -> Answer
    ensures value { result ≡ (read (length out.old) p table.now index.now).answer }
    ensures out_after { out.new ≡ listed_over (read (length out.old) p table.now index.now).list out.old }
{
    if let Err(reason) = check_index(table, index) {
        return refused(reason);
    }
    index_reading::names_of(SoundTable { words: table }, index, p, out)
}

// ---- the commands that only read: a caller may hold a table that it cannot lend for writing, as a const one of C
// Each tests table and index by itself, and takes its arguments side by side, for the reasons that stand at those of `sgroup`.

// The names of the s_group, listed in the run.
pub fn registered_names(
    table: &[u64],
    index: &[u64],
    caller: u32,
    s: u32,
    out: &mut [u64],
) -> Answer
    ensures value { result ≡ (indexed (length out.old) caller (RegisteredNames s) table.now index.now).given.answer }
    ensures out_after { out.new ≡ listed_over (indexed (length out.old) caller (RegisteredNames s) table.now index.now).given.list out.old }
{
    if let Err(reason) = check_index(table, index) {
        return refused(reason);
    }
    reading::registered_names(SoundTable { words: table }, caller, s, out)
}

// What the caller finds under the name in the s_group.
pub fn whereis_name(table: &[u64], index: &[u64], caller: u32, s: u32, n: u32) -> Answer
    ensures { result ≡ (indexed 0 caller (WhereisName s n) table.now index.now).given.answer }
{
    if let Err(reason) = check_index(table, index) {
        return refused(reason);
    }
    reading::whereis_name(SoundTable { words: table }, caller, s, n)
}

// The nodes of the caller's groups, and how many they are.
pub fn own_nodes(table: &[u64], index: &[u64], caller: u32) -> Answer
    ensures { result ≡ (indexed 0 caller OwnNodes table.now index.now).given.answer }
{
    if let Err(reason) = check_index(table, index) {
        return refused(reason);
    }
    own::own_nodes(SoundTable { words: table }, caller)
}

// The caller's s_groups, name and members of each, listed in the run.
pub fn own_s_groups(table: &[u64], index: &[u64], caller: u32, out: &mut [u64]) -> Answer
    ensures value { result ≡ (indexed (length out.old) caller OwnSGroups table.now index.now).given.answer }
    ensures out_after { out.new ≡ listed_over (indexed (length out.old) caller OwnSGroups table.now index.now).given.list out.old }
{
    if let Err(reason) = check_index(table, index) {
        return refused(reason);
    }
    own::own_s_groups(SoundTable { words: table }, caller, out)
}
