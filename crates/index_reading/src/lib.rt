// Reading by pid in the index of a sound table.
#![tactic(auto)]

ghost use Rattle.std.specs.Prelude.{◌≡◌, ◌++◌, ◌+◌, ◌*◌, ◌≤◌, length, drop};
ghost use Rattle.semantics.specs.Sizes.{names_per_group, row_words};
ghost use Rattle.semantics.specs.Call.{listed_over};
ghost use Rattle.indexes.specs.Index.{named, index_of_table};
ghost use Rattle.index_rows.specs.Arrays.{as_rows};
ghost use Rattle.indexes.specs.IndexCalls.{read};

use answers::{Answer, Reason, Value, done, refused};
use entries::host_of;
use index_rows::rank;
use index_test::names_total;
use indexes::{group_of, key_of};
use layout::{GROUP_NAMES, ROW_WORDS};
use sound_table::SoundTable;

// S_group and name of each row, to the front of the run. By an index into `out`, as in `namespace::list_names`.
fn list_rows(rows: &[[u64; ROW_WORDS]], out: &mut [u64])
    requires { row_words * length rows.now ≤ length out.old }
    ensures { out.new ≡ named (as_rows rows.now) ++ drop (row_words * length rows.now) out.old }
{
    for (k, [key, name]) in rows.iter().enumerate() {
        let at = ROW_WORDS * k;
        out[at] = group_of(*key) as u64;
        out[at + 1] = *name;
    }
}

// S_group and name of each row of the pid, as a list in the run, where it has room. The rows are found by halves.
pub fn names_of(t: SoundTable<'_>, index: &[u64], p: u32, out: &mut [u64]) -> Answer
    requires index_value { index.now ≡ index_of_table names_per_group t.words.now }
    ensures value { result ≡ (read (length out.old) p t.entry.words.now index.now).answer }
    ensures out_after { out.new ≡ listed_over (read (length out.old) p t.entry.words.now index.now).list out.old }
{
    if t.size() <= host_of(p) {
        return refused(Reason::NodeUnknown);
    }
    let rows = index_rows::rows(index, names_total(t));
    let key = key_of(p, 0);
    let from = rank(rows, key);
    let to = rank(rows, key + GROUP_NAMES);
    let own = &rows[from..to];
    let words = ROW_WORDS * own.len();
    if out.len() < words {
        return refused(Reason::RunShort);
    }
    list_rows(own, out);
    done(Value::Listed(words))
}
