// Where the s_group of a name stands in a table, and for whom it is open.
#![tactic(auto)]

ghost use Rattle.std.specs.Prelude.{◌≡◌};
ghost use Rattle.semantics.specs.Sizes.{names_per_group};
ghost use Rattle.semantics.specs.Table.{state_of};
ghost use Rattle.place.specs.Place.{place_in, place_of, place_for};

use answers::Reason;
use layout::group_name;
use sound_table::SoundTable;

// The place of the name among contents words, which ascend by name: where it stands, or where it would be put. Not by `binary_search`: `place_in` of
// place/Place is promised at every content, and what the library promises is of runs in order.
fn place_in(contents: &[u64], s: u32) -> Result<usize, usize>
    ensures { result ≡ place_in 0 s contents.now }
{
    let name = s as u64;
    for (i, word) in contents.iter().enumerate() {
        let other = group_name(*word);
        if name <= other {
            return if other == name { Ok(i) } else { Err(i) };
        }
    }
    Err(contents.len())
}

// The place of the s_group: where it stands, or where it would be put.
pub fn place_of(t: SoundTable<'_>, s: u32) -> Result<usize, usize>
    ensures { result ≡ place_of s (state_of names_per_group t.entry.words.now).groups }
{
    place_in(t.contents(), s)
}

// The place of the s_group for a node that is in it, or why the node has none of the name.
pub fn place_for(t: SoundTable<'_>, node: u32, s: u32) -> Result<usize, Reason>
    ensures { result ≡ place_for node s (state_of names_per_group t.entry.words.now).groups }
{
    let at = place_of(t, s).map_err(|_| Reason::GroupUnknown)?;
    if nodes::has(t.members()[at], node) {
        return Ok(at);
    }
    Err(Reason::NotMember)
}
