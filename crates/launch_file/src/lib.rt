// Reading a whole launch file: the pairs of the file and of its kernel entry, the list of groups, the full stop. The text and the place are two parameters, as
// in `tokens`; `reader` has both in a struct, for messages. So are `own`, the key that a list has to hold, and `found`, whether it has been: a loop has one
// `own` for all its pairs, and knows `found`.
#![tactic(auto)]

ghost use Rattle.std.specs.Prelude.{Ok, ◌≡◌, true, cond, ℕ};
ghost use Rattle.grammar.specs.File.{comma, sign, atom, key, first_pair, next_pair, value, taken, outcome};
ghost use Rattle.walk.specs.Walk.{then_sign};
ghost use Rattle.walk.specs.Groups.{groups, pass_groups};
ghost use Rattle.launch_file.specs.Reading.{own_pair, ending_at, from_groups, fronted, read_as, RestRead, IsAnyList, list_of, PairRead, ToOwn, ToEnd};
ghost use Rattle.launch_file.specs.Lists.{list_closed};

use tokens::past_white;
use walk::{Entry, entry_at, sign_at};

// A pair of a list: the own one of that list, and the place behind the bracket of its entry; another one, and the place behind it; or the end of the list, and
// the place behind that. Three things, so no Option and no Result.
#[derive(Clone, Copy)]
enum Pair {
    Own(usize),
    Other(usize),
    Closed(usize),
}

// The own pair of a list, behind its key, which ends at a place: it stands there once.
#[tactic(auto, unfolding(crate::specs::Reading::own_pair))]
fn own_pair(text: &[u8], at: usize, end: usize, found: bool) -> Result<Pair, usize>
    ensures { result ≡ own_pair text.now at end found }
{
    if found {
        return Err(end);
    }
    Ok(Pair::Own(sign_at(text, sign_at(text, at, b',')?, b'[')?))
}

// Any other pair, behind its key: its value is skipped.
fn other_pair(text: &[u8], at: usize, found: bool) -> Result<Pair, usize>
    ensures { PairRead IsAnyList (sign comma value) text.now at found result }
{
    let value = sign_at(text, at, b',')?;
    let past = values::skip_value(text, value)?;
    Ok(Pair::Other(sign_at(text, past, b'}')?))
}

// A pair, behind its bracket, in a list with this own key.
fn pair_at(text: &[u8], at: usize, own: &[u8], found: bool) -> Result<Pair, usize>
    ensures { PairRead (list_of own.now found) (atom key) text.now at found result }
{
    let name = walk::atom_at(text, at)?;
    if &text[name.from..name.to] == own {
        return own_pair(text, name.past, name.to, found);
    }
    other_pair(text, name.past, found)
}

// What stands at a place of a list of pairs, behind its bracket or, once it has begun, behind a pair. The list ends behind its own pair alone. Parts that are the
// whole are handed on: see `tokens::token_at`.
fn next_pair(text: &[u8], at: usize, begun: bool, own: &[u8], found: bool) -> Result<Pair, usize>
    ensures { PairRead (list_of own.now found) (cond begun next_pair first_pair) text.now at found result }
{
    match entry_at(&text[0..], at, begun)? {
        Entry::Group(n) => pair_at(&text[0..], n, &own[0..], found),
        Entry::Closed(n) if found => Ok(Pair::Closed(n)),
        Entry::Closed(n) => Err(n - 1),
    }
}

// From behind the bracket of a list with this own key: the place behind the bracket of its own entry, or where it stops. The list
// does not end in front of its own pair. A loop by a place: each pair says where the next one stands, and the answer is the place where it ends or stops.
#[tactic(auto, using(crate::proofs::Steps::own_steps))]
fn to_own(text: &[u8], at: usize, own: &[u8]) -> Result<usize, usize>
    ensures { ToOwn own.now text.now at result }
{
    let mut j = at;
    let mut begun = false;
    loop {
        match next_pair(text, j, begun, own, false)? {
            Pair::Own(n) => return Ok(n),
            Pair::Closed(n) => return Err(n),
            Pair::Other(n) => {
                j = n;
                begun = true;
            }
        }
    }
}

// From behind the own pair of a list with this own key: the place behind the list, or where it stops. The own pair does not stand
// there again. A loop by a place, as in `to_own`.
#[tactic(auto, using(crate::proofs::Steps::end_steps))]
fn to_end(text: &[u8], at: usize, own: &[u8]) -> Result<usize, usize>
    ensures { ToEnd own.now text.now at result }
{
    let mut j = at;
    loop {
        match next_pair(text, j, true, own, true)? {
            Pair::Own(n) => return Err(n),
            Pair::Closed(n) => return Ok(n),
            Pair::Other(n) => j = n,
        }
    }
}

// The full stop, behind which there is white space alone, of a file with its groups at g.
#[tactic(auto, unfolding(crate::specs::Reading::ending_at))]
fn ending(text: &[u8], at: usize, g: usize) -> Result<usize, usize>
    ensures { result ≡ ending_at text.now at g }
{
    let n = sign_at(text, at, b'.')?;
    let i = past_white(text, n);
    if i < text.len() {
        return Err(i);
    }
    Ok(g)
}

// The front of a file: the place behind the bracket of its groups, or where it is refused.
pub fn front(text: &[u8]) -> Result<usize, usize>
    ensures { outcome text.now ≡ fronted text.now result }
{
    let pairs = sign_at(text, 0, b'[')?;
    let entry = to_own(text, pairs, b"kernel")?;
    to_own(text, entry, b"s_groups")
}

// The rest of a file whose groups begin at g: that place where it is one to its end, or where it is refused.
pub fn rest(text: &[u8], g: usize) -> Result<usize, usize>
    ensures { RestRead text.now g result }
{
    let groups = sign_at(text, walk::pass_groups(text, g)?, b'}')?;
    let entry = sign_at(text, to_end(text, groups, b"s_groups")?, b'}')?;
    ending(text, to_end(text, entry, b"kernel")?, g)
}

// The place behind the list that ends with the pair whose bracket is to close at a place.
fn list_closed(text: &[u8], at: usize) -> Result<usize, usize>
    ensures { result ≡ list_closed text.now (Ok at) }
{
    sign_at(text, sign_at(text, at, b'}')?, b']')
}

// The place behind the full stop of a file that ends at once behind its groups, whose list ends at a place.
fn ended(text: &[u8], at: usize) -> Result<usize, usize>
    ensures { result ≡ then_sign text.now (list_closed text.now (list_closed text.now (Ok at))) 46 }
{
    let whole = list_closed(text, list_closed(text, at)?)?;
    sign_at(text, whole, b'.')
}

// Whether a file ends at once behind its groups, whose list ends at a place.
#[tactic(auto, using(crate::proofs::Steps::ends_steps))]
pub fn ends(text: &[u8], at: usize) -> bool
    ensures { (g : ℕ) → pass_groups text.now g ≡ Ok at → result ≡ true → from_groups text.now g ≡ taken (groups text.now g) }
{
    match ended(text, at) {
        Ok(n) => text.len() <= past_white(text, n),
        Err(_) => false,
    }
}

// Whether a text is a launch file: the place behind the bracket of its groups, or where it is refused.
pub fn read(text: &[u8]) -> Result<usize, usize>
    ensures { outcome text.now ≡ read_as text.now result }
{
    rest(text, front(text)?)
}
