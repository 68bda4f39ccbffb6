// The test of connections: each stays on the roster, and goes both ways. Pair by pair, or by turning the words about their diagonal. The loops gather, as in
// `free_test`, and go by an index, which is the number of a node or of a row.
#![tactic(auto)]

ghost use Rattle.std.specs.Prelude.{◌≡◌, ◌+◌, ◌≤◌, ◌<◌, length};
ghost use Rattle.nodes.specs.Sets.{node_limit, empty};
ghost use Rattle.free_test.specs.WireTests.{all_below, own_linked, both_ways, own_mutual, links_sound};
ghost use Rattle.links_test.specs.Exchange.{unit_rows, Half, Within, crossing, lower, upper, Exchanged};
ghost use Rattle.links_test.specs.Turning.{units, UnitTurned, TurnedBelow, units_mutual};

use free_test::{NODE_WORDS, all_zero};
use nodes::{NODE_LIMIT, roster};

// So many words are turned at a time: as many as stay in registers.
const UNIT: usize = 8;

// So many units there are.
const UNITS: usize = NODE_WORDS / UNIT;

// From so many nodes on it is quicker to turn all the words than to compare pair by pair.
const TURNED_FROM: u32 = 16;

// The columns whose place 1, 2, 4, 8, 16 or 32 is 0.
const EVENS: u64 = 0x5555_5555_5555_5555;

const PAIRS: u64 = 0x3333_3333_3333_3333;

const FOURS: u64 = 0x0f0f_0f0f_0f0f_0f0f;

const EIGHTS: u64 = 0x00ff_00ff_00ff_00ff;

const SIXTEENS: u64 = 0x0000_ffff_0000_ffff;

const LOW_HALF: u64 = 0x0000_0000_ffff_ffff;

// Whether the connections of each of the first n nodes are among those nodes, without the node itself.
fn own_linked(links: &[u64; NODE_WORDS], n: u32) -> bool
    requires { n ≤ node_limit }
    ensures { result ≡ own_linked links.now n }
{
    let outside = !roster(n);
    let mut off: u64 = 0;
    for i in 0..n as usize {
        off |= links[i] & (outside | (1 << i));
    }
    off == 0
}

// Whether the connections between node i and each node below it are mutual: they are where the lowest digit of every difference is 0.
fn row_mutual(links: &[u64; NODE_WORDS], i: usize) -> bool
    requires { i < node_limit }
    ensures { result ≡ all_below i (both_ways links.now i) }
{
    let word = links[i];
    let mut off: u64 = 0;
    for j in 0..i {
        off |= (word >> j) ^ (links[j] >> i);
    }
    off % 2 == 0
}

// Whether the connections between the first n nodes are mutual, pair by pair.
fn pairs_mutual(links: &[u64; NODE_WORDS], n: usize) -> bool
    requires { n ≤ node_limit }
    ensures { result ≡ own_mutual links.now n }
{
    let mut all = true;
    for i in 0..n {
        all &= row_mutual(links, i);
    }
    all
}

// The digits in which two rows, of which the second is j further on, change sides in a round at the place j. mask has the columns whose place j is 0. That j is
// below 64 is asked of the three that shift by it: `exchange` has it of `Half`, and a struct of j alone would only wrap it.
fn crossing(x: u64, y: u64, j: u32, mask: u64) -> u64
    requires { j < node_limit }
    ensures { result ≡ crossing j mask x y }
{
    ((x >> j) ^ y) & mask
}

// What a round at the place j makes of the first of two rows.
fn lower(x: u64, y: u64, j: u32, mask: u64) -> u64
    requires { j < node_limit }
    ensures { result ≡ lower j mask x y }
{
    x ^ (crossing(x, y, j, mask) << j)
}

// What it makes of the second.
fn upper(x: u64, y: u64, j: u32, mask: u64) -> u64
    requires { j < node_limit }
    ensures { result ≡ upper j mask x y }
{
    y ^ crossing(x, y, j, mask)
}

// One round of turning the digits of a unit's rows: the place `apart` of the row's number and the place j of the column's change sides.
fn exchange(rows: &mut [u64; UNIT], apart: usize, j: u32, mask: u64)
    requires { (0 < apart) × (Within apart) × (Half j mask) }
    ensures { Exchanged apart j rows.old rows.new }
{
    for k in 0..UNIT / 2 {
        let r = k / apart * (2 * apart) + k % apart;
        let x = rows[r];
        let y = rows[r + apart];
        rows[r] = lower(x, y, j, mask);
        rows[r + apart] = upper(x, y, j, mask);
    }
}

// Turns the 8 rows from start on, each 8 columns by themselves, and writes them to the same place. They are read and written one by one: they stand in registers
// (docs/DECISIONS.md, "Turning connections"), and no copy of them does.
fn turn_unit(links: &[u64; NODE_WORDS], start: usize, turned: &mut [u64; NODE_WORDS])
    requires { start + unit_rows ≤ node_limit }
    ensures { UnitTurned start links.now turned.old turned.new }
{
    let mut rows = [0u64; UNIT];
    for k in 0..UNIT {
        rows[k] = links[start + k];
    }
    exchange(&mut rows, 4, 4, FOURS);
    exchange(&mut rows, 2, 2, PAIRS);
    exchange(&mut rows, 1, 1, EVENS);
    for k in 0..UNIT {
        turned[start + k] = rows[k];
    }
}

// What differs between the connections of the nodes k, 8 + k, 16 + k and so on and their columns, where the units are turned: the rounds at 32, 16 and 8.
fn off_by_units(links: &[u64; NODE_WORDS], turned: &[u64; NODE_WORDS], k: usize) -> u64
    requires { (k < unit_rows) × (TurnedBelow units links.now turned.now) }
    ensures { empty result ≡ units_mutual links.now k }
{
    let mut rows = [0u64; UNIT];
    for u in 0..UNITS {
        rows[u] = turned[UNIT * u + k];
    }
    exchange(&mut rows, 4, 32, LOW_HALF);
    exchange(&mut rows, 2, 16, SIXTEENS);
    exchange(&mut rows, 1, 8, EIGHTS);
    let mut off: u64 = 0;
    for u in 0..UNITS {
        off |= rows[u] ^ links[UNIT * u + k];
    }
    off
}

// Whether the connections between all 64 nodes are mutual: turned about the diagonal, the words are the same.
fn turned_mutual(links: &[u64; NODE_WORDS]) -> bool
    ensures { result ≡ own_mutual links.now node_limit }
{
    let mut turned = [0u64; NODE_WORDS];
    for u in 0..UNITS {
        turn_unit(links, UNIT * u, &mut turned);
    }
    let mut off: u64 = 0;
    for k in 0..UNIT {
        off |= off_by_units(links, &turned, k);
    }
    off == 0
}

// Whether the connections are those of n nodes: among them, none to itself, mutual.
pub fn links_sound(links: &[u64], n: u32) -> bool
    ensures { result ≡ links_sound links.now n }
{
    let Some(links) = links.as_array::<NODE_WORDS>() else {
        return false;
    };
    if n > NODE_LIMIT {
        return false;
    }
    let size = n as usize;
    let own = own_linked(links, n) & all_zero(&links[size..]);
    if n < TURNED_FROM {
        own & pairs_mutual(links, size)
    } else {
        own & turned_mutual(links)
    }
}
