// The s_groups that a launch is to make, and the list of words that they are: see specs/.
#![tactic(auto)]

ghost use Rattle.std.specs.Prelude.{◌≡◌, ◌<◌, ◌≤◌, length, take, set, get_or, replicate};
ghost use Rattle.semantics.specs.Sizes.{group_limit};
ghost use Rattle.pairs.specs.Plans.{made_of, holds, seen, numbers_of, sets_of};

use layout::GROUP_LIMIT;
use std::marker::Model;

// An s_group that is to be made: its number and its set of nodes.
#[derive(Clone, Copy)]
pub struct Made {
    pub number: u16,
    pub set: u64,
}

// Room for as many as a table can have, numbers and sets in runs of their own: together they take 320 bytes of stack, where a run of `Made` takes 512 and a
// launch would need more than it may.
#[derive(Drop)]
pub struct Plan {
    numbers: [u16; GROUP_LIMIT],
    sets: [u64; GROUP_LIMIT],
}

impl Model for Plan {
    ghost use Rattle.std.specs.Prelude.{List};
    ghost use Rattle.pairs.specs.declared.Made.{Made};

    ghost Value = { List Made };

    ghost use Rattle.pairs.specs.Plans.{paired};

    ghost view = { λ p. paired p.numbers p.sets };
}

// Whether a number is one of these. It looks at all of them, without a branch, as `search::has_pid` does.
fn among(numbers: &[u16], number: u16) -> bool
    ensures { result ≡ holds numbers.now number }
{
    let mut held = false;
    for other in numbers {
        held |= *other == number;
    }
    held
}

// A place and a count of places have one bound each, which a type for either would not say more plainly. The count comes beside the plan, in `gathering` and
// `launch` too: `plan::fitted` counts on past the room, since of more s_groups than there is room for it tells that they are too many.
impl Plan {
    // A plan that nothing was written to.
    pub fn new() -> Self
        ensures { result ≡ replicate group_limit (made_of 0 0) }
    {
        Plan {
            numbers: [0; GROUP_LIMIT],
            sets: [0; GROUP_LIMIT],
        }
    }

    // The s_group at a place is this one.
    pub fn put(&mut self, at: usize, group: Made)
        requires { at < group_limit }
        ensures room { length self.old ≡ group_limit }
        ensures written { self.new ≡ set self.old at group }
    {
        self.numbers[at] = group.number;
        self.sets[at] = group.set;
    }

    // The s_group at a place.
    pub fn get(&self, at: usize) -> Made
        requires { at < group_limit }
        ensures room { length self.now ≡ group_limit }
        ensures value { result ≡ get_or self.now at (made_of 0 0) }
    {
        Made {
            number: self.numbers[at],
            set: self.sets[at],
        }
    }

    // Whether one of the first `count` has a number.
    pub fn has(&self, count: usize, number: u16) -> bool
        requires { count ≤ group_limit }
        ensures { result ≡ seen (take count self.now) number }
    {
        among(&self.numbers[..count], number)
    }

    // The numbers of the first `count`.
    pub fn numbers(&self, count: usize) -> &[u16]
        requires { count ≤ group_limit }
        ensures { result.now ≡ numbers_of (take count self.now) }
    {
        &self.numbers[..count]
    }

    // Their sets.
    pub fn sets(&self, count: usize) -> &[u64]
        requires { count ≤ group_limit }
        ensures { result.now ≡ sets_of (take count self.now) }
    {
        &self.sets[..count]
    }
}
