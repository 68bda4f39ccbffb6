// The bodies of s_groups, moved along a lent run of words by one body.
#![tactic(auto)]

ghost use Rattle.std.specs.Prelude.{◌≡◌};
ghost use Rattle.moves.specs.Moves.{put_first, drop_first};
ghost use Rattle.semantics.specs.Sizes.{names_per_group};

use layout::NAMES_PER_GROUP;

// The bodies move up by one, the last falls out, and one of zeros comes first.
pub fn put_body(run: &mut [u64])
    ensures { run.new ≡ put_first names_per_group 0 run.old }
{
    moves::move_up::<NAMES_PER_GROUP>(run, 0);
}

// The first body falls out, the others move down by one, and one of zeros comes last.
pub fn drop_body(run: &mut [u64])
    ensures { run.new ≡ drop_first names_per_group run.old }
{
    moves::move_down::<NAMES_PER_GROUP>(run);
}
