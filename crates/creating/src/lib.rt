// Several s_groups made one after another.
#![tactic(auto)]

ghost use Rattle.std.specs.Prelude.{◌≡◌, true, length};
ghost use Rattle.pairs.specs.Plans.{paired};
ghost use Rattle.pairs.specs.Woven.{woven};
ghost use Rattle.semantics.specs.Sizes.{names_per_group, table_words};
ghost use Rattle.semantics.specs.Test.{sound};
ghost use Rattle.creating.specs.Creating.{created};

// Makes s_groups on a sound table, one after another, each with its number and its set. The lowest member of each makes it. Two runs, and no `pairs::Plan`: they
// may be of any one length, where a plan has room for as many as a table.
pub fn create(t: &mut [u64], numbers: &[u16], sets: &[u64])
    requires t_len { length t.old ≡ table_words names_per_group }
    requires t_value { sound names_per_group t.old ≡ true }
    requires numbers_len { length numbers.now ≡ length sets.now }
    ensures { t.new ≡ created (woven (paired numbers.now sets.now)) t.old }
{
    for (number, members) in numbers.iter().zip(sets) {
        let set = *members;
        let s = u32::from(*number);
        let maker = nodes::lowest(set);
        grouping::new_s_group(t, maker, s, set);
    }
}
