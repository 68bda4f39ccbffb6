// What a command does to a sound table, and what its ends are: laws alone, in specs/.
#![tactic(auto)]
