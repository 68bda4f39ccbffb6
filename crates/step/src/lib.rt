// One command on a sound table.
#![tactic(auto)]

ghost use Rattle.std.specs.Prelude.{◌≡◌, true, length};
ghost use Rattle.semantics.specs.Sizes.{names_per_group, table_words};
ghost use Rattle.semantics.specs.Test.{sound};
ghost use Rattle.semantics.specs.Call.{call, listed_over};

use answers::Answer;
use commands::Command;
use sound_table::SoundTable;

// What the caller's command answers; a list goes to the front of `out`.
// One arm a command: the steps take other arguments each, so that a table of them is no plainer.
pub fn step(t: &mut [u64], out: &mut [u64], caller: u32, command: Command) -> Answer
    requires t_len { length t.old ≡ table_words names_per_group }
    requires t_value { sound names_per_group t.old ≡ true }
    ensures value { result ≡ (call (length out.old) caller command t.old).answer }
    ensures t_after { t.new ≡ (call (length out.old) caller command t.old).table }
    ensures out_after { out.new ≡ listed_over (call (length out.old) caller command t.old).list out.old }
{
    match command {
        Command::RegisterName { s, n, p } => naming::register_name(t, caller, s, n, p),
        Command::ReRegisterName { s, n, p } => naming::re_register_name(t, caller, s, n, p),
        Command::UnregisterName { s, n } => naming::unregister_name(t, caller, s, n),
        Command::RegisteredNames { s } => reading::registered_names(
            SoundTable { words: t },
            caller,
            s,
            out,
        ),
        Command::WhereisName { s, n } => reading::whereis_name(
            SoundTable { words: t },
            caller,
            s,
            n,
        ),
        Command::WhereisNameAt { node, s, n } => reaching::whereis_name_at(t, caller, node, s, n),
        Command::Send { p } => reaching::send(t, caller, p),
        Command::SendName { s, n } => reaching::send_name(t, caller, s, n),
        Command::SendAt { node, s, n } => reaching::send_at(t, caller, node, s, n),
        Command::NewSGroup { s, set } => grouping::new_s_group(t, caller, s, set),
        Command::AddNodes { s, set } => grouping::add_nodes(t, caller, s, set),
        Command::RemoveNodes { s, set } => grouping::remove_nodes(t, caller, s, set),
        Command::DeleteSGroup { s } => grouping::delete_s_group(t, caller, s),
        Command::OwnNodes => own::own_nodes(SoundTable { words: t }, caller),
        Command::OwnSGroups => own::own_s_groups(SoundTable { words: t }, caller, out),
    }
}
