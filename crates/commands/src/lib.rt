// The fifteen commands in document 01's order: s is an s_group, n a process name, p a pid, node the node that is asked, set a set of nodes.
#![tactic(auto)]

#[derive(Clone, Copy)]
pub enum Command {
    RegisterName { s: u32, n: u32, p: u32 },
    ReRegisterName { s: u32, n: u32, p: u32 },
    UnregisterName { s: u32, n: u32 },
    RegisteredNames { s: u32 },
    WhereisName { s: u32, n: u32 },
    WhereisNameAt { node: u32, s: u32, n: u32 },
    Send { p: u32 },
    SendName { s: u32, n: u32 },
    SendAt { node: u32, s: u32, n: u32 },
    NewSGroup { s: u32, set: u64 },
    AddNodes { s: u32, set: u64 },
    RemoveNodes { s: u32, set: u64 },
    DeleteSGroup { s: u32 },
    OwnNodes,
    OwnSGroups,
}
