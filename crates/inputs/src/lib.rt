// What speaks against a command before an s_group is looked at: reasons 4 to 7, and 14 to 16 of new_s_group, as errors. A command's arguments stand side by
// side, here and in its step, as the functions for C take them: `Command` holds them together up to `step`, and each command has others. `size` is the table's,
// not the command's.
#![tactic(auto)]

ghost use Rattle.std.specs.Prelude.{◌≡◌};
ghost use Rattle.inputs.specs.Judge.{checked, caller_reason, group_reason, name_reason, pid_reason, set_reason, asking_reason, host_reason, creation_reason};

use answers::Reason;
use entries::host_of;
use layout::{GROUP_LIMIT, GROUP_NAMES};

// The caller is on the roster.
pub fn check_caller(size: u32, caller: u32) -> Result<(), Reason>
    ensures { result ≡ checked (caller_reason size caller) }
{
    if size <= caller {
        return Err(Reason::CallerUnknown);
    }
    Ok(())
}

// That, and the s_group's name is in range.
pub fn check_group(size: u32, caller: u32, s: u32) -> Result<(), Reason>
    ensures { result ≡ checked (group_reason size caller s) }
{
    check_caller(size, caller)?;
    if s == 0 || GROUP_NAMES <= s as u64 {
        return Err(Reason::GroupNameRange);
    }
    Ok(())
}

// That, and the process name is not zero.
pub fn check_name(size: u32, caller: u32, s: u32, n: u32) -> Result<(), Reason>
    ensures { result ≡ checked (name_reason size caller s n) }
{
    check_group(size, caller, s)?;
    if n == 0 {
        return Err(Reason::NameZero);
    }
    Ok(())
}

// That, and the pid's host is on the roster.
pub fn check_pid(size: u32, caller: u32, s: u32, n: u32, p: u32) -> Result<(), Reason>
    ensures { result ≡ checked (pid_reason size caller s n p) }
{
    check_name(size, caller, s, n)?;
    if size <= host_of(p) {
        return Err(Reason::NodeUnknown);
    }
    Ok(())
}

// The caller is on the roster, the s_group's name in range, and all nodes of the set are on the roster.
pub fn check_set(size: u32, caller: u32, s: u32, set: u64) -> Result<(), Reason>
    ensures { result ≡ checked (set_reason size caller s set) }
{
    check_group(size, caller, s)?;
    if nodes::beyond(set, size) {
        return Err(Reason::NodeUnknown);
    }
    Ok(())
}

// That, and the set has the caller, there is no s_group of the name, and one more has room.
pub fn check_creation(
    size: u32,
    count: usize,
    caller: u32,
    s: u32,
    set: u64,
    taken: bool,
) -> Result<(), Reason>
    ensures { result ≡ checked (creation_reason size count caller s set taken) }
{
    check_set(size, caller, s, set)?;
    if !nodes::has(set, caller) {
        return Err(Reason::CallerOutside);
    }
    if taken {
        return Err(Reason::GroupTaken);
    }
    if GROUP_LIMIT <= count {
        return Err(Reason::GroupsFull);
    }
    Ok(())
}

// A lookup by another node: the caller is on the roster, the s_group's name is in range or zero, the process name is not zero, and the
// node is on the roster.
pub fn check_asking(size: u32, caller: u32, node: u32, s: u32, n: u32) -> Result<(), Reason>
    ensures { result ≡ checked (asking_reason size caller node s n) }
{
    check_caller(size, caller)?;
    if GROUP_NAMES <= s as u64 {
        return Err(Reason::GroupNameRange);
    }
    if n == 0 {
        return Err(Reason::NameZero);
    }
    if size <= node {
        return Err(Reason::NodeUnknown);
    }
    Ok(())
}

// The caller and the pid's host are on the roster.
pub fn check_host(size: u32, caller: u32, p: u32) -> Result<(), Reason>
    ensures { result ≡ checked (host_reason size caller p) }
{
    check_caller(size, caller)?;
    if size <= host_of(p) {
        return Err(Reason::NodeUnknown);
    }
    Ok(())
}
