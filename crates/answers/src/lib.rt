// The answers of Icespruce: a value and one reason, with the numbers and output words of document 01.
#![tactic(auto)]

ghost use Rattle.std.specs.Prelude.{◌≡◌};
ghost use Rattle.answers.specs.Answers.{number, answer_of};
ghost use Rattle.answers.specs.Outputs.{kind};
ghost use Rattle.answers.specs.declared.Value.TheVariants.{Error};
ghost use Rattle.answers.specs.declared.Reason.TheVariants.{Done};

// The value of an answer.
#[derive(Clone, Copy)]
pub enum Value {
    // opening went through
    Ok,
    True,
    False,
    Error,
    Undefined,
    Pid(u32),
    // an s_group's name and a set of nodes
    Grouped(u32, u64),
    // a set of nodes and how many they are
    Nodes(u64, u32),
    // a list stands in the lent run: how many words it has
    Listed(usize),
}

// Why, in the order of the numbers. `Done` is reason 0 of document 01, which stands beside a value as the others do: an answer has both, and is no Result.
#[derive(Clone, Copy, PartialEq, Eq)]
pub enum Reason {
    Done,
    TableLength,
    RosterSize,
    Unsound,
    CallerUnknown,
    GroupNameRange,
    NameZero,
    NodeUnknown,
    GroupUnknown,
    NotMember,
    NameTaken,
    PidTaken,
    NotRegistered,
    NamespaceFull,
    CallerOutside,
    GroupTaken,
    GroupsFull,
    RunShort,
    NoLaunchFile,
    GroupsDiffer,
    AtomUnknown,
    HostOutside,
    IndexWrong,
}

// What a call answers.
#[derive(Clone, Copy)]
pub struct Answer {
    pub value: Value,
    pub reason: Reason,
}

// A value beside a reason.
pub fn said(value: Value, reason: Reason) -> Answer
    ensures { result ≡ answer_of value reason }
{
    Answer {
        value: value,
        reason: reason,
    }
}

// The rule's main case.
pub fn done(value: Value) -> Answer
    ensures { result ≡ answer_of value Done }
{
    said(value, Reason::Done)
}

// Error, for a reason.
pub fn refused(reason: Reason) -> Answer
    ensures { result ≡ answer_of Error reason }
{
    said(Value::Error, reason)
}

// The number that document 01 gives a reason: its place in the enum. An impl of `From` would be the same cast in more lines, and no derive gives one.
pub fn number(reason: Reason) -> u32
    ensures { result ≡ number reason }
{
    reason as u32
}

// The place of a value's output word among those of document 01, from 1. An impl of `From` would hold the same match: `as` takes no enum with fields.
pub fn kind(value: Value) -> u32
    ensures { result ≡ kind value }
{
    match value {
        Value::Ok => 1,
        Value::True => 2,
        Value::False => 3,
        Value::Error => 4,
        Value::Undefined => 5,
        Value::Pid(_) => 6,
        Value::Grouped(_, _) => 7,
        Value::Nodes(_, _) => 8,
        Value::Listed(_) => 9,
    }
}
