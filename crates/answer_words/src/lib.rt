// An answer as four words in a lent run.
#![tactic(auto)]

ghost use Rattle.std.specs.Prelude.{◌≡◌, ◌++◌, ◌≤◌, length, drop};
ghost use Rattle.answers.specs.Answers.{number};
ghost use Rattle.answer_words.specs.AnswerWords.{answer_words, first, second, answer_in};

use answers::{Answer, Value};

// The first number of a value.
fn first(value: Value) -> u64
    ensures { result ≡ first value }
{
    match value {
        Value::Pid(pid) => pid as u64,
        Value::Grouped(name, _) => name as u64,
        Value::Nodes(set, _) => set,
        Value::Listed(count) => count as u64,
        Value::Ok | Value::True | Value::False | Value::Error | Value::Undefined => 0,
    }
}

// The second number of a value.
fn second(value: Value) -> u64
    ensures { result ≡ second value }
{
    match value {
        Value::Grouped(_, set) => set,
        Value::Nodes(_, count) => count as u64,
        Value::Ok
        | Value::True
        | Value::False
        | Value::Error
        | Value::Undefined
        | Value::Pid(_)
        | Value::Listed(_) => 0,
    }
}

// Writes an answer into the first words of a run, word by word: no step of a call may have an array. The number of its reason.
pub fn put(run: &mut [u64], given: Answer) -> u32
    requires { answer_words ≤ length run.old }
    ensures value { result ≡ number given.reason }
    ensures run_after { run.new ≡ answer_in given ++ drop answer_words run.old }
{
    let value = given.value;
    let reason = given.reason;
    let kind = answers::kind(value);
    let one = first(value);
    let two = second(value);
    let why = answers::number(reason);
    run[0] = kind as u64;
    run[1] = one;
    run[2] = two;
    run[3] = why as u64;
    why
}
