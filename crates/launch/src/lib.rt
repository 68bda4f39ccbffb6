// A table from a launch file.
#![tactic(auto)]

ghost use Rattle.std.specs.Prelude.{◌≡◌, ◌≤◌, true, ℕ, length, take};
ghost use Rattle.answers.specs.Answers.{answer_of};
ghost use Rattle.answers.specs.declared.Value.TheVariants as Value;
ghost use Rattle.answers.specs.declared.Reason.TheVariants.{Done};
ghost use Rattle.launch.specs.Launch.{launch};
ghost use Rattle.launch.specs.Launches.{answered, placed, reason_of, Open, InOrder, Begun, AtOnce};
ghost use Rattle.grammar.specs.File.{outcome, taken};
ghost use Rattle.walk.specs.Groups.{groups, pass_groups};
ghost use Rattle.launch_file.specs.Reading.{read_as};
ghost use Rattle.pairs.specs.Woven.{woven};
ghost use Rattle.creating.specs.Creating.{created};
ghost use Rattle.semantics.specs.Call.{opening};
ghost use Rattle.semantics.specs.Sizes.{group_limit};

use answers::{Answer, Reason, Value, done, refused};
use book::{Book, INDEX_SIZE};
use layout::{NODE_LIMIT, TABLE_WORDS};
use pairs::Plan;
use plain_book::PlainBook;
use plan::Misfit;
use reader::Reader;

// What a launch answers: Ok or Error with its reason, and the place of the file at which it is refused.
#[derive(Clone, Copy)]
pub struct Launched {
    pub answer: Answer,
    pub place: usize,
}

// A refusal at a place.
fn refused_at(reason: Reason, place: usize) -> Launched
    ensures { (result.answer ≡ answer_of Value.Error reason) × (result.place ≡ place) }
{
    Launched {
        answer: refused(reason),
        place,
    }
}

// A launch that went through.
fn through() -> Launched
    ensures { (result.answer ≡ answer_of Value.Ok Done) × (result.place ≡ 0) }
{
    Launched {
        answer: done(Value::Ok),
        place: 0,
    }
}

// What speaks against a launch: a reason, at a place.
#[derive(Clone, Copy)]
struct Refusal {
    reason: Reason,
    place: usize,
}

// What a launch answers then, or where nothing does.
fn told(verdict: Result<(), Refusal>) -> Launched
    ensures { (result.answer ≡ answered verdict) × (result.place ≡ placed verdict) }
{
    match verdict {
        Ok(()) => through(),
        Err(refusal) => refused_at(refusal.reason, refusal.place),
    }
}

// What speaks against groups that do not fit.
fn refusal_of(misfit: Misfit) -> Refusal
    ensures { (result.reason ≡ reason_of misfit) × (result.place ≡ 0) }
{
    let reason = match misfit {
        Misfit::Clash => Reason::GroupsDiffer,
        Misfit::Unknown => Reason::AtomUnknown,
        Misfit::TooMany => Reason::GroupsFull,
    };
    Refusal { reason, place: 0 }
}

// The table is opened, and the first `count` s_groups of a plan are made.
fn make(t: &mut [u64], n: u32, hidden: u64, plan: &Plan, count: usize)
    requires opens { Open n hidden t.old }
    requires count_few { count ≤ group_limit }
    ensures { t.new ≡ created (woven (take count plan.now)) (opening n hidden t.old).table }
{
    opening::open(t, n, hidden);
    creating::create(t, plan.numbers(count), plan.sets(count));
}

// The launch of a file that was read, on a run and a roster that are in order: it is a file whose groups stand at a place, or it is refused at one.
fn judged(
    t: &mut [u64],
    n: u32,
    hidden: u64,
    start: u32,
    book: &[u8],
    file: &[u8],
    read: Result<usize, usize>,
) -> Result<(), Refusal>
    requires in_order { InOrder n hidden start t.old }
    requires was_read { outcome file.now ≡ read_as file.now read }
    ensures result_value { answered result ≡ (launch n hidden start book.now file.now t.old).answer }
    ensures result_value_2 { placed result ≡ (launch n hidden start book.now file.now t.old).place }
    ensures t_after { t.new ≡ (launch n hidden start book.now file.now t.old).table }
{
    if !plain_book::fits(book, n) {
        return Err(Refusal {
            reason: Reason::NoLaunchFile,
            place: 0,
        });
    }
    let g = match read {
        Ok(g) => g,
        Err(place) => return Err(Refusal {
            reason: Reason::NoLaunchFile,
            place,
        }),
    };
    let lines = PlainBook {
        text: book,
        nodes: n,
    };
    let mut plan = Plan::new();
    match plan::plan_of(file, g, &lines, start, &mut plan) {
        Ok(count) => {
            make(t, n, hidden, &plan, count);
            Ok(())
        }
        Err(misfit) => Err(refusal_of(misfit)),
    }
}

// Whether a file whose groups end in front of a place is whole: it is known to be, or it ends there at once.
fn ended(file: &[u8], end: usize, whole: bool) -> bool
    ensures { (g : ℕ) → pass_groups file.now g ≡ Ok end → Begun file.now whole g → result ≡ true → outcome file.now ≡ taken (groups file.now g) }
{
    if whole {
        return true;
    }
    launch_file::ends(file, end)
}

// The launch of a file whose groups begin at g, where one walk over them says all: each has a name of its own, their atoms are in the book, and the file
// ends behind them or is known to be whole. Whether it went through; otherwise nothing is written.
fn at_once(
    t: &mut [u64],
    n: u32,
    hidden: u64,
    book: &[u8],
    file: &[u8],
    g: usize,
    whole: bool,
) -> bool
    requires fact { Open n hidden t.old }
    requires begun { Begun file.now whole g }
    ensures { AtOnce n hidden book.now file.now t.old t.new result }
{
    let mut index = [0u8; INDEX_SIZE];
    if !book::fit(book, n, &mut index) {
        return false;
    }
    let indexed = Book {
        text: book,
        nodes: n,
        index: &index,
    };
    let mut plan = Plan::new();
    let Some((count, end)) = gathering::gather(file, g, &indexed, &mut plan) else {
        return false;
    };
    if !ended(file, end, whole) {
        return false;
    }
    make(t, n, hidden, &plan, count);
    true
}

// Opens the table for n nodes, some of them hidden, and makes the s_groups of the launch file: their atoms and those of their nodes have their numbers by the
// book; start is the node that is started. The tests of `opening::open` are made here too: reading stands between them and the opening. The arguments come side
// by side as C gives them, here and in the functions above, whose facts `Open` and `InOrder` are of the run too.
pub fn launch(t: &mut [u64], n: u32, hidden: u64, start: u32, book: &[u8], file: &[u8]) -> Launched
    ensures answer_value { result.answer ≡ (launch n hidden start book.now file.now t.old).answer }
    ensures place_value { result.place ≡ (launch n hidden start book.now file.now t.old).place }
    ensures t_after { t.new ≡ (launch n hidden start book.now file.now t.old).table }
{
    if t.len() != TABLE_WORDS {
        return refused_at(Reason::TableLength, 0);
    }
    if n < 1 {
        return refused_at(Reason::RosterSize, 0);
    }
    if NODE_LIMIT < n as usize {
        return refused_at(Reason::RosterSize, 0);
    }
    if nodes::beyond(hidden, n) {
        return refused_at(Reason::NodeUnknown, 0);
    }
    if n <= start {
        return refused_at(Reason::NodeUnknown, 0);
    }
    // The functions that have arrays are called at more than one place, so that the compiler keeps the arrays out of the frame on which reading stands.
    match Reader::new(file).front() {
        Err(p) => told(judged(t, n, hidden, start, book, file, Err(p))),
        Ok(g) => {
            if at_once(t, n, hidden, book, file, g, false) {
                return through();
            }
            match Reader::new(file).moved(g).rest() {
                Err(p) => told(judged(t, n, hidden, start, book, file, Err(p))),
                Ok(_) => {
                    if at_once(t, n, hidden, book, file, g, true) {
                        return through();
                    }
                    told(judged(t, n, hidden, start, book, file, Ok(g)))
                }
            }
        }
    }
}
