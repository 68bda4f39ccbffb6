// What is said of a launch that is refused: the reason, the place, and a sentence.
#![tactic(auto)]

ghost use Rattle.std.specs.Prelude.{◌≡◌, length, take};
ghost use Rattle.refusal_head.specs.Refusal.{refusal_head};

use answers::Reason;
use launch_expected::{front, put_expected};
use launch_why::{Asked, put_why};
use refusal_head::{Named, is_slip, put_head};

// Puts what is expected at the place where the file in the room is refused. What stands in the room from there on is lost.
fn put_slip(out: &mut [u8], room: &mut [u8], place: usize) -> usize {
    let at = put_expected(out, 0, room, place);
    print::put_bytes(out, at, b"\n")
}

// Puts what is said of a launch that is refused: what is determined by its answer, and then why. The file stands in the first bytes of the room, so many; those
// from the place on are lost. The file is no `Named` here, since that holds a text for reading, and of a slip the room is written.
pub fn put_refusal(
    out: &mut [u8],
    reason: Reason,
    place: usize,
    asked: Asked,
    book: Named,
    name: &[u8],
    room: &mut [u8],
    len: usize,
) -> usize
    ensures { take (length (refusal_head reason place asked.n book.entry.text.now name.now (take len room.old))) (take result out.new)
        ≡ take (length out.old) (refusal_head reason place asked.n book.entry.text.now name.now (take len room.old)) }
{
    let slip = is_slip(reason, place, book.text, asked.n);
    let text = front(room, len);
    let file = Named { name, text };
    let p = put_head(out, reason, place, slip, file);
    let why = if slip {
        put_slip(&mut out[p..], room, place)
    } else {
        put_why(&mut out[p..], reason, asked, book, file)
    };
    p + why.min(out.len() - p)
}
