// Where a place of a text stands, for messages: its line and its column. The struct that holds a text and a place is `reader::Reader`, whose methods call these.
#![tactic(auto)]

ghost use Rattle.std.specs.Prelude.{◌≡◌};
ghost use Rattle.position.specs.Position.{line_of, column_of};

// The line of a place, from 1.
pub fn line(text: &[u8], at: usize) -> usize
    ensures { result ≡ line_of text.now at }
{
    1 + text.iter().take(at).filter(|b| **b == b'\n').count()
}

// The column of a place in its line, from 1, in bytes.
#[tactic(auto, using(crate::specs::PositionLaws::behind_more), unfolding(crate::specs::Position::behind))]
pub fn column(text: &[u8], at: usize) -> usize
    ensures { result ≡ column_of text.now at }
{
    let before = &text[..at.min(text.len())];
    let mut n = 1;
    for b in before {
        n = if *b == b'\n' { 1 } else { n + 1 };
    }
    n
}
