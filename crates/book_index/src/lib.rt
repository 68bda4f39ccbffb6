// The bytes of a book's index: marks or hints first, then numbers of 16 bits.
#![tactic(auto, unfolding(crate::specs::Layout::number_at, crate::specs::Layout::with_number, crate::specs::Layout::has_mark, crate::specs::Layout::with_mark, crate::specs::Layout::cleared))]

ghost use Rattle.std.specs.Prelude.{◌≡◌, ◌<◌};
ghost use Rattle.book_index.specs.Layout.{hint_count, mark_count, number_count, number_at, with_number, has_mark, with_mark, cleared};

// The bytes of an index.
pub const INDEX_SIZE: usize = 512;

// How many hints there are, and how many marks stand in their place.
pub const HINTS: usize = 256;

pub const MARKS: u64 = 2048;

// An index. Its functions take it and a place: methods would need a struct about the run, and each contract that now says `index.now` would say `index.now.bytes`.
pub type Index = [u8; INDEX_SIZE];

// Number j of an index.
pub fn number(index: &Index, j: usize) -> usize
    requires { j < number_count }
    ensures { result ≡ number_at index.now j }
{
    atoms::two(index, HINTS + j * 2) as usize
}

// Writes v as number j.
pub fn put_number(index: &mut Index, j: usize, v: u16)
    requires { j < number_count }
    ensures { index.new ≡ with_number index.old j v }
{
    let at = HINTS + j * 2;
    let [low, high] = v.to_le_bytes();
    index[at] = low;
    index[at + 1] = high;
}

// Whether a mark is set.
pub fn has_mark(index: &Index, mark: usize) -> bool
    requires { mark < mark_count }
    ensures { result ≡ has_mark index.now mark }
{
    let bits = u64::from(index[mark / 8]);
    nodes::has(bits, (mark % 8) as u32)
}

// Sets a mark.
pub fn set_mark(index: &mut Index, mark: usize)
    requires { mark < mark_count }
    ensures { index.new ≡ with_mark index.old mark }
{
    let at = mark / 8;
    let bits = u64::from(index[at]);
    let more = nodes::with(bits, (mark % 8) as u32);
    index[at] = more as u8;
}

// Takes every mark or hint away.
pub fn clear(index: &mut Index)
    ensures { index.new ≡ cleared index.old }
{
    index[..HINTS].fill(0);
}

// The first free place for a hint from a place on, or any where none is free: no Option, since fewer lines get a hint than there are places, and no promise rests on
// which place it is. The place wraps, and so is stepped by hand.
pub fn free(index: &Index, from: usize) -> usize
    requires { from < hint_count }
    ensures { result < hint_count }
{
    let mut at = from;
    for _ in 0..HINTS {
        if index[at] == 0 {
            return at;
        }
        at = (at + 1) % HINTS;
    }
    at
}
