// The sheet walker: it borrows the text that it walks, and shows each part of it that a byte ends: a line ends at byte 10, and a field of a line at a tab. The
// searching is done over a plain slice and a place; the walker's methods only wrap it.
// Stays (no plainer): the functions that read a line take text and place by themselves, since what they give is a place alone and one text serves all.
ghost use Rattle.std.specs.Prelude.{◌≡◌, drop};
ghost use Rattle.sheet.specs.Text.{part_of};
ghost use Rattle.sheet.specs.Places.{part_end, behind_part};

// A text and a place in it. A place past the end stands for the end.
#[derive(Clone, Copy)]
pub struct SheetWalker<'a> {
    pub text: &'a [u8],
    pub at: usize,
}

// Where the part that starts here ends: at the next byte `end`, or with the text.
pub fn part_end(text: &[u8], at: usize, end: u8) -> usize
    ensures { result ≡ part_end end text.now at }
{
    // Stays (slower): `position` counts from the part's start, so its place is added to that again for each field: to read a sheet takes one instruction in a hundred more.
    let mut i = at;
    while i < text.len() {
        if text[i] == end {
            return i;
        }
        i += 1;
    }
    i
}

// The part that starts here, without the byte that ends it.
pub fn part_at(text: &[u8], at: usize, end: u8) -> &[u8]
    ensures { result.now ≡ part_of end (drop at text.now) }
{
    if text.len() < at {
        return &[];
    }
    &text[at..part_end(text, at, end)]
}

// The place behind the part that starts here, and behind the byte that ends it: or the text's end.
pub fn behind_part(text: &[u8], at: usize, end: u8) -> usize
    ensures { result ≡ behind_part end text.now at }
{
    part_end(text, at, end).saturating_add(1).min(text.len())
}

impl<'a> SheetWalker<'a> {
    // The part at the walker's place, which the byte `end` ends.
    pub fn part(self, end: u8) -> &'a [u8]
        ensures { result.now ≡ part_of end (drop self.entry.at self.entry.text.now) }
    {
        part_at(self.text, self.at, end)
    }

    // The walker behind that part.
    pub fn next_part(self, end: u8) -> Self
        ensures { (result.text ≡ self.entry.text) × (result.at ≡ behind_part end self.entry.text.now self.entry.at) }
    {
        SheetWalker {
            text: self.text,
            at: behind_part(self.text, self.at, end),
        }
    }
}

// The part from a place of a text on, as a walker there shows it. Its parameters are plain, so that a caller needs no walker of its own.
pub fn part_from<'a>(text: &'a [u8], at: usize, end: u8) -> &'a [u8]
    ensures { result.now ≡ part_of end (drop at text.now) }
{
    SheetWalker { text, at }.part(end)
}
