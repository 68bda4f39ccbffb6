// A reader: the text of a launch file together with a place in it, which messages name. Each method is thin: it takes the struct apart for a function of a crate
// below.
#![tactic(auto)]

ghost use Rattle.std.specs.Prelude.{◌≡◌};
ghost use Rattle.grammar.specs.File.{outcome};
ghost use Rattle.launch_file.specs.Reading.{fronted, read_as, RestRead};
ghost use Rattle.position.specs.Position.{line_of, column_of};

// A text, and a place in it.
#[derive(Clone, Copy)]
pub struct Reader<'a> {
    pub text: &'a [u8],
    pub at: usize,
}

impl<'a> Reader<'a> {
    // A reader at the start of a text.
    pub fn new(text: &'a [u8]) -> Reader<'a>
        ensures { (result.text ≡ text.entry) × (result.at ≡ 0) }
    {
        Reader { text, at: 0 }
    }

    // The same text at another place.
    pub fn moved(self, at: usize) -> Reader<'a>
        ensures { (result.text ≡ self.entry.text) × (result.at ≡ at) }
    {
        Reader { at, ..self }
    }

    // The line of the place.
    pub fn line(self) -> usize
        ensures { result ≡ line_of self.entry.text.now self.entry.at }
    {
        position::line(self.text, self.at)
    }

    // The column of the place in its line.
    pub fn column(self) -> usize
        ensures { result ≡ column_of self.entry.text.now self.entry.at }
    {
        position::column(self.text, self.at)
    }

    // Reads the whole text, wherever the place is: the place behind the bracket of its groups, or where it is refused.
    pub fn read(self) -> Result<usize, usize>
        ensures { outcome self.entry.text.now ≡ read_as self.entry.text.now result }
    {
        launch_file::read(self.text)
    }

    // Reads up to the groups: the place behind their bracket, or where the text is refused.
    pub fn front(self) -> Result<usize, usize>
        ensures { outcome self.entry.text.now ≡ fronted self.entry.text.now result }
    {
        launch_file::front(self.text)
    }

    // Reads on from the place, which is behind the bracket of the groups.
    pub fn rest(self) -> Result<usize, usize>
        ensures { RestRead self.entry.text.now self.entry.at result }
    {
        launch_file::rest(self.text, self.at)
    }
}
