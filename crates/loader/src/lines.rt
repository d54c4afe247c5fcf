// The lines of a rule file that are not empty, one after another.
ghost use Rattle.std.specs.Prelude.{◌≡◌, ◌≤◌, length};

use tokens::line_at;

// A line without its trailing blanks: the file up to the line's end, and where the line starts.
#[derive(Clone, Copy)]
pub(crate) struct TextLine<'a> {
    pub(crate) text: &'a [u8],
    pub(crate) start: usize,
}

// The lines from `at` on.
#[derive(Drop)]
pub(crate) struct TextLines<'a> {
    pub(crate) file: &'a [u8],
    at: usize,
    ghost few: { length file.now ≤ 8192 },
}

impl TextLine<'_> {
    ghost use Rattle.loader.specs.Lines.{divides_in};

    // Whether the line is `%%`.
    pub(crate) fn divides(&self) -> bool
        ensures { result ≡ divides_in self.now.text.now self.now.start }
    {
        self.text.get(self.start..) == Some(b"%%".as_slice())
    }
}

impl<'a> TextLines<'a> {
    ghost use Rattle.grammar.specs.Lines.{lines};
    ghost use Rattle.loader.specs.Lines.{left};

    pub(crate) fn of(file: &'a [u8]) -> TextLines<'a>
        requires { length file.now ≤ 8192 }
        ensures all { left result ≡ lines file.now }
        ensures same { result.file.now ≡ file.now }
    {
        TextLines { file, at: 0 }
    }
}

impl<'a> Iterator for TextLines<'a> {
    type Item = TextLine<'a>;

    ghost use Rattle.loader.specs.Lines.{left, Gives};
    ghost use Rattle.std.specs.Iterator.{item_count};

    ghost next_gives = { Gives };

    ghost remaining = { item_count left };

    fn next(&mut self) -> Option<TextLine<'a>> {
        // By its place in the file, as a fault names it; a `split` would give the line's bytes alone.
        while self.at < self.file.len() {
            let start = self.at;
            let line = line_at(self.file, start);
            self.at = line.next;
            if start < line.end {
                return Some(TextLine {
                    text: &self.file[..line.end],
                    start,
                });
            }
        }
        None
    }
}
