// A walk over the lines of a text, from colon to colon.
ghost use Rattle.std.specs.Prelude.{◌≡◌, ◌<◌, length};
ghost use Rattle.std.specs.Iterator.{YieldsFirstRef, item_count};
ghost use Rattle.gencmd_lines.specs.Lines.{lines_of};
ghost use Rattle.gencmd_lines.specs.CodeWalk.{next_colon, next_line, behind, left};

use crate::line::digits_in;

// The lines of a text that are still to come: those behind the line that was taken last. Each is lent from behind its colon to the
// end of the text.
#[derive(Clone, Copy)]
pub struct Lines<'a> {
    text: &'a [u8],
    // The colon of the line taken last, or the end of the text behind the last line; None before the first.
    at: Option<usize>,
}

impl<'a> Lines<'a> {
    // All lines of a text.
    pub fn new(text: &'a [u8]) -> Lines<'a>
        ensures { left result ≡ lines_of text.now }
    {
        Lines { text, at: None }
    }

    // Where the next line's colon stands; the end of the text where no line is left.
    fn place(&self) -> usize
        ensures { result ≡ next_colon self.now.text.now (behind self.now.text.now self.now.at) }
    {
        match self.at {
            None => next_colon(self.text, 0),
            Some(at) if at < self.text.len() => next_line(self.text, at),
            Some(_) => self.text.len(),
        }
    }
}

impl<'a> Iterator for Lines<'a> {
    type Item = &'a [u8];

    ghost next_gives = { YieldsFirstRef left };

    ghost remaining = { item_count left };

    fn next(&mut self) -> Option<&'a [u8]> {
        let at = self.place();
        self.at = Some(at);
        if self.text.len() <= at {
            return None;
        }
        Some(&self.text[at + 1..])
    }
}

// Where the next colon stands, from a place on; the end of the text where there is none.
pub fn next_colon(text: &[u8], from: usize) -> usize
    ensures { result ≡ next_colon text.now from }
{
    for i in from..text.len() {
        if text[i] == b':' {
            return i;
        }
    }
    from.max(text.len())
}

// Where the next line's colon stands, behind the line whose colon stands at a place.
pub fn next_line(text: &[u8], at: usize) -> usize
    requires { at < length text.now }
    ensures { result ≡ next_line text.now at }
{
    let from = at + 1;
    let n = digits_in(&text[from..]);
    if text.len() - from < n {
        return next_colon(text, text.len());
    }
    next_colon(text, from + n)
}
