// Going over the lines of a text and the words of a line one by one, with no list of them.
ghost use Rattle.std.specs.Prelude.{◌≡◌, length, MatchOption, Some, None};
ghost use Rattle.std.specs.Iterator.{at_most};
ghost use Rattle.words.specs.Cuts.{NextLine, NextWord};

// What follows the lines that were gone over.
#[derive(Clone, Copy)]
pub struct Lines<'a> {
    rest: &'a str,
}

impl<'a> Lines<'a> {
    // The lines of a text, from its first.
    pub fn new(text: &'a str) -> Lines<'a>
        ensures { result.rest.now ≡ text.now }
    {
        Lines { rest: text }
    }
}

impl<'a> Iterator for Lines<'a> {
    type Item = &'a str;

    ghost next_gives = { λ s r t. NextLine s.rest.now r t.rest.now };

    ghost remaining = { λ s. at_most (length s.rest.now) };

    fn next(&mut self) -> Option<&'a str> {
        if self.rest.is_empty() {
            return None;
        }
        let (line, rest) = self.rest.split_once('\n').unwrap_or((self.rest, ""));
        self.rest = rest;
        Some(line)
    }
}

// What follows the words that were gone over.
#[derive(Clone, Copy)]
pub struct Words<'a> {
    rest: &'a str,
}

impl<'a> Words<'a> {
    // The words of a line, from its first.
    pub fn new(line: &'a str) -> Words<'a>
        ensures { result.rest.now ≡ line.now }
    {
        Words { rest: line }
    }

    // There are no more words.
    pub fn end(&mut self) -> Option<()>
        ensures { MatchOption result ((w : _) × NextWord self.old.rest.now (Some w) self.new.rest.now) (λ _. NextWord self.old.rest.now None self.new.rest.now) }
    {
        match self.next() {
            Some(_) => None,
            None => Some(()),
        }
    }
}

impl<'a> Iterator for Words<'a> {
    type Item = &'a str;

    ghost next_gives = { λ s r t. NextWord s.rest.now r t.rest.now };

    ghost remaining = { λ s. at_most (length s.rest.now) };

    fn next(&mut self) -> Option<&'a str> {
        let text = self.rest.trim_start_matches(' ');
        if text.is_empty() {
            self.rest = text;
            return None;
        }
        let (word, rest) = text.split_once(' ').unwrap_or((text, ""));
        self.rest = rest;
        Some(word)
    }
}
