// Texts that grow piece by piece.
#![tactic(auto)]

ghost use Rattle.std.specs.Prelude.{◌≡◌, ◌<◌, [], ◌∷◌, string_bytes, decimal, IfSome, IsOkAnd, IsErrOf};
ghost use Rattle.pages.specs.Growth.{Adds};

pub mod page;

use page::Page;
use std::alloc::{AllocError, Global};
use std::fmt::Display;

impl Page {
    // An empty page.
    pub fn new(heap: Global) -> Page
        ensures { IsOkAnd result.text (λ text. string_bytes text ≡ []) }
    {
        Page {
            text: Ok(String::new(heap)),
        }
    }

    // Its text is lost.
    pub fn lose(&mut self, lost: AllocError)
        ensures { IsErrOf self.new.text lost }
    {
        *self = Page { text: Err(lost) };
    }

    // Adds what `write!` prints.
    pub fn write_fmt<D: Display + Drop>(&mut self, value: D)
        ensures { IfSome (D.output value) (λ words. Adds self.old self.new words) }
    {
        let Ok(text) = &mut self.text else {
            return;
        };
        if let Err(lost) = text.write_fmt(value) {
            self.lose(lost);
        }
    }

    // Adds a text.
    pub fn add(&mut self, words: &str)
        ensures { Adds self.old self.new words.now }
    {
        write!(self, "{words}");
    }

    // Adds a letter, which is a byte below 128.
    pub fn letter(&mut self, byte: u8)
        ensures { byte < 128 → Adds self.old self.new (byte ∷ []) }
    {
        let letter = byte as char;
        write!(self, "{letter}");
    }

    // Adds a number, in decimal.
    pub fn number(&mut self, n: u64)
        ensures { Adds self.old self.new (decimal n) }
    {
        write!(self, "{n}");
    }

    // The text, unless something of it is lost.
    pub fn done(self) -> Result<String, AllocError>
        ensures { result ≡ self.text }
    {
        self.text
    }
}
