//! Sources as they are written, piece by piece.

use crate::draws::Draws;
use itoa::Buffer;
use std::alloc::{AllocError, Global};

/// What is open where the pen is.
#[derive(Clone, Copy)]
pub(crate) enum Open {
    If,
    Else,
    For,
    /// A block of this number.
    Block(u64),
}

/// A source that is written, and how.
#[derive(Drop)]
pub(crate) struct Pen {
    pub(crate) text: String,
    pub(crate) draws: Draws,
    pub(crate) open: Vec<Open>,
    /// How many of what is open stay so until all is closed.
    pub(crate) kept: usize,
    /// How many blocks have begun.
    pub(crate) blocks: u64,
    /// How many of a hundred markers have a dash.
    dashes: u64,
    /// Whether the white space in tags is as it comes.
    loose: bool,
    /// Whether there are letters beyond ASCII.
    foreign: bool,
}

static LATIN: [&str; 24] = [
    "lorem",
    "ipsum",
    "dolor",
    "sit",
    "amet",
    "consectetur",
    "adipiscing",
    "elit",
    "sed",
    "do",
    "eiusmod",
    "tempor",
    "incididunt",
    "ut",
    "labore",
    "et",
    "dolore",
    "magna",
    "aliqua",
    "enim",
    "minim",
    "veniam",
    "quis",
    "nostrud",
];

static FOREIGN: [&str; 8] = [
    "été",
    "größer",
    "привет",
    "日本語",
    "naïve",
    "señor",
    "žluťoučký",
    "…",
];

static LINES: [&str; 12] = [
    "Lorem ipsum dolor sit amet, consectetur",
    "adipiscing elit, sed do eiusmod tempor",
    "incididunt ut labore et dolore magna",
    "<p class=\"lead\">Ut enim ad minim veniam,",
    "quis nostrud exercitation ullamco",
    "laboris nisi ut aliquip</p>",
    "<span>ex ea commodo consequat</span>",
    "Duis aute irure dolor in reprehenderit",
    "in voluptate velit esse cillum dolore",
    "<br>",
    "eu fugiat nulla pariatur. Excepteur sint",
    "    <label for=\"id\">occaecat</label>",
];

static FOREIGN_LINES: [&str; 3] = [
    "Съешь ещё этих мягких французских булок",
    "Příliš žluťoučký kůň úpěl ďábelské ódy",
    "いろはにほへと ちりぬるを わかよたれそ",
];

static NAMES: [&str; 24] = [
    "user", "page", "item", "post", "request", "config", "title", "name", "value", "entry",
    "section", "form", "field", "url", "path", "label", "options", "author", "comment", "tags",
    "settings", "message", "is_staff", "count",
];

static FIELDS: [&str; 16] = [
    "name",
    "title",
    "id",
    "url",
    "slug",
    "date",
    "email",
    "count",
    "is_active",
    "body",
    "items",
    "price",
    "path",
    "label",
    "description",
    "language_code",
];

static FILTERS: [&str; 8] = [
    "upper", "title", "safe", "length", "trim", "escape", "first", "slugify",
];

impl Pen {
    /// A pen over an empty source.
    pub(crate) fn new(alloc: Global, seed: u64) -> Pen {
        let mut draws = Draws::new(seed);
        let dashes = 3 + draws.below(23);
        let loose = draws.below(6) == 0;
        let foreign = draws.below(25) == 0;
        Pen {
            text: String::new(alloc),
            draws,
            open: Vec::new(alloc),
            kept: 0,
            blocks: 0,
            dashes,
            loose,
            foreign,
        }
    }

    /// Finds memory for a source of so many bytes, and of some more.
    pub(crate) fn reserve(&mut self, len: u64) -> Result<(), AllocError> {
        self.text.reserve(len.saturating_add(500) as usize)
    }

    /// What is open from here.
    pub(crate) fn push(&mut self, open: Open) -> Result<(), AllocError> {
        self.open.push(open)?;
        Ok(())
    }

    pub(crate) fn put(&mut self, text: &str) -> Result<(), AllocError> {
        self.text.push_str(text)
    }

    pub(crate) fn put_number(&mut self, number: u64) -> Result<(), AllocError> {
        let mut digits = Buffer::new();
        self.text.push_str(digits.format(number))
    }

    /// The one where the white space is in its layout, and else the other.
    pub(crate) fn put_either(&mut self, laid: &str, loose: &str) -> Result<(), AllocError> {
        if self.loose {
            self.text.push_str(loose)
        } else {
            self.text.push_str(laid)
        }
    }

    /// One of the words.
    pub(crate) fn put_one(&mut self, words: &[&'static str]) -> Result<(), AllocError> {
        let word = self.draws.one_of(words);
        self.text.push_str(word)
    }

    /// The start of a tag.
    pub(crate) fn begin(&mut self, marker: &str) -> Result<(), AllocError> {
        self.text.push_str(marker)?;
        if self.draws.below(100) < self.dashes {
            self.text.push('-')?;
        }
        self.put_gap()
    }

    /// The end of a tag.
    pub(crate) fn end(&mut self, marker: &str) -> Result<(), AllocError> {
        self.put_gap()?;
        if self.draws.below(100) < self.dashes {
            self.text.push('-')?;
        }
        self.text.push_str(marker)
    }

    fn put_gap(&mut self) -> Result<(), AllocError> {
        if !self.loose {
            return self.text.push_str(" ");
        }
        match self.draws.below(3) {
            0 => Ok(()),
            1 => self.text.push_str("  "),
            _ => self.text.push_str(" "),
        }
    }

    pub(crate) fn put_name(&mut self) -> Result<(), AllocError> {
        self.put_one(&NAMES)
    }

    /// A name, and a field of it.
    pub(crate) fn put_path(&mut self) -> Result<(), AllocError> {
        self.put_one(&NAMES)?;
        self.text.push('.')?;
        self.put_one(&FIELDS)
    }

    /// The bar of a filter, and its name.
    pub(crate) fn put_filter(&mut self) -> Result<(), AllocError> {
        self.put_either(" | ", "|")?;
        self.put_one(&FILTERS)
    }

    pub(crate) fn put_word(&mut self) -> Result<(), AllocError> {
        if self.foreign && self.draws.below(3) == 0 {
            self.put_one(&FOREIGN)
        } else {
            self.put_one(&LATIN)
        }
    }

    /// So many lines of text, the last of which does not end.
    pub(crate) fn put_lines(&mut self, count: u64) -> Result<(), AllocError> {
        for line in 0..count {
            if line != 0 {
                self.text.push('\n')?;
            }
            if self.foreign && self.draws.below(3) == 0 {
                self.put_one(&FOREIGN_LINES)?;
            } else {
                self.put_one(&LINES)?;
            }
        }
        Ok(())
    }
}
