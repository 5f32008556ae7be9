//! Lists of words to try where there are no terms to look at.
ghost use Rattle.std.specs.Prelude.{◌≡◌, length};

use crate::generator::Generator;

/// How many lists `Lists` has that are worth a run each.
pub const MAX_LISTS: u32 = 48;

/// Lists of words, one after another: first all words the same, then words of several kinds.
#[derive(Drop)]
pub struct Lists {
    generator: Generator,
    number: u32,
}

impl Lists {
    /// The lists from the first one on.
    pub fn new() -> Lists {
        Lists {
            generator: Generator::new(),
            number: 0,
        }
    }

    // The word of which the next list consists, if it has one word alone.
    fn same_word(&self) -> Option<u32> {
        match self.number {
            0 => Some(0),
            1 => Some(1),
            2 => Some(u32::MAX),
            3 => Some(2),
            4 => Some(0x8000_0000),
            5 => Some(0x7fff_ffff),
            6 => Some(31),
            _ => None,
        }
    }

    /// Puts the next list in the place of these words.
    pub fn put_next(&mut self, words: &mut [u32])
        ensures { length words.new ≡ length words.old }
    {
        let same = self.same_word();
        for word in words.iter_mut() {
            *word = match same {
                Some(same) => same,
                None => self.generator.mixed(),
            };
        }
        self.number = self.number.saturating_add(1);
    }
}
