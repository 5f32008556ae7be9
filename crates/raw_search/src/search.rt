//! The search: words of several kinds, and then words that are found from the terms.
ghost use Rattle.std.specs.Prelude.{◌≡◌, length, IfOk, IfSome};

use crate::cone::{Cone, Part};
use crate::descent::{Wish, push_down};
use crate::generator::Generator;
use crate::values::{is_set, low_word, place, set_flag, value_at};
use raw_flow::{FlowOp, Node};
use std::alloc::{AllocError, Global};

/// How much a search may do: it ends at the first of these.
#[derive(Clone, Copy)]
pub struct Budget {
    /// How often it may find the values of all terms that the pairs need.
    pub evaluations: u32,
    /// How many values of terms it may find in all.
    pub operations: u64,
}

/// A table of terms, and pairs of them that should have one value.
#[derive(Clone, Copy)]
pub struct Terms<'t> {
    /// The table: each term names earlier ones by their numbers, and the k-th input is the k-th word.
    pub nodes: &'t [Node],
    /// The numbers of the first terms of the pairs.
    pub received: &'t [u32],
    /// The numbers of the second ones, in the same order.
    pub claimed: &'t [u32],
}

// How often the values of all terms may be found once more to make words smaller, with as many operations again.
const SHRINK_EVALUATIONS: u32 = 400;

// How many turns the search from the terms has at most, also where they lead to no input.
const DESCENT_TURNS: u32 = 2600;

// After so many turns it begins from other words.
const TURNS_FROM_ONE: u32 = 24;

// How many lists of mixed words are tried.
const MIXED_LISTS: u32 = 48;

// A search: the words that are tried, and what was seen of the terms.
#[derive(Drop)]
struct Search {
    cone: Cone,
    generator: Generator,
    // A word for each input.
    words: Vec<u32>,
    // The values of the terms under the words that were tried last.
    values: Vec<u32>,
    // Which terms are made of inputs.
    hangs: Vec<bool>,
    // Which comparisons had the value 0, and which the value 1.
    was_zero: Vec<bool>,
    was_one: Vec<bool>,
    // The constants among the terms.
    constants: Vec<u32>,
    // How many evaluations are left.
    left: u32,
    // How many are spared to make words smaller.
    spared: u32,
}

// Whether a term compares two others.
fn is_comparison(part: Part) -> bool {
    match part {
        Part::Apply { op, .. } => op == FlowOp::Less || op == FlowOp::LessUnsigned,
        _ => false,
    }
}

// How many evaluations a budget has for so many terms.
fn evaluations(budget: Budget, terms: usize) -> u32 {
    let most = budget.operations / (terms as u64).max(1);
    low_word(u64::from(budget.evaluations).min(most))
}

// As many flags, none of which is set.
fn no_flags(alloc: Global, count: usize) -> Result<Vec<bool>, AllocError> {
    let mut flags = Vec::new(alloc);
    flags.resize(count, false)?;
    Ok(flags)
}

// Which terms are made of inputs.
fn hanging(alloc: Global, cone: &Cone) -> Result<Vec<bool>, AllocError> {
    let mut hangs = no_flags(alloc, cone.parts.len())?;
    for (at, part) in cone.parts.iter().enumerate() {
        let is = match *part {
            Part::Input(_) => true,
            Part::Word(_) => false,
            Part::Apply { a, b, .. } => is_set(&hangs, a) || is_set(&hangs, b),
        };
        if is {
            set_flag(&mut hangs, place(at));
        }
    }
    Ok(hangs)
}

// The constants among the terms.
fn constants(alloc: Global, cone: &Cone) -> Result<Vec<u32>, AllocError> {
    let mut words = Vec::new(alloc);
    for part in &cone.parts {
        if let Part::Word(word) = *part {
            words.push(word)?;
        }
    }
    Ok(words)
}

impl Search {
    // A search over the terms that these pairs need, for so many inputs.
    fn open(
        alloc: Global,
        terms: Terms<'_>,
        inputs: usize,
        budget: Budget,
    ) -> Result<Search, AllocError> {
        let cone = Cone::new(alloc, terms.nodes, terms.received, terms.claimed)?;
        let terms = cone.parts.len();
        let mut words = Vec::new(alloc);
        words.resize(inputs, 0)?;
        let mut values = Vec::new(alloc);
        values.resize(terms, 0)?;
        let hangs = hanging(alloc, &cone)?;
        let constants = constants(alloc, &cone)?;
        Ok(Search {
            generator: Generator::new(),
            words,
            values,
            hangs,
            was_zero: no_flags(alloc, terms)?,
            was_one: no_flags(alloc, terms)?,
            constants,
            left: evaluations(budget, terms),
            spared: evaluations(budget, terms).min(SHRINK_EVALUATIONS),
            cone,
        })
    }

    // Notes which comparisons have which value.
    fn note(&mut self) {
        for (at, part) in self.cone.parts.iter().enumerate() {
            if is_comparison(*part) {
                if value_at(&self.values, place(at)) == 0 {
                    set_flag(&mut self.was_zero, place(at));
                } else {
                    set_flag(&mut self.was_one, place(at));
                }
            }
        }
    }

    // Whether a pair of terms differs under the words, found by one evaluation. Where none is left it does not.
    fn differs(&mut self) -> bool {
        if self.left == 0 {
            return false;
        }
        self.left -= 1;
        self.cone.evaluate(&self.words, &mut self.values);
        self.cone.differs(&self.values)
    }

    // Tries the words: whether a pair of terms differs under them. Where none does, their values are noted.
    fn tries(&mut self) -> bool {
        if self.differs() {
            return true;
        }
        self.note();
        false
    }

    // Tries one word for all inputs.
    fn tries_all(&mut self, word: u32) -> bool {
        for each in self.words.iter_mut() {
            *each = word;
        }
        self.tries()
    }

    // Words that are all the same.
    fn same_words(&mut self) -> bool {
        let words = [
            0,
            1,
            u32::MAX,
            2,
            0x8000_0000,
            0x7fff_ffff,
            0x5555_5555,
            0xff,
            0xffff,
            0x1_0000,
            0x0f0f_0f0f,
            31,
            32,
        ];
        for word in words {
            if self.tries_all(word) {
                return true;
            }
        }
        false
    }

    // Tries words that rise by a step from a first one on.
    fn tries_rising(&mut self, first: u32, step: u32) -> bool {
        let mut word = first;
        for each in self.words.iter_mut() {
            *each = word;
            word = word.wrapping_add(step);
        }
        self.tries()
    }

    // Small words, that rise or fall from input to input.
    fn small_words(&mut self) -> bool {
        let count = place(self.words.len());
        self.tries_rising(1, 1)
            || self.tries_rising(count, u32::MAX)
            || self.tries_rising(u32::MAX, u32::MAX)
    }

    // Powers of two, another one for each input.
    fn powers(&mut self) -> bool {
        for first in 0..32 {
            let mut bit: u32 = first;
            for word in self.words.iter_mut() {
                *word = 1u32.wrapping_shl(bit);
                bit = bit.wrapping_add(7);
            }
            if self.tries() {
                return true;
            }
        }
        false
    }

    // Puts a word of some kind at each input.
    fn mix(&mut self) {
        for word in self.words.iter_mut() {
            *word = self.generator.mixed();
        }
    }

    // Words of several kinds.
    fn mixed_words(&mut self) -> bool {
        for _ in 0..MIXED_LISTS {
            self.mix();
            if self.tries() {
                return true;
            }
        }
        false
    }

    // A constant of the terms, or a word near one.
    fn near_constant(&mut self) -> u32 {
        let at = self.generator.below(place(self.constants.len()));
        let word = value_at(&self.constants, at);
        match self.generator.below(5) {
            0 => word,
            1 => word.wrapping_add(1),
            2 => word.wrapping_sub(1),
            3 => word.wrapping_neg(),
            _ => !word,
        }
    }

    // Puts a word at an input.
    fn put(&mut self, at: u32, word: u32) {
        if let Some(old) = self.words.get_mut(at as usize) {
            *old = word;
        }
    }

    // Puts a word near a constant at one input, and at some others.
    fn mix_constants(&mut self) {
        self.mix();
        let count = place(self.words.len());
        for _ in 0..count / 3 + 1 {
            let at = self.generator.below(count);
            let near = self.near_constant();
            self.put(at, near);
        }
    }

    // Words near those that stand in the terms, for a quarter of what is left.
    fn constant_words(&mut self) -> bool {
        if self.constants.is_empty() {
            return false;
        }
        for _ in 0..self.left / 4 {
            self.mix_constants();
            if self.tries() {
                return true;
            }
        }
        false
    }

    // Whether a comparison that is made of inputs had one value so far.
    fn is_stuck(&self, place: u32) -> bool {
        is_comparison(self.cone.part(place))
            && is_set(&self.hangs, place)
            && is_set(&self.was_zero, place) != is_set(&self.was_one, place)
    }

    // Some comparison that had one value so far, with its other value.
    fn stuck(&mut self) -> Option<Wish> {
        let terms = place(self.cone.parts.len());
        let first = self.generator.below(terms);
        for step in 0..terms {
            let place = first.wrapping_add(step) % terms;
            if self.is_stuck(place) {
                let value = u32::from(is_set(&self.was_zero, place));
                return Some(Wish { place, value });
            }
        }
        None
    }

    // One term of a pair, with a value that is near the other's, or any.
    fn apart(&mut self) -> Wish {
        let at = self.generator.below(place(self.cone.pairs.len()));
        let (place, other) = match self.cone.pairs.get(at as usize) {
            Some(pair) if self.generator.below(2) == 0 => (pair.received, pair.claimed),
            Some(pair) => (pair.claimed, pair.received),
            None => (0, 0),
        };
        let value = value_at(&self.values, other);
        let wanted = match self.generator.below(4) {
            0 => value ^ 1u32.wrapping_shl(self.generator.below(32)),
            1 => value.wrapping_add(1),
            2 => self.generator.mixed(),
            _ => self.generator.word(),
        };
        Wish {
            place,
            value: wanted,
        }
    }

    // What to go down from in this turn: most often a comparison that is stuck.
    fn wish(&mut self, turn: u32) -> Wish {
        if turn % 4 != 0 {
            if let Some(wish) = self.stuck() {
                return wish;
            }
        }
        self.apart()
    }

    // Changes one input, by going down from a term.
    fn descend(&mut self, turn: u32) -> bool {
        if turn % TURNS_FROM_ONE == 0 {
            self.mix();
            if self.tries() {
                return true;
            }
        }
        let wish = self.wish(turn);
        push_down(
            &self.cone,
            &mut self.generator,
            &self.values,
            &self.hangs,
            wish,
            &mut self.words,
        ) && self.tries()
    }

    // Words found from the terms.
    fn descents(&mut self) -> bool {
        for turn in 1..DESCENT_TURNS {
            if self.left == 0 {
                return false;
            }
            if self.descend(turn) {
                return true;
            }
        }
        false
    }

    // Puts this word at an input if a pair differs then too; returns whether it does.
    fn lessen(&mut self, at: u32, word: u32) -> bool {
        let old = value_at(&self.words, at);
        self.put(at, word);
        if self.differs() {
            return true;
        }
        self.put(at, old);
        false
    }

    // Puts 0, 1 or 2 at an input, if a pair differs then too.
    fn lessen_to_small(&mut self, at: u32) -> bool {
        for small in 0..3 {
            if value_at(&self.words, at) <= small || self.lessen(at, small) {
                return true;
            }
        }
        false
    }

    // Takes the ones of a word away, from the left, where a pair differs without them too.
    fn lessen_bits(&mut self, at: u32) {
        for bit in 0..32 {
            let mask = 0x8000_0000u32.wrapping_shr(bit);
            let word = value_at(&self.words, at);
            if word & mask != 0 {
                self.lessen(at, word & !mask);
            }
        }
    }

    // Makes the words smaller.
    fn shrink(&mut self) {
        self.left = self.spared;
        for at in 0..place(self.words.len()) {
            if !self.lessen_to_small(at) {
                self.lessen_bits(at);
            }
        }
    }

    // Whether words are found.
    fn finds(&mut self) -> bool {
        self.same_words()
            || self.small_words()
            || self.powers()
            || self.mixed_words()
            || self.constant_words()
            || self.descents()
    }
}

/// Looks for words for so many inputs under which the terms of a pair have other values.
///
/// Words that are found are made small: each is 0, 1 or 2 where it can be, else as few of its bits are ones as was seen
/// to be enough. That none are found says nothing.
pub fn find(
    alloc: Global,
    terms: Terms<'_>,
    inputs: usize,
    budget: Budget,
) -> Result<Option<Vec<u32>>, AllocError>
    ensures each { IfOk result (λ found. IfSome found (λ words. length words.items ≡ inputs)) }
{
    let mut search = Search::open(alloc, terms, inputs, budget)?;
    if !search.finds() {
        return Ok(None);
    }
    search.shrink();
    let mut words = search.words;
    words.resize(inputs, 0)?;
    Ok(Some(words))
}
