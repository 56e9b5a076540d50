// The letters that stand for variables.
ghost use Rattle.std.specs.Prelude.{◌≡◌, ◌<◌, ◌≤◌, [], ◌∷◌, ◌++◌, length, IfOk, MatchOption, slice_index, vec_capacity};
ghost use Rattle.conditions.specs.Letters.{Apart, Declared, Lowercase, Untaken};

use std::alloc::{AllocError, Global};

const MOST: usize = 8;

// Different lowercase letters, that of variable 0 first.
#[derive(Drop)]
pub struct Variables {
    letters: Vec<u8>,
    ghost few: { length letters.items ≤ 8 },
    ghost reserved: { 8 ≤ vec_capacity letters },
    ghost lowercase: { Lowercase letters.items },
    ghost apart: { Apart letters.items },
}

impl Variables {
    ghost use Rattle.conditions.specs.Shown.{letters_of};

    pub fn new(heap: Global) -> Result<Variables, AllocError>
        ensures { IfOk result (λ v. letters_of v ≡ []) }
    {
        let letters = Vec::with_capacity(heap, MOST)?;
        Ok(Variables { letters })
    }

    // One more variable, unless there are eight, or the letter is no lowercase letter or is taken.
    pub fn declare(&mut self, letter: u8) -> bool
        ensures { Declared (letters_of self.old) (letters_of self.new) letter result }
    {
        if self.letters.len() >= MOST
            || !letter.is_ascii_lowercase()
            || self.place(letter).is_some()
        {
            return false;
        }
        self.add(letter);
        true
    }

    // Which variable a letter stands for.
    pub(crate) fn place(&self, letter: u8) -> Option<u8>
        ensures { MatchOption result
            (Untaken (letters_of self.now) letter)
            (λ k. (k < length (letters_of self.now)) × (slice_index (letters_of self.now) k ≡ letter)) }
    {
        self.letters
            .iter()
            .position(|name| *name == letter)
            .map(|k| k as u8)
    }

    fn add(&mut self, letter: u8)
        requires few { length (letters_of self.old) < 8 }
        requires lowercase { (97 ≤ letter) × (letter ≤ 122) }
        requires untaken { Untaken (letters_of self.old) letter }
        ensures { letters_of self.new ≡ letters_of self.old ++ letter ∷ [] }
    {
        self.letters.push_reserved(letter);
    }
}
