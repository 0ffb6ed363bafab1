// The words of a line, separated by single spaces.
ghost use Rattle.std.specs.Prelude.{◌≡◌, ◌⊎◌, [], ◌∷◌, MatchResult, ◌≢◌};
ghost use Rattle.replay.specs.Commands.{BytesIn, NumberIn};
ghost use Rattle.replay.specs.Hex.{HexText};
ghost use Rattle.replay.specs.Lines.{Amiss, Taken, Took, words_left, words_of};
ghost use Rattle.numerals.specs.Numbers.{Decimal};
ghost use Rattle.replay.specs.declared.trouble.Trouble.TheVariants.{BadBytes, BadNumber, NoMemory, WordMissing, WordSurplus};

use crate::hex;
use crate::trouble::Trouble;
use numerals::decimal;
use std::alloc::Global;

// What is left of a line, if anything is: a line that ends with a space has an empty word left.
#[derive(Drop)]
pub struct Words<'a> {
    left: Option<&'a str>,
}

impl<'a> Words<'a> {
    pub fn of(line: &'a str) -> Words<'a>
        ensures { words_left result.left ≡ words_of line.now }
    {
        Words { left: Some(line) }
    }

    fn take(&mut self) -> Option<&'a str>
        ensures { Taken (words_left self.old.left) result (words_left self.new.left) }
    {
        let text = self.left.take()?;
        let Some((word, rest)) = text.split_once(' ') else {
            return Some(text);
        };
        self.left = Some(rest);
        Some(word)
    }

    pub fn word(&mut self) -> Result<&'a str, Trouble>
        ensures { MatchResult result (λ w. words_left self.old.left ≡ w.now ∷ words_left self.new.left) (λ e. (e ≡ WordMissing) × (words_left self.old.left ≡ [])) }
    {
        self.take().ok_or(Trouble::WordMissing)
    }

    pub fn number(&mut self) -> Result<usize, Trouble>
        ensures { MatchResult result (λ n. Took (NumberIn n) (words_left self.old.left) (words_left self.new.left)) (λ e. Amiss Decimal BadNumber (words_left self.old.left) e) }
    {
        let word = self.word()?;
        decimal(word).ok_or(Trouble::BadNumber)
    }

    pub fn bytes(&mut self, heap: Global) -> Result<Vec<u8>, Trouble>
        ensures { MatchResult result (λ v. Took (BytesIn v) (words_left self.old.left) (words_left self.new.left)) (λ e. (e ≡ NoMemory) ⊎ Amiss HexText BadBytes (words_left self.old.left) e) }
    {
        let word = self.word()?;
        hex::decode(heap, word.as_bytes())
    }

    // That no word is left.
    pub fn end(&mut self) -> Result<(), Trouble>
        ensures { MatchResult result (λ _. words_left self.old.left ≡ []) (λ e. (e ≡ WordSurplus) × (words_left self.old.left ≢ [])) }
    {
        if self.take().is_some() {
            return Err(Trouble::WordSurplus);
        }
        Ok(())
    }
}
