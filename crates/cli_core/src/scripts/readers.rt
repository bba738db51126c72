//! Readers of a line, word by word.
ghost use Rattle.std.specs.Prelude.{◌≡◌, ℕ, ◌≤◌, ◌++◌, ◌∷◌, List, Some, None, IfSome, IsSomeAnd, Option, option_copied, ◌==◌};
ghost use Rattle.std.specs.List.{position};
ghost use Rattle.change_core.specs.declared.statuses.Status.{Status};
ghost use Rattle.change_core.specs.Address.{IsAddress, address_text};
ghost use Rattle.change_core.specs.Numbers.{IsWeight, greatest_number};
ghost use Rattle.change_core.specs.Numeral.{number_text};
ghost use Rattle.change_core.specs.Status.{status_word};
ghost use Rattle.cli_core.specs.ScriptLines.{IsLast, IsVisible, IsWeightWord, IsWeighted};

use change_core::{Address, Incarnation, Status, Weight};

/// Returns the place of the first space.
fn space_in(line: &[u8]) -> Option<usize>
    ensures { result ≡ position (λ x. x == 32) line.now }
{
    line.iter().position(|byte| *byte == b' ')
}

/// Returns the bytes before the first space, and those after it.
fn split_space(line: &[u8]) -> Option<(&[u8], &[u8])>
    ensures read { IfSome result (λ p. line.now ≡ p.0.now ++ 32 ∷ p.1.now) }
    ensures exact { (word rest : List ℕ) → IsVisible word → line.now ≡ word ++ 32 ∷ rest
        → IsSomeAnd result (λ p. (p.0.now ≡ word) × (p.1.now ≡ rest)) }
    ensures alone { IsVisible line.now → result ≡ None }
{
    let place = space_in(line)?;
    Some((&line[..place], &line[place + 1..]))
}

/// Reads a word as text.
pub fn read_text(word: &[u8]) -> Option<&str>
    ensures read { IfSome result (λ s. s.now ≡ word.now) }
    ensures exact { IsVisible word.now → IsSomeAnd result (λ s. s.now ≡ word.now) }
{
    str::from_utf8(word).ok()
}

/// Reads a decimal number up to 9007199254740991, with no sign and no leading zero.
pub fn read_number(word: &[u8]) -> Option<u64>
    ensures read { IfSome result (λ n. (n ≤ greatest_number) × (word.now ≡ number_text n)) }
    ensures exact { (n : ℕ) → n ≤ greatest_number → word.now ≡ number_text n → result ≡ Some n }
{
    change_core::read_number(read_text(word)?)
}

/// Reads an address.
pub fn read_address(word: &[u8]) -> Option<Address>
    ensures read { IfSome result (λ a. IsAddress a × (word.now ≡ address_text a)) }
    ensures exact { (a : ℕ) → IsAddress a → word.now ≡ address_text a → result ≡ Some a }
{
    let text = read_text(word)?;
    Address::parse(text).ok()
}

/// Reads a weight; without a word it is 1.
fn read_weight(word: Option<&[u8]>) -> Option<Weight>
    ensures read { IfSome result (λ w. IsWeightWord w (option_copied word.entry)) }
    ensures exact { (w : ℕ) → IsWeightWord w (option_copied word.entry) → result ≡ Some w }
{
    let Some(word) = word else {
        return Weight::new(1);
    };
    let number = read_number(word)?;
    Weight::new(u8::try_from(number).ok()?)
}

/// The rest of a line.
#[derive(Clone, Copy)]
pub struct LineRest<'a> {
    pub rest: &'a [u8],
}

impl<'a> LineRest<'a> {
    /// Takes a word and the space after it.
    pub fn word(&mut self) -> Option<&'a [u8]>
        ensures read { IfSome result (λ word. self.old.rest.now ≡ word.now ++ 32 ∷ self.new.rest.now) }
        ensures exact { (word rest : List ℕ) → IsVisible word → self.old.rest.now ≡ word ++ 32 ∷ rest
            → IsSomeAnd result (λ w. (w.now ≡ word) × (self.new.rest.now ≡ rest)) }
    {
        let (word, rest) = split_space(self.rest)?;
        self.rest = rest;
        Some(word)
    }

    /// Takes an address and the space after it.
    pub fn address(&mut self) -> Option<Address>
        ensures read { IfSome result (λ a. IsAddress a × (self.old.rest.now ≡ address_text a ++ 32 ∷ self.new.rest.now)) }
        ensures exact { (a : ℕ) (rest : List ℕ) → IsAddress a → self.old.rest.now ≡ address_text a ++ 32 ∷ rest
            → (result ≡ Some a) × (self.new.rest.now ≡ rest) }
    {
        let word = self.word()?;
        read_address(word)
    }

    /// Takes a number and the space after it.
    pub fn number(&mut self) -> Option<u64>
        ensures read { IfSome result (λ n. (n ≤ greatest_number) × (self.old.rest.now ≡ number_text n ++ 32 ∷ self.new.rest.now)) }
        ensures exact { (n : ℕ) (rest : List ℕ) → n ≤ greatest_number → self.old.rest.now ≡ number_text n ++ 32 ∷ rest
            → (result ≡ Some n) × (self.new.rest.now ≡ rest) }
    {
        let word = self.word()?;
        read_number(word)
    }

    /// Returns the last word, and the weight after it if there is one.
    fn last(&self) -> (&'a [u8], Option<&'a [u8]>)
        ensures read { IsLast result.0.now (option_copied result.1) self.now.rest.now }
        ensures exact { (word : List ℕ) (weight : Option (List ℕ)) → IsVisible word → IsLast word weight self.now.rest.now
            → (result.0.now ≡ word) × (option_copied result.1 ≡ weight) }
    {
        match split_space(self.rest) {
            None => (self.rest, None),
            Some((word, weight)) => (word, Some(weight)),
        }
    }

    /// Reads the incarnation at the end of the line, and the weight after it if there is one.
    pub fn incarnation(&self) -> Option<(Incarnation, Weight)>
        ensures read { IfSome result (λ p. (p.0 ≤ greatest_number) × IsWeighted (number_text p.0) p.1 self.now.rest.now) }
        ensures exact { (i w : ℕ) → i ≤ greatest_number → IsWeighted (number_text i) w self.now.rest.now → result ≡ Some (i, w) }
    {
        let (word, weight) = self.last();
        let weight = read_weight(weight)?;
        let number = read_number(word)?;
        Some((Incarnation::new(number)?, weight))
    }

    /// Reads the status at the end of the line, and the weight after it if there is one.
    pub fn status(&self) -> Option<(Status, Weight)>
        ensures read { IfSome result (λ p. IsWeighted (status_word p.0) p.1 self.now.rest.now) }
        ensures exact { (s : Status) (w : ℕ) → IsWeighted (status_word s) w self.now.rest.now → result ≡ Some (s, w) }
    {
        let (word, weight) = self.last();
        let weight = read_weight(weight)?;
        let text = read_text(word)?;
        Some((Status::parse(text)?, weight))
    }
}
