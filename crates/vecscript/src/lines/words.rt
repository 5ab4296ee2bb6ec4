//! The words of a line, and the numbers that they denote.
ghost use Rattle.std.specs.Prelude.{◌≡◌, ◌≢◌, ℕ, ◌^◌, ◌<◌, ◌≤◌, [], ◌∷◌, List, Option, drop, length, take, IfNone, IfSome, MatchBool, MatchOption, OnSome};
ghost use Rattle.std.specs.Iterator.{YieldsFirstRef, item_count};
ghost use Rattle.std.specs.List.{position_or_len, prefix_len};
ghost use Rattle.std.specs.Option.{SomeIff};
ghost use Rattle.std.specs.Str.Parse.{AllDigits, IsNumeral, digits_value};
ghost use Rattle.vecscript.specs.Lines.{is_blank, words_of, Denotes, IsHint};

// Returns the hint that the word denotes: a number, or no hint if it is a hyphen.
pub(super) fn hint(word: &[u8]) -> Option<Option<usize>>
    ensures { MatchOption result ((h : Option ℕ) → ¬ (IsHint word.now h)) (IsHint word.now) }
{
    if word == b"-".as_slice() {
        return Some(None);
    }
    number(word).map(|n| Some(n))
}

// Returns the number that the word denotes in decimal digits, if it fits.
#[tactic(auto, using(crate::proofs::Numbers::whole_word))]
fn number(word: &[u8]) -> Option<usize>
    ensures { SomeIff result (IsNumeral 10 word.now × (digits_value 10 word.now < 2 ^ 64))
        (digits_value 10 word.now) }
{
    if word.is_empty() {
        return None;
    }
    let (value, rest) = first_number(word)?;
    if rest.is_empty() {
        Some(value as usize)
    } else {
        None
    }
}

// Returns the number that the bytes before the first blank of the line denote, and the bytes after
// them. Returns `None` if one of them is not a decimal digit or the number does not fit. No digits
// denote 0.
#[tactic(auto, using(crate::proofs::Numbers::digits))]
fn first_number(line: &[u8]) -> Option<(u64, &[u8])>
    ensures some { IfSome result
        (λ r. let word = take (position_or_len is_blank line.now) line.now in
        AllDigits 10 word × (r.0 ≡ digits_value 10 word)
        × (r.1.now ≡ drop (position_or_len is_blank line.now) line.now)
        × (r.0 < 2 ^ 64)) }
    ensures none { IfNone result (let word = take (position_or_len is_blank line.now) line.now in
        ¬ (AllDigits 10 word × (digits_value 10 word < 2 ^ 64))) }
{
    let mut value: u64 = 0;
    'digits: for (index, byte) in line.iter().enumerate() {
        if !byte.is_ascii_digit() {
            return if is_blank(*byte) {
                Some((value, &line[index..]))
            } else {
                None
            };
        }
        value = value.checked_mul(10)?.checked_add((*byte - b'0') as u64)?;
    }
    Some((value, &line[line.len()..]))
}

// The words of a line, which are separated by spaces and tabs.
#[derive(Drop)]
pub(super) struct Words<'a> {
    pub(super) rest: &'a [u8],
}

impl<'a> Iterator for Words<'a> {
    type Item = &'a [u8];

    ghost next_gives = { YieldsFirstRef (λ words. words_of words.rest.now) };

    ghost remaining = { item_count (λ words. words_of words.rest.now) };

    #[tactic(auto, using(crate::proofs::Words::first_word))]
    fn next(&mut self) -> Option<&'a [u8]> {
        let (_, line) = self.rest.split_at(blank_count(self.rest));
        let (word, rest) = line.split_at(word_length(line));
        self.rest = rest;
        if word.is_empty() { None } else { Some(word) }
    }
}

impl Words<'_> {
    // Returns whether no word remains.
    pub(super) fn is_empty(&self) -> bool
        ensures { MatchBool result (words_of self.now.rest.now ≡ [])
            (words_of self.now.rest.now ≢ []) }
    {
        blank_count(self.rest) == self.rest.len()
    }

    // Returns the element that the next word denotes, if there is one and it denotes one.
    pub(super) fn element(&mut self) -> Option<u32>
        ensures some { IfSome result (λ x. (word : List ℕ)
            × (words_of self.old.rest.now ≡ word ∷ words_of self.new.rest.now)
            × Denotes (2 ^ 32) word x) }
        ensures none { IfNone result ((word : List ℕ) (rest : List (List ℕ)) (x : ℕ)
            → words_of self.old.rest.now ≡ word ∷ rest → ¬ (Denotes (2 ^ 32) word x)) }
        ensures fewer { OnSome result (length self.new.rest.now < length self.old.rest.now) }
    {
        let x = self.number()?;
        if x <= u32::MAX as usize {
            Some(x as u32)
        } else {
            None
        }
    }

    // Returns the hint that the next word denotes, if there is one and it denotes one.
    pub(super) fn hint(&mut self) -> Option<Option<usize>>
        ensures some { IfSome result (λ h. (word : List ℕ)
            × (words_of self.old.rest.now ≡ word ∷ words_of self.new.rest.now) × IsHint word h) }
        ensures none { IfNone result ((word : List ℕ) (rest : List (List ℕ)) (h : Option ℕ)
            → words_of self.old.rest.now ≡ word ∷ rest → ¬ (IsHint word h)) }
    {
        let word = self.next()?;
        hint(word)
    }

    // Returns the number that the next word denotes, if there is one and it denotes one.
    #[tactic(auto, using(crate::proofs::Words::first_word))]
    pub(super) fn number(&mut self) -> Option<usize>
        ensures some { IfSome result (λ n. (word : List ℕ)
            × (words_of self.old.rest.now ≡ word ∷ words_of self.new.rest.now)
            × Denotes (2 ^ 64) word n) }
        ensures none { IfNone result ((word : List ℕ) (rest : List (List ℕ)) (n : ℕ)
            → words_of self.old.rest.now ≡ word ∷ rest → ¬ (Denotes (2 ^ 64) word n)) }
        ensures fewer { OnSome result (length self.new.rest.now < length self.old.rest.now) }
    {
        let (_, line) = self.rest.split_at(blank_count(self.rest));
        if line.is_empty() {
            return None;
        }
        let (value, rest) = first_number(line)?;
        self.rest = rest;
        Some(value as usize)
    }
}

// Returns the number of blanks at the start of the line.
fn blank_count(line: &[u8]) -> usize
    ensures count { result ≡ prefix_len is_blank line.now }
    ensures bound { result ≤ length line.now }
{
    line.iter().take_while(|byte| is_blank(**byte)).count()
}

// Returns the number of bytes before the first blank of the line.
fn word_length(line: &[u8]) -> usize
    ensures length { result ≡ position_or_len is_blank line.now }
    ensures bound { result ≤ length line.now }
{
    line.iter().take_while(|byte| !is_blank(**byte)).count()
}

// Returns whether the byte is a space or a tab.
fn is_blank(byte: u8) -> bool
    ensures { result ≡ is_blank byte }
{
    byte == b' ' || byte == b'\t'
}
