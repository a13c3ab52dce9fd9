// What a word of a line is: a number, a word of the language, or neither.
ghost use Rattle.std.specs.Prelude.{◌↔◌, IsTrue};
ghost use Rattle.language.specs.Text.{Means, Numeral};

use crate::word::{Verb, Word};

#[derive(Clone, Copy, Debug, PartialEq, Eq)]
pub enum Token {
    Number(u64),
    // a number above 2^64 - 1
    TooLarge,
    Name(Verb),
    Known(Word),
    Unknown,
}

// Whether the text is a decimal number: digits, and at least one.
fn is_numeral(text: &[u8]) -> bool
    ensures { IsTrue result ↔ Numeral text.now }
{
    !text.is_empty() && text.iter().all(|b| b.is_ascii_digit())
}

impl Token {
    // What the word means.
    #[tactic(auto, using(crate::proofs::Numbers::numeral_means, crate::proofs::Numbers::unknown_unless_utf8))]
    pub fn read(text: &[u8]) -> Token
        ensures { Means text.now result }
    {
        let Ok(word) = std::str::from_utf8(text) else {
            return Token::Unknown;
        };
        if is_numeral(text) {
            return word.parse().map_or(Token::TooLarge, Token::Number);
        }
        if let Ok(verb) = word.parse() {
            return Token::Name(verb);
        }
        word.parse().map_or(Token::Unknown, Token::Known)
    }
}
