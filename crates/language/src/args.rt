// What the tokens that follow the name of a command stand for.
ghost use Rattle.std.specs.Prelude.{◌≡◌, map, IfOk, MatchOption};
ghost use Rattle.language.specs.Language.{NotNumbers, class_word, market_word, year_of};
ghost use Rattle.language.specs.Text.{Parses};
ghost use Rattle.language.specs.declared.token.Token.TheVariants.{Number};

use crate::token::Token;
use crate::word::{UnknownWord, Word};
use std::alloc::{AllocError, Global};
use tariff::{Class, Delivered, Tariff1996, Tariff2017};

// What an option is on, where its expiry date is asked for.
#[derive(Clone, Copy, Debug, PartialEq, Eq)]
pub enum Market {
    Shares,
    Bonds,
}

impl TryFrom<Token> for Market {
    type Error = UnknownWord;

    ghost try_from_gives = { Parses market_word };

    fn try_from(token: Token) -> Result<Market, UnknownWord> {
        match token {
            Token::Known(Word::Shares) => Ok(Market::Shares),
            Token::Known(Word::Bonds) => Ok(Market::Bonds),
            _ => Err(UnknownWord),
        }
    }
}

impl TryFrom<Token> for Class {
    type Error = UnknownWord;

    ghost try_from_gives = { Parses class_word };

    fn try_from(token: Token) -> Result<Class, UnknownWord> {
        match token {
            Token::Known(Word::Call) => Ok(Class::Call),
            Token::Known(Word::Put) => Ok(Class::Put),
            _ => Err(UnknownWord),
        }
    }
}

// A tariff is named by its year.
impl TryFrom<Token> for Delivered {
    type Error = UnknownWord;

    ghost try_from_gives = { Parses (λ tariff. Number (year_of tariff)) };

    fn try_from(token: Token) -> Result<Delivered, UnknownWord> {
        match token {
            Token::Number(2017) => Ok(Delivered::Of2017(Tariff2017)),
            Token::Number(1996) => Ok(Delivered::Of1996(Tariff1996)),
            _ => Err(UnknownWord),
        }
    }
}

// The numbers, where all of the tokens are numbers.
pub fn numbers(heap: Global, tokens: &[Token]) -> Result<Option<Vec<u64>>, AllocError>
    ensures { IfOk result (λ o. MatchOption o (NotNumbers tokens.now) (λ v. tokens.now ≡ map Number v.items)) }
{
    let mut all = Vec::new(heap);
    for token in tokens {
        let Token::Number(n) = *token else {
            return Ok(None);
        };
        all.push(n)?;
    }
    Ok(Some(all))
}
