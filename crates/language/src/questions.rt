// Questions that need no book: expiry dates, and the requirement of one lot.
ghost use Rattle.std.specs.Prelude.{IfOk};
ghost use Rattle.language.specs.Language.{Reads, expiry_words, lot_words};

use crate::args::{Market, numbers};
use crate::token::Token;
use std::alloc::{AllocError, Global};
use tariff::{Class, Delivered};

#[derive(Debug, Drop, PartialEq, Eq)]
pub struct ExpiryArgs {
    pub market: Market,
    pub year: u64,
    pub month: u64,
    pub holidays: Vec<u64>,
}

#[derive(Clone, Copy, Debug, PartialEq, Eq)]
pub struct LotArgs {
    pub tariff: Delivered,
    pub class: Class,
    pub strike: u64,
    pub basis: u64,
    pub spot: u64,
    pub percentage: u64,
    pub size: u64,
}

// What follows EXPIRY.
pub fn read_expiry(heap: Global, args: &[Token]) -> Result<Option<ExpiryArgs>, AllocError>
    ensures { IfOk result (λ o. Reads expiry_words args.now o) }
{
    let [
        market,
        Token::Number(year),
        Token::Number(month),
        holidays @ ..,
    ] = args
    else {
        return Ok(None);
    };
    let Ok(market) = Market::try_from(*market) else {
        return Ok(None);
    };
    Ok(numbers(heap, holidays)?.map(|holidays| ExpiryArgs {
        market,
        year: *year,
        month: *month,
        holidays,
    }))
}

// What follows LOT.
pub fn read_lot(args: &[Token]) -> Option<LotArgs>
    ensures { Reads lot_words args.now result }
{
    let [tariff, class, figures @ ..] = args else {
        return None;
    };
    let [
        Token::Number(strike),
        Token::Number(basis),
        Token::Number(spot),
        Token::Number(percentage),
        Token::Number(size),
    ] = *figures
    else {
        return None;
    };
    Some(LotArgs {
        tariff: Delivered::try_from(*tariff).ok()?,
        class: Class::try_from(*class).ok()?,
        strike,
        basis,
        spot,
        percentage,
        size,
    })
}
