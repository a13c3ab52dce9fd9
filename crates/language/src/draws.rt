// Draws, as the console names them, and what is put to the current one.
ghost use Rattle.std.specs.Prelude.{IfOk};
ghost use Rattle.language.specs.Language.{Reads, award_words, draw_words, drawing_words};

use crate::args::numbers;
use crate::token::Token;
use crate::word::Word;
use std::alloc::{AllocError, Global};

#[derive(Clone, Copy, Debug, PartialEq, Eq)]
pub enum Drawing {
    // at a place
    Wheel(u64),
    ProRata,
    // at x
    Lottery(u64),
}

#[derive(Clone, Copy, Debug, PartialEq, Eq)]
pub struct DrawArgs {
    // the most lots of an account in one round, if it goes in rounds
    pub rounds: Option<u64>,
    pub drawing: Drawing,
}

#[derive(Debug, Drop, PartialEq, Eq)]
pub struct AwardArgs {
    pub demand: u64,
    pub claims: Vec<u64>,
}

// A draw by its name and what it holds.
fn read_drawing(args: &[Token]) -> Option<Drawing>
    ensures { Reads drawing_words args.now result }
{
    match args {
        [Token::Known(Word::Wheel), Token::Number(place)] => Some(Drawing::Wheel(*place)),
        [Token::Known(Word::ProRata)] => Some(Drawing::ProRata),
        [Token::Known(Word::Lottery), Token::Number(x)] => Some(Drawing::Lottery(*x)),
        _ => None,
    }
}

// What follows DRAW.
pub fn read_draw(args: &[Token]) -> Option<DrawArgs>
    ensures { Reads draw_words args.now result }
{
    let (rounds, drawing) = match args {
        [Token::Known(Word::Rounds), Token::Number(r), drawing @ ..] => (Some(*r), drawing),
        _ => (None, args),
    };
    Some(DrawArgs {
        rounds,
        drawing: read_drawing(drawing)?,
    })
}

// What follows AWARD.
pub fn read_award(heap: Global, args: &[Token]) -> Result<Option<AwardArgs>, AllocError>
    ensures { IfOk result (λ o. Reads award_words args.now o) }
{
    let [Token::Number(demand), claims @ ..] = args else {
        return Ok(None);
    };
    Ok(numbers(heap, claims)?.map(|claims| AwardArgs {
        demand: *demand,
        claims,
    }))
}
