// The commands of the console, with their figures as they were written.
ghost use Rattle.std.specs.Prelude.{◌∷◌, IfOk};
ghost use Rattle.language.specs.Commands.{written};
ghost use Rattle.language.specs.Language.{Reads};
ghost use Rattle.language.specs.declared.token.Token.TheVariants.{Name};

use crate::draws::{AwardArgs, DrawArgs, read_award, read_draw};
use crate::questions::{ExpiryArgs, LotArgs, read_expiry, read_lot};
use crate::token::Token;
use crate::word::Verb;
use std::alloc::{AllocError, Global};

#[derive(Debug, Drop, PartialEq, Eq)]
pub enum Command {
    Expiry(ExpiryArgs),
    Lot(LotArgs),
    Draw(DrawArgs),
    Award(AwardArgs),
}

impl Command {
    // The command that the words of a line write, if they write one.
    pub fn read(heap: Global, verb: Verb, args: &[Token]) -> Result<Option<Command>, AllocError>
        ensures { IfOk result (λ o. Reads written (Name verb ∷ args.now) o) }
    {
        Ok(match verb {
            Verb::Expiry => read_expiry(heap, args)?.map(Command::Expiry),
            Verb::Lot => read_lot(args).map(Command::Lot),
            Verb::Draw => read_draw(args).map(Command::Draw),
            Verb::Award => read_award(heap, args)?.map(Command::Award),
        })
    }
}
