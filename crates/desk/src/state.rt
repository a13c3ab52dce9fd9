// What the desk keeps from one command to the next.
ghost use Rattle.std.specs.Prelude.{◌≡◌};
ghost use Rattle.desk.specs.State.{first_draw};

use draw::{Choice, Plain};

#[derive(Debug, Drop, PartialEq, Eq)]
pub struct Desk {
    // the draw that is consulted, which goes on from where it is
    pub draw: Choice,
}

impl Desk {
    pub fn new() -> Desk
        ensures { result.draw ≡ first_draw }
    {
        Desk {
            draw: Choice::Plain(Plain::wheel(0)),
        }
    }
}
