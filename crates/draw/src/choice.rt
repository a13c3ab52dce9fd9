// A draw that is chosen when the program runs.
ghost use Rattle.std.specs.Prelude.{◌≡◌};
ghost use Rattle.draw.specs.Choice.{choice_awards, choice_next, lottery_at, plain_awards, plain_next, pro_rata_draw, rounds_over, wheel_at};
ghost use Rattle.draw.specs.Chosen.{plain_fair, choice_fair};

use crate::draw::Draw;
use crate::exercise::Exercise;
use crate::lottery::Lottery;
use crate::pro_rata::ProRata;
use crate::rounds::Rounds;
use crate::wheel::Wheel;

// A draw over no other.
#[derive(Clone, Copy, Debug, PartialEq, Eq)]
pub enum Plain {
    Wheel(Wheel),
    ProRata(ProRata),
    Lottery(Lottery),
}

impl Plain {
    pub fn wheel(place: u64) -> Plain
        ensures { result ≡ wheel_at place }
    {
        Plain::Wheel(Wheel::at(place))
    }

    pub fn pro_rata() -> Plain
        ensures { result ≡ pro_rata_draw }
    {
        Plain::ProRata(ProRata)
    }

    pub fn lottery(x: u64) -> Plain
        ensures { result ≡ lottery_at x }
    {
        Plain::Lottery(Lottery::at(x))
    }
}

impl Draw for Plain {
    ghost awards = { plain_awards };

    ghost next = { plain_next };

    ghost fair = { plain_fair };

    // Inlined, for each call would copy the exercise once more.
    #[inline(always)]
    fn consult(&mut self, exercise: Exercise) -> [u32; 16] {
        match self {
            Plain::Wheel(draw) => draw.consult(exercise),
            Plain::ProRata(draw) => draw.consult(exercise),
            Plain::Lottery(draw) => draw.consult(exercise),
        }
    }
}

// One of those, or rounds over it.
#[derive(Clone, Copy, Debug, PartialEq, Eq)]
pub enum Choice {
    Plain(Plain),
    InRounds(Rounds<Plain>),
}

impl Choice {
    pub fn rounds(r: u32, below: Plain) -> Choice
        ensures { result ≡ rounds_over r below }
    {
        Choice::InRounds(Rounds::of(r, below))
    }
}

impl Draw for Choice {
    ghost awards = { choice_awards };

    ghost next = { choice_next };

    ghost fair = { choice_fair };

    fn consult(&mut self, exercise: Exercise) -> [u32; 16] {
        match self {
            Choice::Plain(draw) => draw.consult(exercise),
            Choice::InRounds(draw) => draw.consult(exercise),
        }
    }
}
