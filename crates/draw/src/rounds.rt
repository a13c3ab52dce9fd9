// Rounds over any draw.
ghost use Rattle.std.specs.Prelude.{◌≡◌, ℕ, ◌≤◌, List, ⊤};
ghost use Rattle.draw.specs.Held.{rounds_fair};
ghost use Rattle.draw.specs.Rounds.{Until, round, rounds_awards, rounds_end, rounds_next, standing};
ghost use Rattle.measures.specs.Ranges.{lots_measure, read_as};

use crate::draw::Draw;
use crate::exercise::{Exercise, less};
use measures::Measure;
use std::alloc::AllocError;

// Puts the claims to the draw below in rounds of so many lots for each account.
#[derive(Copy, Debug, PartialEq, Eq)]
pub struct Rounds<D> {
    most: u32,
    below: D,
    ghost some: { 1 ≤ most },
}

// `Copy` asks for it. By hand it says that the copy is the same, whatever D; a derived one says only what the clone of D does.
impl<D: Copy> Clone for Rounds<D> {
    ghost is_clone = { λ s copy. copy ≡ s };

    ghost is_infallible = { λ _. ⊤ };

    fn clone(&self) -> Result<Self, AllocError> {
        Ok(*self)
    }
}

impl<D> Rounds<D> {
    // Rounds of r over a draw, r read as the nearest of 1 to 10,000.
    pub fn of(r: u32, below: D) -> Rounds<D>
        ensures most { result.most ≡ read_as lots_measure r }
        ensures below { result.below ≡ below }
    {
        Rounds {
            most: Measure::LOTS.nearest(r),
            below,
        }
    }
}

impl<D: Draw> Rounds<D> {
    // One round: the cut claims are put to the draw below, and its awards are taken off the exercise.
    fn round(&mut self, exercise: Exercise) -> Exercise
        ensures held { standing self.new.below result.claims result.demand ≡ round D.Draw.awards D.Draw.next self.old.most (standing self.old.below exercise.claims exercise.demand) }
        ensures most { self.new.most ≡ self.old.most }
    {
        let awards = self.below.consult(exercise.cut(self.most));
        exercise.less(awards)
    }

    // Rounds are held until the demand or the claims are used up, and no longer: that is all it says.
    #[tactic(auto, using(crate::specs::Held::rounds_until))]
    pub fn until_used_up(&self)
        ensures { (claims : List ℕ) (demand : ℕ) → Until D.Draw.awards D.Draw.next self.now.most (standing self.now.below claims demand) (rounds_end D.Draw.awards D.Draw.next self.now.most self.now.below claims demand) }
    {}
}

impl<D: Draw> Draw for Rounds<D> {
    ghost awards = { λ s. rounds_awards D.Draw.awards D.Draw.next s.most s.below };

    ghost next = { λ s claims demand. record { most = s.most; below = rounds_next D.Draw.awards D.Draw.next s.most s.below claims demand; some = s.some } };

    ghost fair = { λ s. rounds_fair D.Draw.awards D.Draw.next s.most s.some D.Draw.fair s.below };

    fn consult(&mut self, exercise: Exercise) -> [u32; 16] {
        let mut left = exercise;
        while !left.used_up() {
            left = self.round(left);
        }
        less(exercise.claims, left.claims)
    }
}
