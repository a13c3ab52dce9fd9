// The interface of a draw. What consults one is proved against it alone.
ghost use Rattle.std.specs.Prelude.{◌≡◌, ℕ, List};
ghost use Rattle.draw.specs.Fair.{Fair, all_read, lots_read};

use crate::exercise::Exercise;

pub trait Draw {
    // The awards for the claims of the accounts, in their order, and a demand; and what the draw is afterwards.
    ghost awards: { Self → List ℕ → ℕ → List ℕ };

    ghost next: { Self → List ℕ → ℕ → Self };

    // One award for each claim of an exercise, which stands as a draw reads it.
    fn consult(&mut self, exercise: Exercise) -> [u32; 16]
        ensures awarded { result ≡ awards self.old exercise.claims exercise.demand }
        ensures moved { self.new ≡ next self.old exercise.claims exercise.demand };

    // One award for each claim. A claim or a demand above 10,000 is read as 10,000.
    fn award(&mut self, claims: [u32; 16], demand: u32) -> [u32; 16]
        ensures awarded { result ≡ awards self.old (all_read claims) (lots_read demand) }
        ensures moved { self.new ≡ next self.old (all_read claims) (lots_read demand) }
        ensures fair { Fair (all_read claims) (lots_read demand) result }
    {
        self.consult(Exercise::read(claims, demand))
    }

    ghost fair: { (s : Self) (claims : List ℕ) (demand : ℕ) → Fair claims demand (awards s claims demand) };
}
