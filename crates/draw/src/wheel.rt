// The wheel.
ghost use Rattle.std.specs.Prelude.{◌≡◌, ◌+◌, ◌-◌, ◌%◌, ◌<◌, ◌≤◌, length};
ghost use Rattle.std.proofs.Common.{mod-lt, zero-lt-suc};
ghost use Rattle.draw.specs.Turning.{wheel_fair};
ghost use Rattle.draw.specs.Wheel.{WheelGoesRound, after_last, filled, next_place, wheel_awards};
ghost use Rattle.measures.specs.Sums.{total};

use crate::draw::Draw;
use crate::exercise::Exercise;

// Fills claims from the account at its place on, going round.
#[derive(Clone, Copy, Debug, PartialEq, Eq)]
pub struct Wheel {
    place: usize,
    ghost inside: { place < 16 },
}

impl Wheel {
    // The wheel at a place, modulo 16.
    pub fn at(place: u64) -> Wheel
        ensures { result.place ≡ place % 16 }
    {
        Wheel {
            place: (place % 16) as usize,
        }
    }

    // The awards from the account at the place on, going round.
    fn go_round(self, exercise: Exercise) -> [u32; 16]
        ensures { result ≡ wheel_awards self.place exercise.claims exercise.demand }
    {
        let mut awards = exercise.claims;
        let left = fill(&mut awards[self.place..], exercise.demand);
        fill(&mut awards[..self.place], left);
        awards
    }

    // The place that follows the last account awarded on the way round, or else this one.
    fn next_place(self, awards: [u32; 16]) -> usize
        ensures { result ≡ next_place self.place awards }
    {
        let (before, on) = awards.split_at(self.place);
        let after = after_last(self.place, self.place, on);
        after_last(after, 0, before) % 16
    }
}

// Turns claims into awards, one after another while the demand lasts, and tells what is left of it.
fn fill(claims: &mut [u32], demand: u32) -> u32
    ensures awards { claims.new ≡ filled claims.old demand }
    ensures left { result ≡ demand - total claims.old }
{
    let mut left = demand;
    for claim in claims.iter_mut() {
        let award = (*claim).min(left);
        *claim = award;
        left -= award;
    }
    left
}

// The account after the last one awarded, where the awards begin with that of `account`; else the place.
fn after_last(place: usize, account: usize, awards: &[u32]) -> usize
    requires { account + length awards.now ≤ 16 }
    ensures { result ≡ after_last place account awards.now }
{
    match awards.iter().rposition(|award| *award > 0) {
        Some(k) => account + k + 1,
        None => place,
    }
}

impl Draw for Wheel {
    ghost awards = { λ w. wheel_awards w.place };

    ghost next = { λ w claims demand. record { place = next_place w.place (wheel_awards w.place claims demand); inside = mod-lt _ (zero-lt-suc 15) } };

    ghost fair = { λ w. wheel_fair w.place };

    fn consult(&mut self, exercise: Exercise) -> [u32; 16] {
        let awards = self.go_round(exercise);
        self.place = self.next_place(awards);
        awards
    }
}

// Accounts are served in turn, and the place follows the last one awarded: that is all it says.
pub fn wheel_goes_round()
    ensures { WheelGoesRound }
{}
