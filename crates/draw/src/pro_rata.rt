// Pro rata.
ghost use Rattle.std.specs.Prelude.{◌≡◌, ◌+◌, ◌-◌, ◌*◌, ◌/◌, ◌%◌, ◌<◌, ◌≤◌};
ghost use Rattle.draw.specs.ProRata.{ProRataSpreads, first_largest, one_each, parts, pro_rata, remainders};
ghost use Rattle.draw.specs.Shares.{awards_of, rests_of};
ghost use Rattle.measures.specs.Sums.{total};
ghost use Rattle.draw.specs.InProportion.{lot_more, pro_rata_fair, spent};

use crate::draw::Draw;
use crate::exercise::{Exercise, sum};

// Parts the demand in proportion to the claims. It holds nothing.
#[derive(Clone, Copy, Debug, PartialEq, Eq)]
pub struct ProRata;

// What an account is awarded, and the remainder by which it may be given a lot more.
#[derive(Clone, Copy)]
struct Share {
    award: u32,
    rest: u32,
}

// The awards of the shares.
fn awards(shares: &[Share; 16]) -> [u32; 16]
    ensures { result ≡ awards_of shares.now }
{
    std::array::from_fn(|k| shares[k].award)
}

// A claim's part of so many lots, rounded down.
fn part(lots: u32, claim: u32, all: u32) -> u32
    requires lots { lots ≤ 10_000 }
    requires claim { claim ≤ 10_000 }
    requires some { 0 < all }
    ensures { result ≡ lots * claim / all }
{
    lots * claim / all
}

// What that part leaves: the remainder of the division.
fn remainder(lots: u32, claim: u32, all: u32, part: u32) -> u32
    requires lots { lots ≤ 10_000 }
    requires claim { claim ≤ 10_000 }
    requires part { part ≡ lots * claim / all }
    ensures { result ≡ lots * claim % all }
{
    lots * claim - part * all
}

// The parts of so many lots, one for each claim.
fn parts_of(exercise: &Exercise, lots: u32) -> [u32; 16]
    requires small { lots ≤ 10_000 }
    requires some { 0 < total exercise.now.claims }
    ensures parted { result ≡ parts exercise.now.claims lots }
    ensures within { total result ≤ lots }
{
    let all = exercise.all();
    std::array::from_fn(|k| part(lots, exercise.claims[k], all))
}

// What those parts leave.
fn remainders_of(exercise: &Exercise, lots: u32, parted: &[u32; 16]) -> [u32; 16]
    requires small { lots ≤ 10_000 }
    requires parted { parted.now ≡ parts exercise.now.claims lots }
    ensures { result ≡ remainders exercise.now.claims lots }
{
    let all = exercise.all();
    std::array::from_fn(|k| remainder(lots, exercise.claims[k], all, parted[k]))
}

// The shares with these parts and remainders.
fn shares(parts: &[u32; 16], rests: &[u32; 16]) -> [Share; 16]
    ensures parted { awards_of result ≡ parts.now }
    ensures remaining { rests_of result ≡ rests.now }
{
    std::array::from_fn(|k| Share {
        award: parts[k],
        rest: rests[k],
    })
}

// The demand as it is parted: the shares of the accounts, and the lots still to be given.
#[derive(Drop)]
struct Parting {
    shares: [Share; 16],
    lots: u32,
    ghost small: { total (awards_of shares) + lots ≤ 10_000 },
}

impl Parting {
    // The lots that the parts leave are still to be given.
    fn of(exercise: &Exercise) -> Parting
        requires { exercise.now.demand < total exercise.now.claims }
        ensures parted { awards_of result.shares ≡ parts exercise.now.claims exercise.now.demand }
        ensures remaining { rests_of result.shares ≡ remainders exercise.now.claims exercise.now.demand }
        ensures lots { result.lots ≡ exercise.now.demand - total (parts exercise.now.claims exercise.now.demand) }
    {
        let parts = parts_of(exercise, exercise.demand);
        let lots = exercise.demand - sum(parts);
        let rests = remainders_of(exercise, exercise.demand, &parts);
        Parting {
            shares: shares(&parts, &rests),
            lots,
        }
    }

    // The place of the largest remainder, of the first where several are as large.
    #[tactic(auto, using(crate::proofs::Shares::rest_at))]
    fn first_largest(&self) -> usize
        ensures place { result ≡ first_largest (rests_of self.now.shares) }
        ensures inside { result < 16 }
    {
        let mut place = 0;
        for (k, share) in self.shares.iter().enumerate() {
            if self.shares[place].rest < share.rest {
                place = k;
            }
        }
        place
    }

    // One lot more to the largest remainder, which is then spent.
    #[tactic(auto, using(crate::proofs::Shares::giving))]
    fn give_one(&mut self)
        requires { 0 < self.old.lots }
        ensures given { awards_of self.new.shares ≡ lot_more (rests_of self.old.shares) (awards_of self.old.shares) }
        ensures spent { rests_of self.new.shares ≡ spent (rests_of self.old.shares) }
        ensures fewer { self.new.lots + 1 ≡ self.old.lots }
    {
        let place = self.first_largest();
        let share = self.shares[place];
        self.shares[place] = Share {
            award: share.award + 1,
            rest: 0,
        };
        self.lots -= 1;
    }

    // The lots still to be given, one each.
    #[tactic(auto, using(crate::proofs::Shares::one_turn))]
    fn one_each(mut self) -> [u32; 16]
        ensures { result ≡ one_each self.lots (rests_of self.shares) (awards_of self.shares) }
    {
        for _ in 0..self.lots {
            self.give_one();
        }
        awards(&self.shares)
    }
}

// The demand in proportion. Where it is inlined, its 32 numbers are loaded where every claim is awarded too.
#[inline(never)]
fn spread(exercise: &Exercise) -> [u32; 16]
    requires { exercise.now.demand < total exercise.now.claims }
    ensures { result ≡ pro_rata exercise.now.claims exercise.now.demand }
{
    Parting::of(exercise).one_each()
}

impl Draw for ProRata {
    ghost awards = { λ _. pro_rata };

    ghost next = { λ s _ _. s };

    ghost fair = { λ s claims demand. pro_rata_fair claims demand };

    // Every claim, or where the demand is below them all the demand in proportion.
    fn consult(&mut self, exercise: Exercise) -> [u32; 16] {
        if exercise.demand < exercise.all() {
            spread(&exercise)
        } else {
            exercise.claims
        }
    }
}

// Awards in proportion: that is all it says.
#[tactic(auto, using(crate::proofs::Proportion::pro_rata_proportional))]
pub fn pro_rata_spreads()
    ensures { ProRataSpreads }
{}
