// What is put to a draw.
ghost use Rattle.std.specs.Prelude.{◌≡◌, ◌-◌, ◌^◌, ◌<◌, ◌≤◌, min};
ghost use Rattle.draw.specs.Fair.{Read, all_read, less, lots_read};
ghost use Rattle.draw.specs.Rounds.{cut, used_up};
ghost use Rattle.measures.specs.Sums.{total};

// The claims of the accounts, in their order, and a demand, as a draw reads them.
#[derive(Clone, Copy, Debug, PartialEq, Eq)]
pub struct Exercise {
    pub claims: [u32; 16],
    pub demand: u32,
    ghost read: { Read claims },
    ghost small: { demand ≤ 10_000 },
}

// A figure as a draw reads it.
fn lots_read(n: u32) -> u32
    ensures { result ≡ lots_read n }
{
    n.min(10_000)
}

// A claim cut to r.
fn cut_to(claim: u32, r: u32) -> u32
    ensures { result ≡ min claim r }
{
    claim.min(r)
}

// Entry by entry, the first lots less the second.
pub(crate) fn less(lots: [u32; 16], others: [u32; 16]) -> [u32; 16]
    ensures { result ≡ less lots others }
{
    std::array::from_fn(|k| lots[k].saturating_sub(others[k]))
}

// All lots together.
pub(crate) fn sum(lots: [u32; 16]) -> u32
    requires { total lots < 2 ^ 32 }
    ensures { result ≡ total lots }
{
    lots.iter().sum()
}

impl Exercise {
    // The figures as a draw reads them.
    pub fn read(claims: [u32; 16], demand: u32) -> Exercise
        ensures claims { result.claims ≡ all_read claims }
        ensures demand { result.demand ≡ lots_read demand }
    {
        Exercise {
            claims: std::array::from_fn(|k| lots_read(claims[k])),
            demand: lots_read(demand),
        }
    }

    // All claims together.
    pub(crate) fn all(self) -> u32
        ensures { result ≡ total self.claims }
    {
        sum(self.claims)
    }

    // Whether the demand or the claims are used up.
    pub(crate) fn used_up(self) -> bool
        ensures { result ≡ used_up self.claims self.demand }
    {
        self.demand == 0 || self.all() == 0
    }

    // Every claim cut to r.
    pub(crate) fn cut(self, r: u32) -> Exercise
        ensures claims { result.claims ≡ cut r self.claims }
        ensures demand { result.demand ≡ self.demand }
    {
        Exercise {
            claims: std::array::from_fn(|k| cut_to(self.claims[k], r)),
            demand: self.demand,
        }
    }

    // What awards leave of it.
    pub(crate) fn less(self, awards: [u32; 16]) -> Exercise
        requires { total awards ≤ self.demand }
        ensures claims { result.claims ≡ less self.claims awards }
        ensures demand { result.demand ≡ self.demand - total awards }
    {
        Exercise {
            claims: less(self.claims, awards),
            demand: self.demand - sum(awards),
        }
    }
}
