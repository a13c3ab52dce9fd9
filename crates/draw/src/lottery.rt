// The lottery.
ghost use Rattle.std.specs.Prelude.{◌≡◌, ◌-◌, ◌<◌, ◌≤◌, slice_index};
ghost use Rattle.draw.specs.Lottery.{TicketsSharedOut, drawn, falls_on, left_after, lottery_awards, lottery_next, one_less, stepped, ticket, x_after};
ghost use Rattle.measures.specs.Sums.{total};
ghost use Rattle.draw.specs.Drawn.{lottery_fair};

use crate::draw::Draw;
use crate::exercise::{Exercise, less};

// Draws each lot by a ticket from a 64-bit number.
#[derive(Clone, Copy, Debug, PartialEq, Eq)]
pub struct Lottery {
    x: u64,
}

// What is left of the claims, and how many lots they are together.
#[derive(Drop)]
struct Undrawn {
    claims: [u32; 16],
    lots: u32,
    ghost whole: { lots ≡ total claims },
}

impl Undrawn {
    // The account that a ticket falls on.
    #[tactic(auto, using(crate::proofs::Tickets::passing))]
    fn falls_on(&self, mut ticket: u32) -> usize
        requires { ticket < self.now.lots }
        ensures account { result ≡ falls_on self.now.claims ticket }
        ensures claimed { 0 < slice_index self.now.claims result }
    {
        for (account, lots) in self.claims.iter().enumerate() {
            if ticket < *lots {
                return account;
            }
            ticket -= *lots;
        }
        unreachable!()
    }

    // One lot of the account is awarded.
    #[tactic(auto, using(crate::proofs::Tickets::taking))]
    fn take(&mut self, account: usize)
        requires { 0 < slice_index self.old.claims account }
        ensures { self.new.claims ≡ one_less self.old.claims account }
    {
        self.claims[account] -= 1;
        self.lots -= 1;
    }
}

fn step(x: u64) -> u64
    ensures { result ≡ stepped x }
{
    x.wrapping_mul(6_364_136_223_846_793_005)
        .wrapping_add(1_442_695_040_888_963_407)
}

// The ticket that x draws of so many lots.
fn ticket_of(x: u64, lots: u32) -> u32
    requires { 0 < lots }
    ensures { result ≡ ticket x lots }
{
    (x >> 32) as u32 % lots
}

impl Lottery {
    pub fn at(x: u64) -> Lottery
        ensures { result.x ≡ x }
    {
        Lottery { x }
    }

    // Draws one of the lots left.
    fn draw_lot(&mut self, left: &mut Undrawn)
        requires { 0 < left.old.lots }
        ensures moved { self.new.x ≡ stepped self.old.x }
        ensures remaining { left.new.claims ≡ drawn left.old.claims (stepped self.old.x) }
    {
        let next = step(self.x);
        let account = left.falls_on(ticket_of(next, left.lots));
        left.take(account);
        self.x = next;
    }

    // Draws so many of the lots left.
    fn draw_lots(&mut self, left: &mut Undrawn, lots: u32)
        requires { lots ≤ left.old.lots }
        ensures moved { self.new.x ≡ x_after lots self.old.x }
        ensures remaining { left.new.claims ≡ left_after lots self.old.x left.old.claims }
    {
        for _ in 0..lots {
            self.draw_lot(left);
        }
    }
}

impl Draw for Lottery {
    ghost awards = { λ s. lottery_awards s.x };

    ghost next = { λ s claims demand. record { x = lottery_next s.x claims demand } };

    ghost fair = { λ s. lottery_fair s.x };

    // Inlined, for a call would copy the exercise once more.
    #[inline(always)]
    fn consult(&mut self, exercise: Exercise) -> [u32; 16] {
        let claims = exercise.claims;
        let lots = exercise.all();
        let mut left = Undrawn { claims, lots };
        self.draw_lots(&mut left, exercise.demand.min(lots));
        less(claims, left.claims)
    }
}

// Each ticket is one account's, and each account has as many as lots: that is all it says.
#[tactic(auto, using(crate::proofs::Tickets::tickets_shared_out))]
pub fn tickets_shared_out()
    ensures { TicketsSharedOut }
{}
