// Commands performed.
ghost use Rattle.std.specs.Prelude.{◌≡◌, ◌≤◌, map, length, IfOk, nat_le};
ghost use Rattle.desk.specs.Console.{Awarded, Expires, Performs, claims_of, draw_of, drawing_of, figure_of, lot_of};

use crate::answer::{Answer, Fault};
use crate::state::Desk;
use draw::{Choice, Draw, Plain};
use language::{Command, DrawArgs, Drawing, LotArgs, Market, Verb};
use measures::Refusal;
use std::alloc::{AllocError, Global};
use std::array;
use tariff::{Lot, Tariff};

// A number too large for a figure is read as the largest one, which lies outside every measure.
fn figure(n: u64) -> u32
    ensures { result ≡ figure_of n }
{
    u32::try_from(n).unwrap_or(u32::MAX)
}

// The numbers as figures.
fn figures(heap: Global, ns: &[u64]) -> Result<Vec<u32>, AllocError>
    ensures { IfOk result (λ v. v.items ≡ map figure_of ns.now) }
{
    ns.iter().map(|n| figure(*n)).collect(heap)
}

// The expiry date on that market, or its refusal.
fn expiry(market: Market, year: u32, month: u32, holidays: &[u32]) -> Answer
    ensures { Expires market year month holidays.now result }
{
    match market {
        Market::Shares => calendar::shares(year, month, holidays).into(),
        Market::Bonds => calendar::bonds(year, month, holidays).into(),
    }
}

// The lot that is asked for.
fn lot_of(args: LotArgs) -> Lot
    ensures { result ≡ lot_of args }
{
    Lot {
        class: args.class,
        strike: figure(args.strike),
        basis: figure(args.basis),
        spot: figure(args.spot),
        percentage: figure(args.percentage),
        size: figure(args.size),
    }
}

// The draw that is named.
fn named(drawing: Drawing) -> Plain
    ensures { result ≡ drawing_of drawing }
{
    match drawing {
        Drawing::Wheel(place) => Plain::wheel(place),
        Drawing::ProRata => Plain::pro_rata(),
        Drawing::Lottery(x) => Plain::lottery(x),
    }
}

fn chosen(args: DrawArgs) -> Choice
    ensures { result ≡ draw_of args.rounds (drawing_of args.drawing) }
{
    let below = named(args.drawing);
    match args.rounds {
        None => Choice::Plain(below),
        Some(r) => Choice::rounds(figure(r), below),
    }
}

// The claims that are given, and noughts for the accounts after them.
fn claims_of(ns: &[u64]) -> [u32; 16]
    requires { length ns.now ≤ 16 }
    ensures { result ≡ claims_of ns.now }
{
    array::from_fn(|account| ns.get(account).map_or(0, |n| figure(*n)))
}

impl Desk {
    // Consults the current draw.
    fn award(&mut self, claims: &[u64], demand: u32) -> Answer
        ensures { Awarded (nat_le (length claims.now) 16) self.old (claims_of claims.now) demand result self.new }
    {
        if claims.len() > 16 {
            return Answer::Error(Fault::Usage(Verb::Award));
        }
        Answer::Awards(self.draw.award(claims_of(claims), demand))
    }

    // Performs the command, and tells the answer that is laid down for it.
    pub fn perform(&mut self, heap: Global, command: Command) -> Result<Answer, AllocError>
        ensures { IfOk result (λ a. Performs command self.old a self.new) }
    {
        match command {
            Command::Expiry(args) => {
                let holidays = figures(heap, &args.holidays)?;
                Ok(expiry(
                    args.market,
                    figure(args.year),
                    figure(args.month),
                    &holidays,
                ))
            }
            Command::Lot(args) => Ok(Answer::Value(args.tariff.amount_of(lot_of(args)))),
            Command::Draw(args) => {
                self.draw = chosen(args);
                Ok(Answer::Done)
            }
            Command::Award(args) => Ok(self.award(&args.claims, figure(args.demand))),
        }
    }
}
