// The interface of a tariff. The book is proved against `amount` alone.
ghost use Rattle.std.specs.Prelude.{◌≡◌, ℕ, ◌≤◌};
ghost use Rattle.tariff.specs.Amounts.{most, read};
ghost use Rattle.tariff.specs.declared.lot.Lot.{Lot as LotFigures};

use crate::lot::Lot;

pub trait Tariff {
    // What one uncovered lot requires, in mils.
    ghost amount: { Self → LotFigures → ℕ };

    // The amount of one uncovered lot. Being consulted changes nothing.
    fn amount_of(&self, lot: Lot) -> u64
        ensures amount { result ≡ amount self.now lot }
        ensures bounded { result ≤ most };

    ghost bounded: { (t : Self) (lot : LotFigures) → amount t lot ≤ most };

    // A figure outside its measure is read as the nearest inside it.
    ghost nearest: { (t : Self) (lot : LotFigures) → amount t lot ≡ amount t (read lot) };
}
