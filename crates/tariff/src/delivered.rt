// The two tariffs that are delivered, and the choice between them at run time.
ghost use Rattle.std.proofs.Common.{refl};
ghost use Rattle.tariff.specs.Amounts.{amount_1996, amount_2017, amount_of_choice, rule_1996, rule_2017, rule_of_choice};
ghost use Rattle.tariff.specs.Bounds.{bounded_1996, bounded_2017};
ghost use Rattle.tariff.specs.declared.delivered.Delivered.TheVariants.{Of2017, Of1996};

use crate::lot::Lot;
use crate::rule::Rule;

// The tariff of 2017: the basis, and two or three times the list percentage of it.
#[derive(Clone, Copy, Debug, PartialEq, Eq)]
pub struct Tariff2017;

impl Rule for Tariff2017 {
    ghost requirement = { λ _. amount_2017 };

    ghost rule = { λ _. rule_2017 };

    ghost reads = { λ _ _. refl };

    ghost bounded = { λ _. bounded_2017 };

    #[tactic(auto, using(crate::specs::Bounds::product_bounded))]
    fn required(&self, lot: Lot) -> u64 {
        let value = u64::from(lot.basis) * u64::from(lot.size);
        let share = 10_000 + lot.times() * u64::from(lot.percentage);
        (value * share).div_ceil(10_000)
    }
}

// The tariff of 1996: twice the basis, or a tenth of the strike, the greater.
#[derive(Clone, Copy, Debug, PartialEq, Eq)]
pub struct Tariff1996;

impl Rule for Tariff1996 {
    ghost requirement = { λ _. amount_1996 };

    ghost rule = { λ _. rule_1996 };

    ghost reads = { λ _ _. refl };

    ghost bounded = { λ _. bounded_1996 };

    fn required(&self, lot: Lot) -> u64 {
        let size = u64::from(lot.size);
        let double = 2 * u64::from(lot.basis) * size;
        let tenth = (u64::from(lot.strike) * size).div_ceil(10);
        double.max(tenth)
    }
}

// One of the two, chosen when the program runs.
#[derive(Clone, Copy, Debug, PartialEq, Eq)]
pub enum Delivered {
    Of2017(Tariff2017),
    Of1996(Tariff1996),
}

impl Rule for Delivered {
    ghost requirement = { amount_of_choice };

    ghost rule = { rule_of_choice };

    ghost reads = { elim [ Of2017 _ ↦ λ _. refl | Of1996 _ ↦ λ _. refl ] };

    ghost bounded = { elim [ Of2017 _ ↦ bounded_2017 | Of1996 _ ↦ bounded_1996 ] };

    fn required(&self, lot: Lot) -> u64 {
        match self {
            Delivered::Of2017(tariff) => tariff.required(lot),
            Delivered::Of1996(tariff) => tariff.required(lot),
        }
    }
}
