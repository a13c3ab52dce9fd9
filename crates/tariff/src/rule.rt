// What is laid down for a lot whose figures lie in their measures. Whatever has a rule is a tariff.
ghost use Rattle.std.specs.Prelude.{◌≡◌, ℕ, ◌≤◌};
ghost use Rattle.std.proofs.Common.{sym, subst, ◌∙◌};
ghost use Rattle.tariff.specs.Amounts.{Measured, most, read};
ghost use Rattle.tariff.specs.Bounds.{read_measured, read_once};
ghost use Rattle.tariff.specs.declared.lot.Lot.{Lot as LotFigures};

use crate::lot::Lot;
use crate::tariff::Tariff;

pub(crate) trait Rule {
    // What a lot requires, in mils, whatever its figures.
    ghost requirement: { Self → LotFigures → ℕ };

    // What is laid down for it, where its figures lie in their measures.
    ghost rule: { Self → LotFigures → ℕ };

    fn required(&self, lot: Lot) -> u64
        requires { Measured lot }
        ensures { result ≡ rule self.now lot };

    ghost reads: { (r : Self) (lot : LotFigures) → requirement r lot ≡ rule r (read lot) };

    ghost bounded: { (r : Self) (lot : LotFigures) → Measured lot → rule r lot ≤ most };
}

// Each figure is read in its measure, and the rule applied to what is read.
impl<R: Rule> Tariff for R {
    ghost amount = { λ r lot. R.requirement r lot };

    ghost bounded = { λ r lot. subst (λ n. n ≤ most) (sym (R.reads r lot)) (R.bounded r (read lot) (read_measured lot)) };

    ghost nearest = { λ r lot. R.reads r lot ∙ read_once (R.rule r) lot ∙ sym (R.reads r (read lot)) };

    fn amount_of(&self, lot: Lot) -> u64 {
        self.required(lot.in_measure())
    }
}
