ghost use Rattle.std.specs.Prelude.{◌≡◌, ℕ, List};
ghost use Rattle.sets.specs.Chosen.{chosen_meaning, chosen_names, quad, quad_names};
ghost use Rattle.operators.specs.Builtin as SpecsBuiltin;
ghost use Rattle.operators.specs.Mask.{masked, mask_names};
ghost use Rattle.operators.specs.Pair.{paired, pair_names};
ghost use Rattle.operators.specs.Laws.{builtin_laws, builtin_spelt};
ghost use Rattle.operators.specs.Masks.{masked_laws, masked_spelt};
ghost use Rattle.books.specs.Stored.{held_meaning, held_names};
ghost use Rattle.books.specs.Held.{held_laws, held_spelt};
ghost use Rattle.sets.specs.declared.any_set.AnySet.TheVariants.{Builtin, Book, BuiltinThenBook, BookThenBuiltin, MaskedBuiltin, MaskedBook, MaskedPair, TwoMasks, Four, Eight};
ghost use Rattle.operators.specs.Pairs.{paired_laws, paired_spelt};
ghost use Rattle.sets.specs.Laws.{quad_laws, quad_spelt};
ghost use Rattle.operators.specs.Builtin.{builtin_names};

use crate::any_set::AnySet;
use operators::named::Named;
use operators::set::OperatorSet;

// What a call on the set that is held answers. A macro, since the check cannot state a bound on a closure that takes a `&dyn Named`.
macro_rules! held {
    ($any:expr, $set:ident => $answer:expr) => {
        match $any {
            AnySet::Builtin($set) => $answer,
            AnySet::Book($set) => $answer,
            AnySet::BuiltinThenBook($set) => $answer,
            AnySet::BookThenBuiltin($set) => $answer,
            AnySet::MaskedBuiltin($set) => $answer,
            AnySet::MaskedBook($set) => $answer,
            AnySet::MaskedPair($set) => $answer,
            AnySet::TwoMasks($set) => $answer,
            AnySet::Four($set) => $answer,
            AnySet::Eight($set) => $answer,
        }
    };
}

impl OperatorSet for AnySet {
    ghost meaning = { chosen_meaning };

    ghost lawful = { elim [
      | Builtin s ↦ builtin_laws
      | Book s ↦ held_laws s
      | BuiltinThenBook s ↦ paired_laws SpecsBuiltin.builtin (held_meaning s.second) builtin_laws (held_laws s.second)
      | BookThenBuiltin s ↦ paired_laws (held_meaning s.first) SpecsBuiltin.builtin (held_laws s.first) builtin_laws
      | MaskedBuiltin s ↦ masked_laws SpecsBuiltin.builtin builtin_laws s.bits
      | MaskedBook s ↦ masked_laws (held_meaning s.set) (held_laws s.set) s.bits
      | MaskedPair s ↦ masked_laws (paired SpecsBuiltin.builtin (held_meaning s.set.second)) (paired_laws SpecsBuiltin.builtin (held_meaning s.set.second) builtin_laws (held_laws s.set.second)) s.bits
      | TwoMasks s ↦ paired_laws (masked s.first.bits SpecsBuiltin.builtin) (masked s.second.bits SpecsBuiltin.builtin) (masked_laws SpecsBuiltin.builtin builtin_laws s.first.bits) (masked_laws SpecsBuiltin.builtin builtin_laws s.second.bits)
      | Four s ↦ quad_laws
      | Eight s ↦ paired_laws quad quad quad_laws quad_laws
    ] };

    fn count(&self) -> u8 {
        held!(self, set => set.count())
    }

    fn arity(&self, op: u8) -> u8 {
        held!(self, set => set.arity(op))
    }

    fn band(&self, op: u8, args: &[u8]) -> u8 {
        held!(self, set => set.band(op, args))
    }
}

impl Named for AnySet {
    ghost names = { chosen_names };

    ghost spelt = { elim [
      | Builtin s ↦ builtin_spelt
      | Book s ↦ held_spelt s
      | BuiltinThenBook s ↦ paired_spelt SpecsBuiltin.builtin (held_meaning s.second) builtin_names (held_names s.second) builtin_laws builtin_spelt (held_spelt s.second)
      | BookThenBuiltin s ↦ paired_spelt (held_meaning s.first) SpecsBuiltin.builtin (held_names s.first) builtin_names (held_laws s.first) (held_spelt s.first) builtin_spelt
      | MaskedBuiltin s ↦ masked_spelt SpecsBuiltin.builtin builtin_names builtin_spelt s.bits
      | MaskedBook s ↦ masked_spelt (held_meaning s.set) (held_names s.set) (held_spelt s.set) s.bits
      | MaskedPair s ↦
          masked_spelt (paired SpecsBuiltin.builtin (held_meaning s.set.second)) (pair_names SpecsBuiltin.builtin (held_meaning s.set.second) builtin_names (held_names s.set.second))
          (paired_spelt SpecsBuiltin.builtin (held_meaning s.set.second) builtin_names (held_names s.set.second) builtin_laws builtin_spelt (held_spelt s.set.second)) s.bits
      | TwoMasks s ↦
          paired_spelt (masked s.first.bits SpecsBuiltin.builtin) (masked s.second.bits SpecsBuiltin.builtin) (mask_names s.first.bits SpecsBuiltin.builtin builtin_names) (mask_names s.second.bits SpecsBuiltin.builtin builtin_names)
          (masked_laws SpecsBuiltin.builtin builtin_laws s.first.bits) (masked_spelt SpecsBuiltin.builtin builtin_names builtin_spelt s.first.bits) (masked_spelt SpecsBuiltin.builtin builtin_names builtin_spelt s.second.bits)
      | Four s ↦ quad_spelt
      | Eight s ↦ paired_spelt quad quad quad_names quad_names quad_laws quad_spelt quad_spelt
    ] };

    fn name(&self, op: u8) -> [u8; 4] {
        held!(self, set => set.name(op))
    }
}
