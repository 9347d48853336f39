//! Entries that compare by their names alone.

ghost use Rattle.std.specs.Prelude.{◌≡◌, ◌<◌, All, Some, nat_eq, refl};
ghost use Rattle.std.proofs.Props.{props};
ghost use Rattle.std.specs.Cmp.{on_equiv, on_per, on_po, on_total, partial_equiv_from_equiv};
ghost use Rattle.std.specs.Cmp.Lexicographic.{nat_list_cmp_total, nat_list_eq_equiv, pointwise, slice_cmp, texts_po, texts_ties};
ghost use Rattle.std.specs.Ordering.{nat_cmp};
ghost use Rattle.symbol_table.specs.NameKeys.{key_of};

use crate::name_keys::order_of;
use crate::symbols::TableSymbol;
use std::cmp::Ordering;

/// An entry that compares by the bytes of its name, with the key of that.
#[derive(Clone, Copy)]
pub struct Named<'a> {
    pub symbol: TableSymbol<'a>,
    pub key: u64,

    ghost keyed: { key ≡ key_of symbol.name.now } by { Prim.hlevel props },
    ghost bytes: { All (λ byte. byte < 256) symbol.name.now } by { Prim.hlevel props },
}

impl<'a> PartialEq for Named<'a> {
    ghost use Rattle.symbol_table.specs.NamedViews.{name_of};

    ghost eq = { λ x y. pointwise nat_eq (name_of x) (name_of y) };

    ghost laws = { on_per name_of (partial_equiv_from_equiv nat_list_eq_equiv) };

    fn eq(&self, other: &Self) -> bool {
        self.symbol.name == other.symbol.name
    }
}

impl<'a> Eq for Named<'a> {
    ghost use Rattle.symbol_table.specs.NamedViews.{name_of};

    ghost laws = { on_equiv name_of nat_list_eq_equiv };
}

impl<'a> PartialOrd for Named<'a> {
    ghost use Rattle.symbol_table.specs.NamedViews.{name_of};

    ghost partial_cmp = { λ x y. Some (slice_cmp nat_cmp (name_of x) (name_of y)) };

    ghost laws = { on_po name_of texts_po };

    fn partial_cmp(&self, other: &Self) -> Option<Ordering> {
        Some(self.cmp(other))
    }
}

impl<'a> Ord for Named<'a> {
    ghost use Rattle.symbol_table.specs.NamedViews.{name_of};

    ghost cmp = { λ x y. slice_cmp nat_cmp (name_of x) (name_of y) };

    ghost total = { on_total name_of nat_list_cmp_total };

    ghost matches_partial_cmp = { λ x y. refl };

    ghost matches_eq = { λ x y. texts_ties (name_of x) (name_of y) };

    fn cmp(&self, other: &Self) -> Ordering {
        order_of(self.key, self.symbol.name, other.key, other.symbol.name)
    }
}
