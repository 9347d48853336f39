//! Which values a field takes.

ghost use Rattle.std.specs.Prelude.{◌≡◌, MatchResult, None, Some};
ghost use Rattle.lk_base.specs.RelocKinds.{FillsField, kind_of};
ghost use Rattle.lk_base.specs.Reaches.{Refuses, Takes, misfit_of, reach_of};

use lk_base::Misfit;
use lk_base::relocations::{Rule, kind_of};

fn fits_rule(rule: Rule, v: i128) -> Result<(), Misfit>
    ensures value { MatchResult result (λ _. Takes (reach_of rule) v) (λ misfit. Refuses (reach_of rule) v misfit) }
    ensures exact { MatchResult result (λ _. misfit_of (reach_of rule) v ≡ None) (λ misfit. misfit_of (reach_of rule) v ≡ Some misfit) }
{
    match rule {
        Rule::Any => Ok(()),
        Rule::FromTo(low, high) => {
            if i128::from(low) <= v && v <= i128::from(high) {
                return Ok(());
            }
            Err(Misfit::Range)
        }
        Rule::EvenFromTo(low, high) => {
            if v.unsigned_abs() % 2 != 0 {
                return Err(Misfit::Odd);
            }
            if i128::from(low) <= v && v <= i128::from(high) {
                return Ok(());
            }
            Err(Misfit::Range)
        }
    }
}

/// Whether the field of a kind of relocation, one that puts a value into a field of its place, holds the value: `Odd` if the field has no bit for an odd value, and
/// `Range` if the value is out of its reach and not odd.
pub fn fits(kind: u32, v: i128) -> Result<(), Misfit>
    requires { FillsField kind }
    ensures value { MatchResult result (λ _. Takes (kind_of kind).reach v) (λ misfit. Refuses (kind_of kind).reach v misfit) }
    ensures exact { MatchResult result (λ _. misfit_of (kind_of kind).reach v ≡ None) (λ misfit. misfit_of (kind_of kind).reach v ≡ Some misfit) }
{
    fits_rule(kind_of(kind).rule, v)
}
