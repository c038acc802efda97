//! The pair rule over the walk of a forecast: what the interactions met say of weights and scalers.

#![tactic(auto)]

ghost use Rattle.std.specs.Prelude.{◌≡◌, ◌++◌, Some, codes};
ghost use Rattle.std.specs.Fmt.{decimal};
ghost use Rattle.pairing.specs.Pair.{check_of, is_rule};
ghost use Rattle.pair_rule.specs.Told.{OneCheck, check_number, rule_named, told_check};
ghost use Rattle.pair_rule.specs.declared.CheckRefusal.TheVariants.{Walk};

mod kinds;
mod rules;

use kinds::Kind;
use protocol::State;
use protocol::refusal::Refusal;
use std::error::Error;
use std::fmt;

/// Why a check is refused: 19 for an unknown rule, the walk's own number, 20 for a key whose word is no forecast.
#[derive(Clone, Copy, Debug, PartialEq, Eq, Hash)]
pub enum CheckRefusal {
    UnknownRule,
    Walk(Refusal),
    NotForecast,
}

impl From<Refusal> for CheckRefusal {
    ghost from_gives = { λ r e. e ≡ Walk r };

    fn from(refusal: Refusal) -> CheckRefusal {
        CheckRefusal::Walk(refusal)
    }
}

impl From<CheckRefusal> for u8 {
    ghost from_gives = { λ r n. n ≡ check_number r };

    fn from(refusal: CheckRefusal) -> u8 {
        match refusal {
            CheckRefusal::UnknownRule => 19,
            CheckRefusal::Walk(refusal) => u8::from(refusal),
            CheckRefusal::NotForecast => 20,
        }
    }
}

impl fmt::Display for CheckRefusal {
    ghost output = { λ r. Some (codes "refused " ++ decimal (check_number r)) };

    fn fmt<W: fmt::Write>(&self, f: &mut fmt::Formatter<W>) -> fmt::Result {
        write!(f, "refused {}", u8::from(*self))
    }
}

impl Error for CheckRefusal {}

/// Rule one, for runs under the old registry, and rule two, from the new one on.
#[derive(Clone, Copy, Debug, PartialEq, Eq)]
pub enum Rule {
    One,
    Two,
}

impl TryFrom<u8> for Rule {
    type Error = CheckRefusal;

    ghost try_from_gives = { λ n r. r ≡ rule_named n };

    fn try_from(number: u8) -> Result<Rule, CheckRefusal> {
        match number {
            1 => Ok(Rule::One),
            2 => Ok(Rule::Two),
            _ => Err(CheckRefusal::UnknownRule),
        }
    }
}

/// Whether a number names one of the two rules.
pub fn is_rule(rule: u8) -> bool
    ensures { result ≡ is_rule rule }
{
    Rule::try_from(rule).is_ok()
}

/// Whether a forecast passes the rule. Refused for a number that names no rule, then as its walk is, then where the key's word is no
/// forecast.
// The rule stays a u8: every other number is answered, with 19 (`check_of`).
#[tactic(auto, unfolding(pairing::specs::Pair::check_of, pairing::specs::Pair::checked_of, pairing::specs::Pair::passes_of), using(crate::proofs::Seen::not_taken))]
pub fn check(m: &State, rule: u8, key: u8) -> Result<bool, CheckRefusal>
    ensures { told_check result ≡ check_of m.now rule key }
{
    let rule = Rule::try_from(rule)?;
    let keys = walk::walk(m, key)?.keys;
    let forecast = rules::record(m, key);
    if !kinds::is_a(forecast, Kind::Forecast) {
        return Err(CheckRefusal::NotForecast);
    }
    Ok(match rule {
        Rule::One => rules::one(m, &keys, forecast),
        Rule::Two => rules::two(m, &keys, forecast),
    })
}

/// What is told of a check leaves nothing out.
#[tactic(auto, using(crate::proofs::Told::one_check))]
pub fn laws()
    ensures { OneCheck }
{}
