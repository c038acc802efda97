// Rule one, and what rule two adds, over the sender records of the keys that a walk met.
ghost use Rattle.std.specs.Prelude.{◌≡◌, ◌≤◌, find, length, reverse};
ghost use Rattle.std.specs.List.{list_all};
ghost use Rattle.pairing.specs.Pair.{all_direct, all_have, has_bundle, is_a, how_many, is_direct, record_of, rule_one, rule_two, sender_of, two_adds, bundle_of};
ghost use Rattle.walk.specs.Told.{padded};
ghost use Rattle.pair_rule.specs.Told.{kind_number, records_met};

use crate::kinds;
use crate::kinds::{Kind, bundle, is_part};
use protocol::sets::is_in;
use protocol::{Contents, State};

const NOTHING: Contents = Contents {
    asserter: 0,
    causes: 0,
    word: 0,
};

/// An interaction's sender record, in the store where it is settled; nothing where there is none.
pub(crate) fn record(m: &State, key: u8) -> Contents
    ensures { result ≡ record_of m.now key }
{
    let v = key as usize * 2;
    let store = m.views.get(v).map_or(0, |view| view.store) as usize;
    *m.contents.get(store * 32 + v).unwrap_or(&NOTHING)
}

fn is_a(m: &State, key: u8, kind: Kind) -> bool
    ensures { result ≡ is_a (kind_number kind) (record_of m.now key) }
{
    kinds::is_a(record(m, key), kind)
}

/// How many of a kind were met.
fn how_many(m: &State, keys: &[u8], kind: Kind) -> usize
    requires { length keys.now ≤ 16 }
    ensures { result ≡ how_many (kind_number kind) (records_met m.now keys.now) }
{
    keys.iter().filter(|&&key| is_a(m, key, kind)).count()
}

fn has_bundle(m: &State, key: u8, number: u32) -> bool
    ensures { result ≡ has_bundle number (record_of m.now key) }
{
    let c = record(m, key);
    !is_part(c) || bundle(c) == number
}

// Apart from `all_have`, as `each_direct` from `all_direct`: tried in one function, and the proof didn't close.
fn each_has(m: &State, keys: &[u8], number: u32) -> bool
    ensures { result ≡ list_all (λ k. has_bundle number (record_of m.now k)) keys.now }
{
    keys.iter().all(|&key| has_bundle(m, key, number))
}

/// All of both kinds have the forecast's bundle number.
fn all_have(m: &State, keys: &[u8], number: u32) -> bool
    requires { length keys.now ≤ 16 }
    ensures { result ≡ all_have number (records_met m.now keys.now) }
{
    each_has(m, keys, number)
}

#[tactic(auto, unfolding(pairing::specs::Pair::rule_one))]
pub(crate) fn one(m: &State, keys: &[u8], forecast: Contents) -> bool
    requires { length keys.now ≤ 16 }
    ensures { result ≡ rule_one (records_met m.now keys.now) (bundle_of forecast.word) }
{
    1 <= how_many(m, keys, Kind::Weights)
        && 1 <= how_many(m, keys, Kind::Scaler)
        && all_have(m, keys, bundle(forecast))
}

fn is_direct(m: &State, key: u8, causes: u16) -> bool
    ensures { result ≡ is_direct causes key (record_of m.now key) }
{
    !is_part(record(m, key)) || (key < 16 && is_in(u32::from(causes), key as usize))
}

fn each_direct(m: &State, keys: &[u8], causes: u16) -> bool
    ensures { result ≡ list_all (λ k. is_direct causes k (record_of m.now k)) keys.now }
{
    keys.iter().all(|&key| is_direct(m, key, causes))
}

/// All of both kinds are direct causes of the forecast.
fn all_direct(m: &State, keys: &[u8], causes: u16) -> bool
    requires { length keys.now ≤ 16 }
    ensures { result ≡ all_direct causes (padded keys.now) (records_met m.now keys.now) }
{
    each_direct(m, keys, causes)
}

/// The last of a kind.
fn last(m: &State, keys: &[u8], kind: Kind) -> Option<u8>
    ensures { result ≡ find (λ k. is_a (kind_number kind) (record_of m.now k)) (reverse keys.now) }
{
    keys.iter().rev().copied().find(|&key| is_a(m, key, kind))
}

/// The sender of the last of a kind, 0 where there is none.
fn sender(m: &State, keys: &[u8], kind: Kind) -> u8
    requires { length keys.now ≤ 16 }
    ensures { result ≡ sender_of (kind_number kind) (records_met m.now keys.now) }
{
    last(m, keys, kind).map_or(0, |key| record(m, key).asserter)
}

/// What rule two adds: exactly one of each, both direct causes, both from the same sender.
#[tactic(auto, unfolding(pairing::specs::Pair::two_adds))]
fn adds(m: &State, keys: &[u8], forecast: Contents) -> bool
    requires { length keys.now ≤ 16 }
    ensures { result ≡ two_adds (records_met m.now keys.now) (padded keys.now) forecast.causes }
{
    how_many(m, keys, Kind::Weights) == 1
        && how_many(m, keys, Kind::Scaler) == 1
        && all_direct(m, keys, forecast.causes)
        && sender(m, keys, Kind::Weights) == sender(m, keys, Kind::Scaler)
}

#[tactic(auto, unfolding(pairing::specs::Pair::rule_two))]
pub(crate) fn two(m: &State, keys: &[u8], forecast: Contents) -> bool
    requires { length keys.now ≤ 16 }
    ensures { result ≡ rule_two (records_met m.now keys.now) (bundle_of forecast.word) (padded keys.now) forecast.causes }
{
    one(m, keys, forecast) && adds(m, keys, forecast)
}
