//! The keys at the top of a job.
ghost use Rattle.std.specs.Prelude.{◌≡◌, ◌≤◌, None, option_map};
ghost use Rattle.toml.specs.Data.{get_member};
ghost use Rattle.toml.specs.View.{view, table_view, items_view};
ghost use Rattle.job_file.specs.Keys.{at, is_top_key as is_top_key_of, first_failing};
ghost use Rattle.job_file.specs.Top as spec;
ghost use Rattle.job_file.specs.Given.{members_or_none};

use crate::faults::JobFault;
use crate::keys::{KeyText, TopKey};
use mpi_base::MOST_RANKS;
use mpi_law::MOST_CONTEXTS;
use toml::{Table, Value};

/// The value at a name.
#[tactic(auto, using(toml::proofs::Views::table_get))]
fn value_named<'a>(table: &'a Table, name: &str) -> Option<&'a Value>
    ensures { option_map (λ v. view v.now) result ≡ get_member name.now (table_view table.now) }
{
    table.get(name)
}

/// The value at a key of the top.
fn value_at<'a>(table: &'a Table, key: TopKey) -> Option<&'a Value>
    ensures { option_map (λ v. view v.now) result ≡ at (table_view table.now) key }
{
    value_named(table, key.name())
}

fn is_top_key(key: &str) -> bool
    ensures { result ≡ is_top_key_of key.now }
{
    key == TopKey::Format.name()
        || key == TopKey::Ranks.name()
        || key == TopKey::Contexts.name()
        || key == TopKey::Psets.name()
        || key == TopKey::Scripts.name()
}

/// The first key that is none of those that may stand at the top.
fn first_unknown(table: &Table) -> Option<&str>
    ensures { option_map (λ k. k.now) result ≡ first_failing (λ k d. is_top_key_of k) (table_view table.now) }
{
    'members: for (key, _value) in table.iter() {
        if !is_top_key(key.as_str()) {
            return Some(key.as_str());
        }
    }
    None
}

/// The first unknown key.
pub(crate) fn unknown_key(table: &Table) -> Option<JobFault>
    ensures { result ≡ spec.unknown_key (table_view table.now) }
{
    let key = first_unknown(table)?;
    Some(JobFault::UnknownKey(KeyText::of(key)))
}

/// The first key that must be there and is not.
pub(crate) fn missing_key(table: &Table) -> Option<JobFault>
    ensures { result ≡ spec.missing_key (table_view table.now) }
{
    if value_at(table, TopKey::Format).is_none() {
        return Some(JobFault::Missing(TopKey::Format));
    }
    if value_at(table, TopKey::Ranks).is_none() {
        return Some(JobFault::Missing(TopKey::Ranks));
    }
    None
}

fn are_integers(items: &[Value]) -> bool
    ensures { result ≡ spec.all_items spec.is_integer (items_view items.now) }
{
    'items: for item in items {
        if !item.is_integer() {
            return false;
        }
    }
    true
}

fn is_integer_array(value: &Value) -> bool
    ensures { result ≡ spec.is_integer_array (view value.now) }
{
    match value.as_array() {
        None => false,
        Some(items) => are_integers(items.as_slice()),
    }
}

/// The first key whose value is no array of integers.
fn first_no_array(table: &Table) -> Option<&str>
    ensures { option_map (λ k. k.now) result ≡ first_failing (λ k d. spec.is_integer_array d) (table_view table.now) }
{
    'members: for (key, value) in table.iter() {
        if !is_integer_array(value) {
            return Some(key.as_str());
        }
    }
    None
}

/// The first key whose value is no string.
fn first_no_string(table: &Table) -> Option<&str>
    ensures { option_map (λ k. k.now) result ≡ first_failing (λ k d. spec.is_string d) (table_view table.now) }
{
    'members: for (key, value) in table.iter() {
        if !value.is_str() {
            return Some(key.as_str());
        }
    }
    None
}

fn number_kind(table: &Table, key: TopKey) -> Option<JobFault>
    ensures { result ≡ spec.number_kind (table_view table.now) key }
{
    match value_at(table, key) {
        Some(value) if !value.is_integer() => Some(JobFault::WrongKind { key, entry: None }),
        _ => None,
    }
}

fn psets_kind(table: &Table) -> Option<JobFault>
    ensures { result ≡ spec.table_kind TopKey.Psets spec.is_integer_array (at (table_view table.now) TopKey.Psets) }
{
    let value = value_at(table, TopKey::Psets)?;
    let key = TopKey::Psets;
    match value.as_table() {
        None => Some(JobFault::WrongKind { key, entry: None }),
        Some(sets) => {
            let entry = first_no_array(sets)?;
            Some(JobFault::WrongKind {
                key,
                entry: Some(KeyText::of(entry)),
            })
        }
    }
}

fn scripts_kind(table: &Table) -> Option<JobFault>
    ensures { result ≡ spec.table_kind TopKey.Scripts spec.is_string (at (table_view table.now) TopKey.Scripts) }
{
    let value = value_at(table, TopKey::Scripts)?;
    let key = TopKey::Scripts;
    match value.as_table() {
        None => Some(JobFault::WrongKind { key, entry: None }),
        Some(scripts) => {
            let entry = first_no_string(scripts)?;
            Some(JobFault::WrongKind {
                key,
                entry: Some(KeyText::of(entry)),
            })
        }
    }
}

/// The first value that is of another kind than it has to be.
pub(crate) fn wrong_kind(table: &Table) -> Option<JobFault>
    ensures { result ≡ spec.wrong_kind (table_view table.now) }
{
    number_kind(table, TopKey::Format)
        .or_else(|| number_kind(table, TopKey::Ranks))
        .or_else(|| number_kind(table, TopKey::Contexts))
        .or_else(|| psets_kind(table))
        .or_else(|| scripts_kind(table))
}

/// An integer as a number; None where it is negative.
pub(crate) fn natural(number: i64) -> Option<u64>
    ensures { result ≡ spec.natural number }
{
    if number < 0 {
        None
    } else {
        Some(number as u64)
    }
}

/// The number at a key, or the given one where there is none; None where it is negative.
fn number_or(table: &Table, key: TopKey, missing: u64) -> Option<u64>
    ensures { result ≡ spec.number_or missing (at (table_view table.now) key) }
{
    let Some(value) = value_at(table, key) else {
        return Some(missing);
    };
    match value.as_integer() {
        None => Some(missing),
        Some(number) => natural(number),
    }
}

fn is_in_range(least: u16, greatest: u16, number: Option<u64>) -> bool
    ensures { result ≡ spec.is_in_range least greatest number }
{
    match number {
        None => false,
        Some(number) => u64::from(least) <= number && number <= u64::from(greatest),
    }
}

fn number_range(
    table: &Table,
    key: TopKey,
    least: u16,
    greatest: u16,
    missing: u16,
) -> Option<JobFault>
    ensures { result ≡ spec.number_range (table_view table.now) key least greatest missing }
{
    if is_in_range(least, greatest, number_or(table, key, u64::from(missing))) {
        return None;
    }
    Some(JobFault::OutOfRange {
        key,
        least,
        greatest,
    })
}

/// The first number at the top that is out of its range.
pub(crate) fn out_of_range(table: &Table) -> Option<JobFault>
    ensures { result ≡ spec.out_of_range (table_view table.now) }
{
    number_range(table, TopKey::Format, 1, 1, 0)
        .or_else(|| number_range(table, TopKey::Ranks, 1, MOST_RANKS, 0))
        .or_else(|| number_range(table, TopKey::Contexts, 1, MOST_CONTEXTS, MOST_CONTEXTS))
}

/// The number of ranks.
pub(crate) fn ranks(table: &Table) -> u16
    requires { spec.out_of_range (table_view table.now) ≡ None }
    ensures value { result ≡ spec.ranks_of (table_view table.now) }
    ensures some { 1 ≤ result }
    ensures few { result ≤ MOST_RANKS }
{
    match number_or(table, TopKey::Ranks, 0) {
        None => 0,
        Some(ranks) => ranks as u16,
    }
}

/// The number of contexts.
pub(crate) fn contexts(table: &Table) -> u16
    requires { spec.out_of_range (table_view table.now) ≡ None }
    ensures value { result ≡ spec.contexts_of (table_view table.now) }
    ensures some { 1 ≤ result }
    ensures few { result ≤ MOST_CONTEXTS }
{
    match number_or(table, TopKey::Contexts, u64::from(MOST_CONTEXTS)) {
        None => 0,
        Some(contexts) => contexts as u16,
    }
}

/// The table at a key, if there is one.
pub(crate) fn table_at<'a>(table: &'a Table, key: TopKey) -> Option<&'a Table>
    ensures { members_or_none (option_map (λ t. table_view t.now) result) ≡ spec.table_or_none (at (table_view table.now) key) }
{
    match value_at(table, key) {
        None => None,
        Some(value) => value.as_table(),
    }
}
