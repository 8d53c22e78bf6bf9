//! The process sets that a job adds.
ghost use Rattle.std.specs.Prelude.{◌≡◌, ◌≤◌, false, true, if◌then◌else◌, [], Some, None, is_none, option_map, IfSome, IfOk, OnOk};
ghost use Rattle.std.specs.String.{string_cmp};
ghost use Rattle.std.specs.Map.{keys_of};
ghost use Rattle.std.specs.List.Sorted.{IsStrictlySortedBy};
ghost use Rattle.mpi_base.specs.declared.members.TheConstants.{MOST_RANKS};
ghost use Rattle.pset_reg.specs.Sets.{are_below, start_of};
ghost use Rattle.pset_reg.specs.HeldSets.{has_set};
ghost use Rattle.toml.specs.View.{view, table_view, items_view};
ghost use Rattle.token_text.specs.Forms.{fault_of};
ghost use Rattle.token_text.specs.Texts.{pset_name_form};
ghost use Rattle.job_file.specs.Keys.{first_failing};
ghost use Rattle.job_file.specs.Given.{members_or_none};
ghost use Rattle.job_file.specs.ConfiguredSets as spec;
ghost use Rattle.job_file.specs.AddingSets.{AddsSet, AddsSets};

use crate::faults::JobFault;
use crate::keys::KeyText;
use crate::top::natural;
use mpi_base::{Members, OutOfMemory};
use pset_reg::Psets;
use std::alloc::Global;
use token_text::read_pset_name;
use toml::{Table, Value};

/// The most sets that there is room for. A job has fewer bytes than these, so none has so many sets.
const MOST_SETS: u32 = 4_294_967_295;

/// Whether the bytes are a name of a process set.
fn has_form(name: &[u8]) -> bool
    ensures { result ≡ is_none (fault_of pset_name_form name.now) }
{
    match read_pset_name(name) {
        Ok(_) => true,
        Err(_) => false,
    }
}

/// Whether a name may be that of a configured set.
fn is_set_name(name: &str) -> bool
    ensures { result ≡ spec.is_set_name name.now }
{
    has_form(name.as_bytes()) && !name.as_bytes().starts_with(b"mpi://")
}

/// Adds the rank that a value is; false where it is none of so many ranks, or is there.
fn add_rank(ranks: u16, members: &mut Members, value: &Value) -> bool
    requires { ranks ≤ MOST_RANKS }
    ensures value { spec.one_more ranks members.old (spec.number_in (view value.now)) ≡ (if result then Some members.new else None) }
    ensures below { are_below ranks members.old ≡ true → are_below ranks members.new ≡ true }
{
    let Some(number) = value.as_integer() else {
        return false;
    };
    match natural(number) {
        None => false,
        Some(rank) => rank < u64::from(ranks) && members.push(rank as u16),
    }
}

/// The ranks that the items list; None where one is no rank, or is repeated.
fn ranks_in_items(ranks: u16, items: &[Value]) -> Option<Members>
    requires { ranks ≤ MOST_RANKS }
    ensures value { result ≡ spec.ranks_behind ranks (Some []) (items_view items.now) }
    ensures below { IfSome result (λ members. are_below ranks members ≡ true) }
{
    let mut members = Members::none();
    'items: for item in items {
        if !add_rank(ranks, &mut members, item) {
            return None;
        }
    }
    Some(members)
}

/// The ranks that a value lists.
fn ranks_in(ranks: u16, value: &Value) -> Option<Members>
    requires { ranks ≤ MOST_RANKS }
    ensures value { result ≡ spec.ranks_in ranks (view value.now) }
    ensures below { IfSome result (λ members. are_below ranks members ≡ true) }
{
    match value.as_array() {
        None => None,
        Some(items) => ranks_in_items(ranks, items.as_slice()),
    }
}

/// Whether the name is free, and the value lists different ranks.
fn is_set(ranks: u16, name: &str, value: &Value) -> bool
    requires { ranks ≤ MOST_RANKS }
    ensures { result ≡ spec.is_set ranks name.now (view value.now) }
{
    is_set_name(name) && ranks_in(ranks, value).is_some()
}

/// The first name that is not free, or whose value does not list different ranks.
fn first_bad(ranks: u16, table: &Table) -> Option<&str>
    requires { ranks ≤ MOST_RANKS }
    ensures { option_map (λ k. k.now) result ≡ first_failing (spec.is_set ranks) (table_view table.now) }
{
    'members: for (name, value) in table.iter() {
        if !is_set(ranks, name.as_str(), value) {
            return Some(name.as_str());
        }
    }
    None
}

/// The first fault of a set, if there are any.
pub(crate) fn bad_set(ranks: u16, table: Option<&Table>) -> Option<JobFault>
    requires { ranks ≤ MOST_RANKS }
    ensures { result ≡ spec.bad_set ranks (members_or_none (option_map (λ t. table_view t.now) table.entry)) }
{
    let name = first_bad(ranks, table?)?;
    Some(JobFault::PsetMember(KeyText::of(name)))
}

/// The process sets of a job: those that are always there, and the configured ones in the order of
/// their names.
pub(crate) fn sets(alloc: Global, ranks: u16, table: Option<&Table>) -> Result<Psets, OutOfMemory>
    requires some { 1 ≤ ranks }
    requires few { ranks ≤ MOST_RANKS }
    requires good { first_failing (spec.is_set ranks) (members_or_none (option_map (λ t. table_view t.now) table)) ≡ None }
    ensures { IfOk result (λ s. s ≡ spec.all_sets ranks (members_or_none (option_map (λ t. table_view t.now) table.entry))) }
{
    let mut psets = Psets::start(alloc, ranks)?;
    match table {
        None => {}
        Some(table) => add_sets(&mut psets, table)?,
    }
    Ok(psets)
}

/// The configured sets stand in the order of their names' bytes.
#[tactic(auto, using(crate::proofs::SetFacts::sets_ascend))]
pub(crate) fn sets_stand_in_order(ranks: u16, table: Option<&Table>)
    ensures { spec.AscendByBytes (spec.sets_in ranks (members_or_none (option_map (λ t. table_view t.now) table.entry))) }
{
    match table {
        None => {}
        Some(table) => keys_ascend(table),
    }
}

/// The keys of a table ascend.
fn keys_ascend(table: &Table)
    ensures { IsStrictlySortedBy string_cmp (keys_of table.now.entries) }
{
    let _count = table.len();
}

/// Adds the sets of a table to the two that are always there.
#[tactic(auto, using(crate::proofs::SetFacts::failing_none, crate::proofs::SetFacts::new_at_start))]
fn add_sets(psets: &mut Psets, table: &Table) -> Result<(), OutOfMemory>
    requires start { psets.old ≡ start_of psets.old.ranks }
    requires good { first_failing (spec.is_set psets.old.ranks) (table_view table.now) ≡ None }
    ensures sets { OnOk result (AddsSets (table_view table.now) psets.old psets.new) }
{
    keys_ascend(table);
    'members: for (name, value) in table.iter() {
        add_set(psets, name.as_str(), value)?;
    }
    Ok(())
}

/// Adds a set with a new name, if there is room for it.
fn add_set(psets: &mut Psets, name: &str, value: &Value) -> Result<(), OutOfMemory>
    requires good { spec.is_set psets.old.ranks name.now (view value.now) ≡ true }
    requires new { has_set psets.old.sets name.now ≡ false }
    ensures added { OnOk result (AddsSet name.now (view value.now) psets.old psets.new) }
    ensures ranks { psets.new.ranks ≡ psets.old.ranks }
{
    if psets.size() == MOST_SETS {
        return Err(OutOfMemory);
    }
    let Ok(set) = read_pset_name(name.as_bytes()) else {
        return Ok(());
    };
    let Some(members) = ranks_in(psets.ranks(), value) else {
        return Ok(());
    };
    psets.add(set, members)?;
    Ok(())
}
