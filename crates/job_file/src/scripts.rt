//! The scripts of a job, thread by thread. The script of thread `t` of rank `r` has the place `8 r + t`.
ghost use Rattle.std.specs.Prelude.{◌≡◌, ◌≤◌, ◌<◌, ◌*◌, ◌+◌, ◌^◌, [], ◌∷◌, length, replicate, bytes_eq, None, option_map, IfOk, OnOk};
ghost use Rattle.mpi_base.specs.declared.members.TheConstants.{MOST_RANKS};
ghost use Rattle.mpi_law.specs.declared.setting.TheConstants.{THREADS};
ghost use Rattle.mpi_law.specs.ScriptLists.{total_of};
ghost use Rattle.toml.specs.View.{view, table_view};
ghost use Rattle.job_file.specs.Lines.{lines_of, first_fault as first_fault_of, line_fault as line_fault_of};
ghost use Rattle.job_file.specs.Keys.{first_failing};
ghost use Rattle.job_file.specs.Given.{members_or_none};
ghost use Rattle.job_file.specs.Threads as spec;
ghost use Rattle.job_file.specs.Adding.{AddsLines};
ghost use Rattle.job_file.specs.Jobs.{AreScripts};

use crate::faults::JobFault;
use crate::keys::KeyText;
use crate::lines::{MOST_LINES, are_many, body, first_fault, first_line, op_count};
use mpi_base::OutOfMemory;
use mpi_law::Scripts;
use script_text::{is_blank, lines_tell, read_line};
use std::alloc::Global;
use token_text::{Line, put, put_num};
use toml::{Table, Value};

/// The most operations that a job may have.
const MOST_OPS: u32 = 16_384;

/// Whether a key is that of a place.
#[tactic(auto, using(crate::proofs::Places::key_text))]
fn is_key_of(place: u16, key: &[u8]) -> bool
    requires { place < 128 }
    ensures { result ≡ bytes_eq key.now (spec.script_key place) }
{
    let mut name = Line::new();
    put_num(&mut name, u32::from(rank_at(place)));
    put(&mut name, b".");
    put_num(&mut name, u32::from(thread_at(place)));
    key == name.as_slice()
}

/// Whether a key names a thread of one of so many ranks.
fn is_script_key(ranks: u16, key: &[u8]) -> bool
    requires { ranks ≤ MOST_RANKS }
    ensures { result ≡ spec.is_script_key ranks key.now }
{
    for place in 0..8 * ranks {
        if is_key_of(place, key) {
            return true;
        }
    }
    false
}

/// The first key that names no thread.
fn first_bad_name(ranks: u16, table: &Table) -> Option<&str>
    requires { ranks ≤ MOST_RANKS }
    ensures { option_map (λ k. k.now) result ≡ first_failing (λ k d. spec.is_script_key ranks k) (table_view table.now) }
{
    'members: for (key, _value) in table.iter() {
        if !is_script_key(ranks, key.as_bytes()) {
            return Some(key.as_str());
        }
    }
    None
}

fn script_name(ranks: u16, table: &Table) -> Option<JobFault>
    requires { ranks ≤ MOST_RANKS }
    ensures { result ≡ spec.script_name ranks (table_view table.now) }
{
    let key = first_bad_name(ranks, table)?;
    Some(JobFault::ScriptName(KeyText::of(key)))
}

fn text_in(value: &Value) -> &[u8]
    ensures { result.now ≡ spec.text_in (view value.now) }
{
    match value.as_str() {
        None => &[],
        Some(text) => text.as_bytes(),
    }
}

/// The script of a place; a thread that has none has an empty one.
fn script_at(table: &Table, place: u16) -> &[u8]
    requires { place < 128 }
    ensures { result.now ≡ spec.script_at (table_view table.now) place }
{
    'members: for (key, value) in table.iter() {
        if is_key_of(place, key.as_bytes()) {
            return text_in(value);
        }
    }
    &[]
}

fn rank_at(place: u16) -> u16
    ensures { result ≡ spec.rank_at place }
{
    place / 8
}

fn thread_at(place: u16) -> u8
    ensures value { result ≡ spec.thread_at place }
    ensures small { result < THREADS }
{
    (place % 8) as u8
}

/// The first script that has too many lines.
fn first_long(ranks: u16, table: &Table) -> Option<JobFault>
    requires { ranks ≤ MOST_RANKS }
    ensures { result ≡ spec.first_at (spec.long_at (table_view table.now)) 0 (THREADS * ranks) }
{
    for place in 0..8 * ranks {
        if are_many(script_at(table, place)) {
            return Some(JobFault::ScriptLong {
                rank: rank_at(place),
                thread: thread_at(place),
            });
        }
    }
    None
}

/// The first fault of a line in the script of a place.
fn line_fault_at(table: &Table, place: u16) -> Option<JobFault>
    requires place { place < 128 }
    requires few { length (lines_of (spec.script_at (table_view table.now) place)) ≤ MOST_LINES }
    ensures { result ≡ spec.line_at (table_view table.now) place }
{
    let (line, fault) = first_fault(script_at(table, place))?;
    Some(JobFault::Line {
        rank: rank_at(place),
        thread: thread_at(place),
        line,
        fault,
    })
}

/// The first line that has a fault.
fn first_line_fault(ranks: u16, table: &Table) -> Option<JobFault>
    requires ranks { ranks ≤ MOST_RANKS }
    requires few { spec.first_at (spec.long_at (table_view table.now)) 0 (THREADS * ranks) ≡ None }
    ensures { result ≡ spec.first_at (spec.line_at (table_view table.now)) 0 (THREADS * ranks) }
{
    for place in 0..8 * ranks {
        match line_fault_at(table, place) {
            Some(fault) => return Some(fault),
            None => {}
        }
    }
    None
}

/// How many operations there are in all.
fn count_ops(ranks: u16, table: &Table) -> u32
    requires ranks { ranks ≤ MOST_RANKS }
    requires few { spec.first_at (spec.long_at (table_view table.now)) 0 (THREADS * ranks) ≡ None }
    ensures { result ≡ spec.ops_from (table_view table.now) 0 (THREADS * ranks) }
{
    let mut count = 0;
    for place in 0..8 * ranks {
        count += op_count(script_at(table, place));
    }
    count
}

/// The first fault among the scripts.
fn scripts_fault(ranks: u16, table: &Table) -> Option<JobFault>
    requires { ranks ≤ MOST_RANKS }
    ensures { result ≡ spec.scripts_fault ranks (table_view table.now) }
{
    if let Some(fault) = script_name(ranks, table) {
        return Some(fault);
    }
    if let Some(fault) = first_long(ranks, table) {
        return Some(fault);
    }
    if let Some(fault) = first_line_fault(ranks, table) {
        return Some(fault);
    }
    if count_ops(ranks, table) > MOST_OPS {
        return Some(JobFault::TooManyOps);
    }
    None
}

/// Adds what the lines of a script without a fault spell.
pub(crate) fn add_script(
    scripts: &mut Scripts,
    rank: u16,
    thread: u8,
    bytes: &[u8],
) -> Result<(), OutOfMemory>
    requires rank { rank < scripts.old.ranks }
    requires thread { thread < THREADS }
    requires few { length (lines_of bytes.now) ≤ MOST_LINES }
    requires good { first_fault_of 1 (lines_of bytes.now) ≡ None }
    requires room { total_of scripts.old + length (lines_of bytes.now) < 2 ^ 32 }
    ensures lines { OnOk result (AddsLines (lines_of bytes.now) rank thread scripts.old scripts.new) }
    ensures ranks { scripts.new.ranks ≡ scripts.old.ranks }
    ensures total { total_of scripts.new ≤ total_of scripts.old + length (lines_of bytes.now) }
{
    let mut rest = bytes;
    while let Some((line, behind)) = first_line(rest) {
        add_line(scripts, rank, thread, line)?;
        rest = behind;
    }
    Ok(())
}

/// Adds what a line without a fault spells.
fn add_line(scripts: &mut Scripts, rank: u16, thread: u8, line: &[u8]) -> Result<(), OutOfMemory>
    requires rank { rank < scripts.old.ranks }
    requires thread { thread < THREADS }
    requires good { line_fault_of line.now ≡ None }
    requires room { total_of scripts.old + 1 < 2 ^ 32 }
    ensures line { OnOk result (AddsLines (line.now ∷ []) rank thread scripts.old scripts.new) }
    ensures ranks { scripts.new.ranks ≡ scripts.old.ranks }
    ensures total { total_of scripts.new ≤ total_of scripts.old + 1 }
{
    lines_tell();
    let body = body(line);
    if is_blank(body) {
        return Ok(());
    }
    match read_line(body) {
        Ok(op) => scripts.push(rank, thread, op),
        Err(_) => unreachable!(),
    }
}

/// Adds the scripts of a table without a fault.
fn add_scripts(scripts: &mut Scripts, ranks: u16, table: &Table) -> Result<(), OutOfMemory>
    requires ranks { ranks ≤ MOST_RANKS }
    requires none { scripts.old ≡ record { ranks = ranks; lists = replicate (THREADS * ranks) [] } }
    requires good { spec.scripts_fault ranks (table_view table.now) ≡ None }
    ensures { OnOk result (AreScripts ranks (spec.script_at (table_view table.now)) scripts.new) }
{
    for place in 0..8 * ranks {
        add_script(
            scripts,
            rank_at(place),
            thread_at(place),
            script_at(table, place),
        )?;
    }
    Ok(())
}

/// The scripts, where they have no fault.
pub(crate) fn scripts(
    alloc: Global,
    ranks: u16,
    table: Option<&Table>,
) -> Result<Scripts, OutOfMemory>
    requires ranks { ranks ≤ MOST_RANKS }
    requires good { spec.scripts_fault ranks (members_or_none (option_map (λ t. table_view t.now) table)) ≡ None }
    ensures { IfOk result (AreScripts ranks (spec.script_at (members_or_none (option_map (λ t. table_view t.now) table.entry)))) }
{
    let mut scripts = Scripts::none(alloc, ranks)?;
    match table {
        None => {}
        Some(table) => add_scripts(&mut scripts, ranks, table)?,
    }
    Ok(scripts)
}

/// The first fault among the scripts, if there are any.
#[tactic(auto, using(crate::proofs::Faultless::empty_good))]
pub(crate) fn scripts_fault_if_any(ranks: u16, table: Option<&Table>) -> Option<JobFault>
    requires { ranks ≤ MOST_RANKS }
    ensures { result ≡ spec.scripts_fault ranks (members_or_none (option_map (λ t. table_view t.now) table.entry)) }
{
    match table {
        None => None,
        Some(table) => scripts_fault(ranks, table),
    }
}
