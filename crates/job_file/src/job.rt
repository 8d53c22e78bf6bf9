//! Jobs.
ghost use Rattle.std.specs.Prelude.{◌≡◌, ◌⊎◌, ℕ, List, Some, None, ◌<◌, ◌-◌, ◌^◌, length, IfOk, IfErr, IsUtf8};
ghost use Rattle.mpi_law.specs.declared.setting.Setting.{Setting as SettingValue};
ghost use Rattle.mpi_law.specs.ScriptLists.{AllScripts};
ghost use Rattle.mpi_law.specs.Settings.{IsSetting};
ghost use Rattle.toml.specs.View.{table_view};
ghost use Rattle.toml.specs.Parse.{parse_document};
ghost use Rattle.job_file.specs.Jobs.{IsJob, IsJobFault, IsNotUtf8, IsNotToml, IsJobTable, table_fault as table_fault_of};

use crate::faults::JobFault;
use crate::keys::TopKey;
use crate::place::place_of;
use crate::scripts::{scripts, scripts_fault_if_any};
use crate::sets::{bad_set, sets, sets_stand_in_order};
use crate::top::{contexts, missing_key, out_of_range, ranks, table_at, unknown_key, wrong_kind};
use mpi_base::OutOfMemory;
use mpi_law::{Scripts, Setting};
use script_text::lines_tell;
use std::alloc::Global;
use toml::Table;

/// A setting, and a script for each of its threads.
#[derive(Drop)]
pub struct Job {
    /// The setting.
    pub setting: Setting,
    /// The scripts.
    pub scripts: Scripts,
}

/// The first fault of a table.
fn table_fault(table: &Table) -> Option<JobFault>
    ensures { result ≡ table_fault_of (table_view table.now) }
{
    if let Some(fault) = unknown_key(table) {
        return Some(fault);
    }
    if let Some(fault) = missing_key(table) {
        return Some(fault);
    }
    if let Some(fault) = wrong_kind(table) {
        return Some(fault);
    }
    if let Some(fault) = out_of_range(table) {
        return Some(fault);
    }
    let ranks = ranks(table);
    if let Some(fault) = bad_set(ranks, table_at(table, TopKey::Psets)) {
        return Some(fault);
    }
    scripts_fault_if_any(ranks, table_at(table, TopKey::Scripts))
}

/// The job that a table without a fault says.
#[tactic(auto, using(crate::proofs::Faultless::good_table))]
fn job_of(alloc: Global, table: &Table) -> Result<Job, OutOfMemory>
    requires { table_fault_of (table_view table.now) ≡ None }
    ensures table { IfOk result (λ job. IsJobTable (table_view table.now) job.setting job.scripts) }
    ensures setting { IfOk result (λ job. IsSetting job.setting) }
    ensures ranks { IfOk result (λ job. job.scripts.ranks ≡ job.setting.ranks) }
{
    let ranks = ranks(table);
    sets_stand_in_order(ranks, table_at(table, TopKey::Psets));
    let psets = sets(alloc, ranks, table_at(table, TopKey::Psets))?;
    let scripts = scripts(alloc, ranks, table_at(table, TopKey::Scripts))?;
    Ok(Job {
        setting: Setting {
            ranks,
            contexts: contexts(table),
            psets,
        },
        scripts,
    })
}

/// Reads a TOML document, and answers where it is none.
fn read_table(alloc: Global, bytes: &[u8]) -> Result<Table, JobFault>
    requires { length bytes.now < 2 ^ 32 - 1 }
    ensures ok { IfOk result (λ table. IsUtf8 bytes.now × (parse_document bytes.now ≡ Some (table_view table))) }
    ensures err { IfErr result (λ fault. (fault ≡ JobFault.Memory) ⊎ (IsNotUtf8 bytes.now fault ⊎ IsNotToml bytes.now fault)) }
{
    let text = match std::str::from_utf8(bytes) {
        Ok(text) => text,
        Err(error) => {
            let (line, column) = place_of(bytes, error.valid_up_to());
            return Err(JobFault::NotUtf8 { line, column });
        }
    };
    match toml::table_from_str(alloc, text) {
        Ok(table) => Ok(table),
        Err(error) => match error.span() {
            None => Err(JobFault::Memory),
            Some(span) => {
                let (line, column) = place_of(bytes, span.start);
                Err(JobFault::NotToml { line, column })
            }
        },
    }
}

/// The job that the bytes are, in the job file's format 1: a TOML document with the keys `format`, `ranks`,
/// `contexts`, `psets` and `scripts`.
///
/// A world has 1 to 16 ranks of 8 threads each and 1 to 63 contexts. Each script has at most 4,096 lines,
/// and all have at most 16,384 operations. The configured process sets stand behind `mpi://WORLD` and
/// `mpi://SELF`, in the order of their names' bytes.
///
/// Else the first fault in the order of [`JobFault`]; or `Memory`, which is tied to no cause.
pub fn read_job(alloc: Global, bytes: &[u8]) -> Result<Job, JobFault>
    requires { length bytes.now < 2 ^ 32 - 1 }
    ensures ok { IfOk result (λ job. IsJob bytes.now job.setting job.scripts) }
    ensures setting { IfOk result (λ job. IsSetting job.setting) }
    ensures ranks { IfOk result (λ job. job.scripts.ranks ≡ job.setting.ranks) }
    ensures err { IfErr result (λ fault. (fault ≡ JobFault.Memory) ⊎ IsJobFault bytes.now fault) }
{
    let table = read_table(alloc, bytes)?;
    if let Some(fault) = table_fault(&table) {
        return Err(fault);
    }
    Ok(job_of(alloc, &table)?)
}

/// Bytes are one job at most, bytes that are a job have no fault, and no bytes have two faults, but for the
/// place where a text is no TOML.
pub fn jobs_tell()
    ensures jobs { (bytes : List ℕ) (s z : SettingValue) (a b : AllScripts) → IsJob bytes s a → IsJob bytes z b → (s ≡ z) × (a ≡ b) }
    ensures apart { (bytes : List ℕ) (s : SettingValue) (a : AllScripts) (fault : JobFault) → IsJob bytes s a → IsJobFault bytes fault → ⊥ }
    ensures faults { (bytes : List ℕ) (a b : JobFault) → IsJobFault bytes a → IsJobFault bytes b → (a ≡ b) ⊎ (IsNotToml bytes a × IsNotToml bytes b) }
{
    lines_tell();
}
