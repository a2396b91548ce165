//! Code and labels from the rows of an object.

ghost use Rattle.std.specs.Prelude.{◌≡◌, ◌<◌, ◌≤◌, ◌++◌, ◌∷◌, [], map, All, IfOk, OnOk, length};
ghost use Rattle.pb_base.specs.Tables.{HasWidth, width_of};
ghost use Rattle.pb_object.specs.Objects.{code_of, labels_of};
ghost use Rattle.pb_object.specs.Ranges.{IsObject};
ghost use Rattle.pb_object.specs.Rows.{object_row, IsRow};
ghost use Rattle.pb_code.specs.View.{code_view, labels_view};

use crate::rows::{ProcessRow, ResourceRow, Rows};
use pb_base::limits::{MAX_PROCESSES, MAX_RESOURCES};
use pb_base::{Capital, Claims, Names, NoMemory};
use pb_code::{Code, Labels, ProcessCode, ProcessLabels};
use std::alloc::Global;

/// The columns of resources.
#[derive(Drop)]
struct Resources {
    names: Vec<Vec<u8>>,
    amounts: Vec<u32>,
}

fn split_resources(alloc: Global, rows: Vec<ResourceRow>) -> Result<Resources, NoMemory>
    ensures names { IfOk result (λ r. map (λ name. name.items) r.names.items ≡ map (λ r. r.name.items) rows.items) }
    ensures amounts { IfOk result (λ r. r.amounts.items ≡ map (λ r. r.capital) rows.items) }
{
    let mut names = Vec::new(alloc);
    let mut amounts = Vec::new(alloc);
    for row in rows {
        names.push(row.name)?;
        amounts.push(row.capital)?;
    }
    Ok(Resources { names, amounts })
}

/// The columns of processes.
#[derive(Drop)]
struct Processes {
    names: Vec<Vec<u8>>,
    claims: Vec<Vec<u64>>,
    codes: Vec<ProcessCode>,
    labels: Vec<ProcessLabels>,
}

impl Processes {
    /// Adds a process after the others.
    fn add(&mut self, row: ProcessRow) -> Result<(), NoMemory>
        ensures names { OnOk result (self.new.names.items ≡ self.old.names.items ++ row.name ∷ []) }
        ensures claims { OnOk result (self.new.claims.items ≡ self.old.claims.items ++ row.claims ∷ []) }
        ensures codes { OnOk result (self.new.codes.items ≡ self.old.codes.items ++ row.code ∷ []) }
        ensures labels { OnOk result (self.new.labels.items ≡ self.old.labels.items ++ row.labels ∷ []) }
    {
        self.names.push(row.name)?;
        self.claims.push(row.claims)?;
        self.codes.push(row.code)?;
        self.labels.push(row.labels)?;
        Ok(())
    }
}

fn split_processes(alloc: Global, rows: Vec<ProcessRow>) -> Result<Processes, NoMemory>
    ensures names { IfOk result (λ p. map (λ name. name.items) p.names.items ≡ map (λ p. p.name.items) rows.items) }
    ensures claims { IfOk result (λ p. map (λ row. row.items) p.claims.items ≡ map (λ p. p.claims.items) rows.items) }
    ensures codes { IfOk result (λ p. p.codes.items ≡ map (λ p. p.code) rows.items) }
    ensures labels { IfOk result (λ p. p.labels.items ≡ map (λ p. p.labels) rows.items) }
{
    let mut columns = Processes {
        names: Vec::new(alloc),
        claims: Vec::new(alloc),
        codes: Vec::new(alloc),
        labels: Vec::new(alloc),
    };
    for row in rows {
        columns.add(row)?;
    }
    Ok(columns)
}

fn claims_of(alloc: Global, rows: &[Vec<u64>]) -> Result<Claims, NoMemory>
    requires some { 0 < length rows.now }
    requires few_processes { length rows.now ≤ MAX_PROCESSES }
    requires few_resources { width_of (map (λ row. row.items) rows.now) ≤ MAX_RESOURCES }
    requires one_length { HasWidth (width_of (map (λ row. row.items) rows.now))
        (map (λ row. row.items) rows.now) }
    ensures { IfOk result (λ claims. claims ≡ map (λ row. row.items) rows.now) }
{
    let mut slices = Vec::new(alloc);
    for row in rows {
        slices.push(row.as_slice())?;
    }
    Claims::new(alloc, &slices)
}

/// Returns the code and the labels that the rows say.
pub(crate) fn assemble(alloc: Global, rows: Rows) -> Result<(Code, Labels), NoMemory>
    requires good { IsObject (object_row rows) }
    requires fit { All IsRow rows.processes.items }
    ensures code { IfOk result (λ x. code_view x.0 ≡ code_of (object_row rows)) }
    ensures labels { IfOk result (λ x. labels_view x.1 ≡ labels_of (object_row rows)) }
{
    let Rows {
        format: _,
        resources,
        processes,
    } = rows;
    let Resources { names, amounts } = split_resources(alloc, resources)?;
    let capital = Capital::new(alloc, &amounts)?;
    let columns = split_processes(alloc, processes)?;
    let claims = claims_of(alloc, &columns.claims)?;
    let Processes {
        names: process_names,
        claims: _,
        codes,
        labels,
    } = columns;
    let names = Names {
        processes: process_names,
        resources: names,
    };
    let code = Code {
        names,
        capital,
        claims,
        processes: codes,
    };
    Ok((code, Labels { processes: labels }))
}
