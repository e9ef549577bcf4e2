//! Runs cases over the files of two small segments, which another program wrote: whether the same
//! file is made of the rows, by each call that makes it, what its head and its check cost, and what
//! comes of each where the file is cut or a byte of it is another one.
#![tactic(auto)]

ghost use Rattle.std.specs.Prelude.{IfSome};
ghost use Rattle.table_schema.specs.ValidTable.{IsValidTable};

mod appends;
mod built;
mod cases;
mod counting;
mod heads;
mod images;
mod lookups;
mod noting;
mod others;

use cases::{Look, Report, run_cases};
use counting::CountingShelf;
use host_devices::FolderDepot;
use lookups::look_up_damaged;
use others::run_others;
use schema_json::read_schema;
use settings_json::read_settings;
use std::alloc::Global;
use std::{fs, io};
use table_schema::Table;
use table_store::open_table;

// Runs the cases of a text over a file, and prints how many there are and which are wrong.
fn run_text(
    rt: &HostRuntime,
    look: Look,
    table: &Table,
    name: &str,
    file: &[u8],
    cases: &str,
) -> io::Result<()>
    requires { IsValidTable table.now }
{
    let report = run_cases(rt.alloc(), look, table, name, file, cases)?;
    println!(rt; "{} cases", report.count)?;
    show_wrong(rt, &report)
}

fn show_wrong(rt: &HostRuntime, report: &Report) -> io::Result<()> {
    for line in &report.wrong {
        println!(rt; "wrong: {line}")?;
    }
    Ok(())
}

// Runs everything over the file `NAME.seg` of the segment of a table, with the rows of `NAME.csv`,
// the cases of its head in `NAME.txt`, and those of the whole file in `NAME.image.txt`.
fn run(rt: &HostRuntime, table: &Table, name: &str) -> io::Result<()>
    requires { IsValidTable table.now }
{
    let alloc = rt.alloc();
    let file = fs::read(rt, format!(in alloc; "{name}.seg")?.as_str())?;
    let rows = fs::read(rt, format!(in alloc; "{name}.csv")?.as_str())?;
    let heads = fs::read_to_string(rt, format!(in alloc; "{name}.txt")?.as_str())?;
    let images = fs::read_to_string(rt, format!(in alloc; "{name}.image.txt")?.as_str())?;
    let built = built::compared(alloc, table, name, rows.as_slice(), file.as_slice())?;
    println!(rt; "built: {built}")?;
    let lengths = built::lengths(alloc, table, name, rows.as_slice())?;
    println!(rt; "sections: {lengths}")?;
    let mut shelf = CountingShelf::new(file.clone()?);
    let costs = heads::costs(alloc, &mut shelf, name, table)?;
    println!(rt; "read: {costs}")?;
    print!(rt; "heads: ")?;
    run_text(rt, Look::Head, table, name, file.as_slice(), heads.as_str())?;
    let cost = images::cost(alloc, file.as_slice(), name, table)?;
    println!(rt; "checked: {cost}")?;
    print!(rt; "files: ")?;
    run_text(
        rt,
        Look::File,
        table,
        name,
        file.as_slice(),
        images.as_str(),
    )
}

// The segment of a table that is stored in the folder.
fn run_stored(rt: &HostRuntime) -> io::Result<()> {
    let folder = String::from_str(rt.alloc(), ".")?;
    let mut depot = FolderDepot::new(rt, folder);
    match open_table(rt.alloc(), &mut depot) {
        Ok(table) => run(rt, &table, "s"),
        Err(fault) => println!(rt; "no table: {fault:?}"),
    }
}

// The table of these texts, if they are accepted.
fn table_of(alloc: Global, schema: &[u8], settings: &[u8]) -> Option<Table>
    ensures { IfSome result (λ table. IsValidTable table) }
{
    let Ok(schema) = read_schema(alloc, schema) else {
        return None;
    };
    let Ok(settings) = read_settings(alloc, &schema, settings) else {
        return None;
    };
    Some(Table { schema, settings })
}

// The segment of a table with a star-tree.
fn run_with_tree(rt: &HostRuntime) -> io::Result<()> {
    let schema = fs::read(rt, "V1.schema.json")?;
    let settings = fs::read(rt, "V1.settings.json")?;
    match table_of(rt.alloc(), schema.as_slice(), settings.as_slice()) {
        Some(table) => {
            run(rt, &table, "V1")?;
            run_lookups(rt, &table)
        }
        None => println!(rt; "no table of V1"),
    }
}

// Look-ups in its dictionaries, which have the bytes from 298 up to 434.
fn run_lookups(rt: &HostRuntime, table: &Table) -> io::Result<()>
    requires { IsValidTable table.now }
{
    let file = fs::read(rt, "V1.seg")?;
    match look_up_damaged(rt.alloc(), table, "V1", file.as_slice(), (298, 434))? {
        Some(report) => {
            println!(rt; "looked up: {} times", report.count)?;
            show_wrong(rt, &report)
        }
        None => println!(rt; "no head of V1"),
    }
}

// How the file of many rows is written.
fn run_generated(rt: &HostRuntime) -> io::Result<()> {
    let schema = fs::read(rt, "g.schema.json")?;
    let settings = fs::read(rt, "g.settings.json")?;
    let Some(table) = table_of(rt.alloc(), schema.as_slice(), settings.as_slice()) else {
        return println!(rt; "no table of g");
    };
    let given = built::generated(rt.alloc(), &table, "g", 100_000)?;
    println!(rt; "generated: {given}")
}

fn main(rt: HostRuntime) -> io::Result<()> {
    run_stored(&rt)?;
    run_with_tree(&rt)?;
    run_others(&rt)?;
    run_generated(&rt)
}
