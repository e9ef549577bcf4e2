//! The checks of segments that another program made, of tables with and without indexes and trees.
use crate::counting::CountingShelf;
use crate::images::agreed;
use crate::table_of;
use std::{fs, io};

// The tables: the name of a schema, and that of settings and of the segment's file.
const OTHERS: &[(&str, &str)] = &[
    ("gen", "gen-plain"),
    ("gen", "gen"),
    ("wide", "wide-plain"),
    ("wide", "wide-sorted"),
    ("wide", "wide-index"),
    ("wide", "wide-tree"),
    ("wide", "wide-eight"),
    ("orders", "orders-plain"),
    ("orders", "orders-index"),
    ("orders", "orders-tree"),
];

// Prints what comes of the check of a segment `p1`.
fn run_other(rt: &HostRuntime, schema: &str, name: &str) -> io::Result<()> {
    let alloc = rt.alloc();
    let schema = fs::read(rt, format!(in alloc; "{schema}.schema.json")?.as_str())?;
    let settings = fs::read(rt, format!(in alloc; "{name}.settings.json")?.as_str())?;
    let file = fs::read(rt, format!(in alloc; "{name}.seg")?.as_str())?;
    match table_of(alloc, schema.as_slice(), settings.as_slice()) {
        Some(table) => {
            let mut shelf = CountingShelf::new(file);
            let outcome = agreed(alloc, &mut shelf, "p1", &table)?;
            println!(rt; "{name}: {outcome}")
        }
        None => println!(rt; "{name}: no table"),
    }
}

/// Prints what comes of the check of each segment.
pub fn run_others(rt: &HostRuntime) -> io::Result<()> {
    for (schema, name) in OTHERS {
        run_other(rt, schema, name)?;
    }
    Ok(())
}
