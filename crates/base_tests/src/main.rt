//! Worked values and calls of the crates that the others are built on: devices, values, aggregates,
//! dictionaries, forward indexes and the sections of other indexes. It prints a line for each
//! table, and each expectation that does not hold.
#![tactic(auto)]

mod aggregates;
mod depots;
mod device_calls;
mod dictionaries;
mod expect;
mod fixtures;
mod folders;
mod forward_indexes;
mod index_sections;
mod shelves;
mod sinks;
mod slots;
mod tests_of_values;
mod trees;
mod values_in_order;

use expect::Expectations;
use std::alloc::Global;
use std::io;

fn devices(rt: &HostRuntime, all: &Expectations) {
    shelves::lists_and_names(rt.alloc(), all);
    shelves::shelf_in_memory(rt.alloc(), all);
    shelves::bytes_of_a_file(rt.alloc(), all);
    depots::depot_in_memory(rt.alloc(), all);
    sinks::sinks(rt.alloc(), all);
    folders::shelf_over_a_folder(rt, all);
    folders::depot_over_a_folder(rt, all);
}

fn values_in_lists(alloc: Global, all: &Expectations) {
    values_in_order::numbers(alloc, all);
    values_in_order::texts(alloc, all);
    values_in_order::order_of_values(alloc, all);
    values_in_order::order_of_rows(alloc, all);
    tests_of_values::comparisons(all);
    tests_of_values::lists_of_tests(alloc, all);
}

fn columns(alloc: Global, all: &Expectations) {
    dictionaries::spelled(alloc, all);
    dictionaries::refused(alloc, all);
    dictionaries::look_ups(alloc, all);
    dictionaries::lists_of_ids(alloc, all);
    forward_indexes::spelled(alloc, all);
    forward_indexes::ranges(alloc, all);
    index_sections::lists_of_rows(alloc, all);
    index_sections::range_indexes(alloc, all);
}

fn aggregates_and_trees(alloc: Global, all: &Expectations) {
    aggregates::states_of_values(all);
    aggregates::stored_states(all);
    aggregates::rows_of_states(alloc, all);
    slots::slots_of_owners(alloc, all);
    trees::tables_of_documents(alloc, all);
    trees::laws_of_trees(all);
}

fn main(rt: HostRuntime) -> io::Result<()> {
    let all = Expectations::new(rt.alloc());
    devices(&rt, &all);
    values_in_lists(rt.alloc(), &all);
    columns(rt.alloc(), &all);
    aggregates_and_trees(rt.alloc(), &all);
    let lines = all.into_lines();
    let printed = print!(rt; "{}", lines.as_str());
    drop(lines);
    printed
}
