//! The begin and the end of the lines of a file.
ghost use Rattle.std.specs.Prelude.{◌≡◌, ◌<◌, IfOk, IfSome, IsErrOf, OnErr, OnOk};
ghost use Rattle.std.specs.Result.{result_map_both};
ghost use Rattle.outside.specs.Seen.{seen};
ghost use Rattle.serving.specs.Calls.{LosesKept};
ghost use Rattle.serve_lines.specs.Calls.{Begins, Finishes, HasFaultOf, IsGoneIfKept, close_fault};
ghost use Rattle.serve_lines.specs.Kept.{HasNoKept, IsSession, kept_of};

use crate::session::Session;
use command_words::Fault;
use outside::{Depot, ShelfFault};
use serving::{ServeFault, Serving};
use std::alloc::Global;
use table_store::{StoreFault, is_kept_name, kept_idle_law, remove_kept};

/// Before the first line: files that were kept for cursors of another time are taken away, and the
/// pool is made. No cursor is open.
pub fn begin<D: Depot>(alloc: Global, depot: &mut D) -> Result<Session, Fault>
    ensures begins { Begins (seen D.Shelf depot.old) (seen D.Shelf depot.new)
        (result_map_both kept_of (λ why. why) result) }
    ensures session { IfOk result IsSession }
{
    kept_idle_law();
    remove_all_kept(alloc, depot)?;
    let serving = Serving::new(alloc)?;
    Ok(Session {
        serving,
        table: None,
    })
}

/// After the last line: each cursor that is open is closed.
pub fn finish<D: Depot>(alloc: Global, session: &mut Session, depot: &mut D) -> Result<(), Fault>
    requires { IsSession session.old }
    ensures { Finishes (kept_of session.old) (seen D.Shelf depot.old) (seen D.Shelf depot.new)
        result }
{
    'cursors: while session.serving.cursors.len() > 0 {
        let name = session.serving.cursors[0].name.copy()?;
        match session.serving.close(alloc, depot, name.as_str()) {
            Ok(()) => {}
            Err(fault) => return Err(close_fault(fault)),
        }
    }
    Ok(())
}

// What a fault of a close is.
fn close_fault(fault: ServeFault) -> Fault
    ensures { result ≡ close_fault fault }
{
    match fault {
        ServeFault::WriteFault => Fault::Write,
        _ => Fault::Memory,
    }
}

// Takes every kept file away.
fn remove_all_kept<D: Depot>(alloc: Global, depot: &mut D) -> Result<(), Fault>
    ensures gone { OnOk result (IfSome (D.held depot.new) HasNoKept) }
    ensures lost { LosesKept (D.held depot.old) (D.held depot.new) }
    ensures faults { HasFaultOf (seen D.Shelf depot.old) (seen D.Shelf depot.new) result }
{
    let names = match depot.names(alloc) {
        Ok(names) => names,
        Err(ShelfFault::Failed) => return Err(Fault::Read),
        Err(ShelfFault::NoMemory) => return Err(Fault::Memory),
        Err(ShelfFault::Missing) => unreachable!(),
    };
    let names = names.as_slice();
    'names: for at in 0..names.len() {
        match remove_if_kept(alloc, depot, names[at].as_str()) {
            Ok(()) => {}
            Err(fault) => return Err(fault),
        }
    }
    Ok(())
}

// Takes a file away, if it is a kept one.
fn remove_if_kept<D: Depot>(alloc: Global, depot: &mut D, name: &str) -> Result<(), Fault>
    ensures gone { OnOk result (IsGoneIfKept name.now (D.held depot.old) (D.held depot.new)) }
    ensures unchanged { OnErr result (D.held depot.new ≡ D.held depot.old) }
    ensures no_read { ¬ IsErrOf result Fault.Read }
    ensures faults { HasFaultOf (seen D.Shelf depot.old) (seen D.Shelf depot.new) result }
{
    if !is_kept_name(name) {
        return Ok(());
    }
    match remove_kept(alloc, depot, name) {
        Ok(()) => Ok(()),
        Err(StoreFault::WriteFault) => Err(Fault::Write),
        Err(_) => Err(Fault::Memory),
    }
}
