//! Laws of what commands did.
ghost use Rattle.std.specs.Prelude.{Option, Err};
ghost use Rattle.command_words.specs.Command.{Command};
ghost use Rattle.command_words.specs.declared.fault.Fault.TheVariants as fault;
ghost use Rattle.command_words.specs.declared.stop.Stop.TheVariants as stop;
ghost use Rattle.command_model.specs.Ran.{Ran};
ghost use Rattle.command_model.specs.World.{Devices};

use star_answer::docs_bound_law;

/// A command for which there is no memory may do nothing at all.
pub fn idle_law()
    ensures { (command : Option Command) (now : Devices)
        → Ran command now now (Err (stop.Fault fault.Memory)) }
{
    docs_bound_law();
}
