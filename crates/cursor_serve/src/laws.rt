//! Laws of what cursors print. Each is the contract of a function that does nothing.
ghost use Rattle.cursor_serve.specs.Laws.{FetchedOwn};
ghost use Rattle.cursor_serve.specs.Numbered.{StartsNumbered, StaysNumbered};
ghost use Rattle.cursor_serve.specs.ServingStands.{StartStands};
ghost use Rattle.cursor_serve.specs.Sound.{StartsSound, StaysSound};

/// A cursor prints the reply of its own query over the lists that were live at its open, whatever
/// lines come between that do not close it.
pub fn fetched_law()
    ensures { FetchedOwn }
{}

/// Each line leads from a sound state of the machine to one: lists have numbers of their own, those
/// that a cursor has still to answer are live or kept, and a list is kept only while some cursor
/// that was opened over it is open.
pub fn sound_law()
    ensures { StaysSound }
{}

/// The machine starts in a sound state, whatever lists are live.
pub fn sound_start_law()
    ensures { StartsSound }
{}

/// Each line leads from a sound state in which lists have numbers of their own to another one.
pub fn numbered_law()
    ensures { StaysNumbered }
{}

/// The machine starts with lists that have numbers of their own.
pub fn numbered_start_law()
    ensures { StartsNumbered }
{}

/// A store that stands for lists and has no kept file stands, with no cursor kept, for the start of
/// the machine.
pub fn start_stands_law()
    ensures { StartStands }
{}
