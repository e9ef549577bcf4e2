//! A block of whole numbers.
ghost use Rattle.scan_engine.specs.Numbers.{AreNumbers};

use values::Columns;

/// Rows of whole numbers, kept column by column.
#[derive(Clone, Copy)]
pub struct NumberBlock<'a> {
    pub columns: &'a Columns,
    ghost whole: { AreNumbers columns.now },
}
