//! Which bytes of a file are read.
ghost use Rattle.std.specs.Prelude.{◌<◌};

/// The bytes of a file between two places after an offset.
#[derive(Clone, Copy)]
pub struct FilePart<'a> {
    pub name: &'a str,
    pub offset: u64,
    pub from: u64,
    pub to: u64,
    pub ghost order: { from < to },
}
