//! A segment's file is looked at whole: whether it is the image of some rows, and of which, or
//! which part of it is wrong. And the rows that a file spells, whatever its indexes and trees are.
#![tactic(auto)]

mod check;
mod coded;
mod codes;
mod columns;
mod compare;
mod head;
mod laws;
mod packed;
mod spell;

pub use check::{check_columns, check_image, count_image};
pub use laws::{
    fails_once_law, finds_one_law, finds_some_law, image_or_part_law, images_pass_law, one_part_law,
};
pub use spell::spell_text;
