//! Laws of files that are images, and of those that are none. Each is the contract of a function
//! that does nothing.
ghost use Rattle.segment_check.specs.Laws.{FailsOnce, FindsOne, FindsSome, ImageOrPart, ImagesPass, OnePart};

/// No part of the image of rows that a segment may have is wrong.
pub fn images_pass_law()
    ensures { ImagesPass }
{}

/// Of a file that keeps the rules of heads and is no image one part is wrong, and no more.
pub fn fails_once_law()
    ensures { FailsOnce }
{}

/// No file has two parts that are wrong.
pub fn one_part_law()
    ensures { OnePart }
{}

/// A file that is the image of no rows has a part that is wrong.
pub fn image_or_part_law()
    ensures { ImageOrPart }
{}

/// The check of a file finds one thing alone: the rows of which it is the image, or a part.
pub fn finds_one_law()
    ensures { FindsOne }
{}

/// Of each file it finds something.
pub fn finds_some_law()
    ensures { FindsSome }
{}
