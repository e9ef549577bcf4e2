//! Laws of the rules of heads, and of images. Each is the contract of a function that does nothing.
ghost use Rattle.segment_file.specs.Laws.{FailsNotAll, ImageKeeps, ImageSpells, ImagesTell};

/// Where the rule of some part is the first that fails, not all rules hold.
pub fn head_rules_law()
    ensures { FailsNotAll }
{}

/// The image of rows keeps all rules of a head.
pub fn image_keeps_law()
    ensures { ImageKeeps }
{}

/// Equal images of segments of one table and name are of one format and of the same rows in their
/// order.
pub fn images_tell_law()
    ensures { ImagesTell }
{}

/// The image of rows spells these rows in their order.
pub fn image_spells_law()
    ensures { ImageSpells }
{}
