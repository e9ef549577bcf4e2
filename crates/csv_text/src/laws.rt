//! A law of the text of rows. It is the contract of a function that does nothing.
ghost use Rattle.csv_text.specs.Laws.{ReadsBack};

/// The records of the text of rows are read as these rows, where no text is empty in a field whose
/// default is another value.
pub fn reads_back_law()
    ensures { ReadsBack }
{}
