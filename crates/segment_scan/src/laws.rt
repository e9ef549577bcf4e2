//! Laws of scans. Each is the contract of a function that does nothing.
ghost use Rattle.segment_scan.specs.Agreement.{AgreeingAreSame};
ghost use Rattle.segment_scan.specs.Images.{ImagesLeave, ImagesRead, LoadedAreReadable};

use segment_plan::head_tells_law;

/// Rows that agree in the columns that a query names are the same to it.
pub fn agreement_law()
    ensures { AgreeingAreSame }
{}

/// On the image of rows, what is read of them are their values in the columns that a query names.
pub fn image_law()
    ensures { ImagesRead }
{
    head_tells_law();
}

/// On the image of rows, the indexes leave just the documents of the rows that they are to leave.
pub fn index_law()
    ensures { ImagesLeave }
{
    head_tells_law();
}

/// A loaded column of a head can be read.
pub fn readable_law()
    ensures { LoadedAreReadable }
{}
