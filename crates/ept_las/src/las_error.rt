//! Why a file is no LAS file that can be read.

use ept_point::PointNumber;

/// Why a file is no LAS file that can be read. The faults of a header are checked in this order, and the first one is
/// returned.
#[derive(Clone, Copy, Debug, PartialEq, Eq)]
pub enum LasError {
    /// The file is shorter than the least header, of 227 bytes.
    Short,
    /// The file does not begin with `LASF`.
    Signature,
    /// The version is not 1.2, 1.3 or 1.4.
    Version,
    /// The stated header size, or the file, is below the version's least header size.
    HeaderSize,
    /// The points are compressed.
    Compressed,
    /// The point data record format is not 0, 1, 2, 3, 6 or 7.
    Format,
    /// The stated record length is below that of the format.
    RecordLength,
    /// The points begin within the header.
    PointOffset,
    /// The scales and offsets are not the expected ones.
    Expect,
    /// The file ends before the last byte of the record of this number, which is the first such record.
    Truncated { number: PointNumber },
}

impl LasError {
    ghost use Rattle.std.specs.Prelude.{◌≡◌};
    ghost use Rattle.ept_las.specs.LasHeader.{code_of};

    /// The place of the fault in the order in which faults are checked, from 1.
    pub fn code(self) -> u8
        ensures { result ≡ code_of self }
    {
        match self {
            LasError::Short => 1,
            LasError::Signature => 2,
            LasError::Version => 3,
            LasError::HeaderSize => 4,
            LasError::Compressed => 5,
            LasError::Format => 6,
            LasError::RecordLength => 7,
            LasError::PointOffset => 8,
            LasError::Expect => 9,
            LasError::Truncated { .. } => 10,
        }
    }
}
