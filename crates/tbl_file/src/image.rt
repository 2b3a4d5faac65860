//! An image, and why bytes are none.
ghost use Rattle.std.specs.Prelude.{◌≡◌};
ghost use Rattle.tbl_file.specs.FaultNames.{image_fault_name};

/// The bytes of both headers, behind which the table's bytes follow.
pub const HEADER_BYTES: usize = 116;

/// The first field of a file: `cFE1` in ASCII.
pub(crate) const CONTENT_ID: u32 = 0x63464531;

/// Where the description begins, behind eight numbers.
pub(crate) const DESCRIPTION_AT: usize = 32;

// The bytes of a description.
const DESCRIPTION_BYTES: usize = 32;

/// The bytes of the file header, which cFE writes into the field `length`.
pub const FILE_HEADER_BYTES: usize = DESCRIPTION_AT + DESCRIPTION_BYTES;

/// Where the header of the table begins.
pub(crate) const TABLE_AT: usize = FILE_HEADER_BYTES;

/// Where this header has the offset.
pub(crate) const OFFSET_AT: usize = TABLE_AT + 4;

/// Where this header says how many bytes the table has.
pub(crate) const SIZE_AT: usize = TABLE_AT + 8;

/// Where the field of the name begins.
pub(crate) const NAME_AT: usize = TABLE_AT + 12;

/// The bytes of a name's field. A zero byte ends the name in it.
pub(crate) const NAME_BYTES: usize = 40;

/// A table image: the fields of both headers, in the order of the file, and the table's bytes.
/// Beside each stands the field of cFE that it is.
#[derive(Clone, Copy, Debug, PartialEq, Eq)]
pub struct Image<'a> {
    /// What the file is of, 8 for a table in cFE (`SubType`).
    pub sub: u32,
    /// The bytes of the file header, 64 in cFE (`Length`).
    pub length: u32,
    /// The spacecraft that it was made on (`SpacecraftID`).
    pub spacecraft: u32,
    /// The processor that it was made on (`ProcessorID`).
    pub processor: u32,
    /// The application that made it (`ApplicationID`).
    pub application: u32,
    /// When it was made, in seconds (`TimeSeconds`).
    pub seconds: u32,
    /// And in parts of a second, of which there are 2 to the power of 32 (`TimeSubSeconds`).
    pub subseconds: u32,
    /// A text of 32 bytes for people (`Description`).
    pub description: &'a [u8],
    /// Unused (`Reserved`).
    pub reserved: u32,
    /// If in the table its bytes are loaded, in bytes (`Offset`).
    pub offset: u32,
    /// The table's name, 1 to 39 visible ASCII characters (`TableName`).
    pub name: &'a [u8],
    /// What is loaded, 1 byte or more; `NumBytes` is how many they are.
    pub bytes: &'a [u8],
}

/// Why bytes are no image. If several apply, the first in this order is told.
#[derive(Clone, Copy, Debug, PartialEq, Eq)]
pub enum ImageFault {
    /// There are more bytes than the caller reads. No reader of this crate tells it.
    TooLarge,
    /// There are fewer bytes than the 116 of both headers.
    Short,
    /// The first field is this number, and so it is no file of cFE.
    NotCfe(u32),
    /// The name is empty, doesn't end in its field, or has a byte that isn't visible ASCII.
    BadName,
    /// The header says that the table has no bytes.
    Empty,
    /// The header says another number of bytes than follow it.
    Size {
        /// The number of bytes that the header says.
        said: u32,
        /// The number of bytes that there are.
        given: u32,
    },
}

impl ImageFault {
    /// Its name, without its numbers.
    pub fn name(self) -> &'static str
        ensures { result.now ≡ image_fault_name self }
    {
        match self {
            ImageFault::TooLarge => "TooLarge",
            ImageFault::Short => "Short",
            ImageFault::NotCfe(_) => "NotCfe",
            ImageFault::BadName => "BadName",
            ImageFault::Empty => "Empty",
            ImageFault::Size { .. } => "Size",
        }
    }
}
