//! The image of a table's bytes.
ghost use Rattle.std.specs.Prelude.{◌≡◌, ◌≤◌, ◌+◌, length, IsTrue};
ghost use Rattle.tbl_file.specs.Image.{is_table_name};
ghost use Rattle.table_images.specs.Images.{packed_file};

use tbl_file::{FILE_HEADER_BYTES, Image, write_image};

/// What `pack` puts into the headers of an image, beside how many bytes the table has.
#[derive(Drop)]
pub struct Head<'a> {
    /// The table's name, 1 to 39 visible ASCII characters.
    pub name: &'a [u8],
    /// Where in the table the bytes are loaded.
    pub offset: u32,
    /// What the file is of.
    pub sub: u32,
}

/// Fills the file of the image of these bytes, of which there is one at least and 1,048,576 at
/// most. Its header says that it has 64 bytes, and all else in it is zero.
pub fn fill_packed(head: &Head<'_>, bytes: &[u8], file: &mut [u8])
    requires name { IsTrue (is_table_name head.now.name.now) }
    requires some { 1 ≤ length bytes.now }
    requires few { length bytes.now ≤ 1048576 }
    requires size { length file.old ≡ 116 + length bytes.now }
    ensures { file.new ≡
        packed_file head.now.name.now head.now.offset head.now.sub bytes.now }
{
    let image = Image {
        sub: head.sub,
        length: FILE_HEADER_BYTES as u32,
        spacecraft: 0,
        processor: 0,
        application: 0,
        seconds: 0,
        subseconds: 0,
        description: &[0; 32],
        reserved: 0,
        offset: head.offset,
        name: head.name,
        bytes,
    };
    write_image(&image, file);
}
