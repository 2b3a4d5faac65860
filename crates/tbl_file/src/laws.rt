//! What holds of every image.
ghost use Rattle.std.specs.Prelude.{◌≡◌, List, ℕ, None};
ghost use Rattle.tbl_file.specs.declared.image.Image.{Image};
ghost use Rattle.tbl_file.specs.Image.{IsImage, image_fault};

/// A file that is an image has no fault. Does nothing.
pub fn images_have_no_fault()
    ensures { (file : List ℕ) (image : Image) → IsImage file image → image_fault file ≡ None }
{}
