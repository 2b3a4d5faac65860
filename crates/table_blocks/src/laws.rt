//! What changes leave of tables and of their versions. These functions do nothing, and are there
//! for what they ensure.
ghost use Rattle.std.specs.Prelude.{◌≡◌, ℕ, ◌==◌, ◌<◌, if◌then◌else◌, true, List, length, slice_set, Option};
ghost use Rattle.table_blocks.specs.Contents.{Content, is_double, kept_at, version_at, with_value};

/// A change of one table leaves what is kept for each other one.
pub fn recall_change()
    ensures { (tables : List (Option Content)) (key other : ℕ) (kept : Option Content) →
        key < length tables →
        kept_at (slice_set tables key kept) other ≡
        (if key == other then kept else kept_at tables other) }
{}

/// An update of a double-buffered table leaves the version that was present, with its bytes, its
/// loan and the views of it that are out, under its number.
pub fn recall_update()
    ensures { (c : Content) (loan : ℕ) (value : List ℕ) → is_double c ≡ true →
        version_at (with_value c loan value) c.version ≡ c.present }
{}
