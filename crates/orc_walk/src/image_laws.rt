//! What holds of every image.

ghost use Rattle.orc_walk.specs.ImageLaws.{MemoryIsSaid};

/// An image's memory has at each address the byte that is said, and no other.
pub fn memory_is_said()
    ensures { MemoryIsSaid }
{}
