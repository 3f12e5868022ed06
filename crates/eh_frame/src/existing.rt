//! Whether an object has call frame information already.

ghost use Rattle.std.specs.Prelude.{◌≡◌, ◌<◌, All, IfNone, length};
ghost use Rattle.elf_objects.specs.Contents.{section_at};
ghost use Rattle.eh_frame.specs.FrameOutput.{IsOther, first_frame, is_frame_name};

use elf_objects::Object;

/// Whether a section is `.eh_frame`, or has the relocations of it.
fn is_frame_section(object: &Object<'_>, sec: u32) -> bool
    requires { sec < length object.now.sections }
    ensures { result ≡ is_frame_name (section_at object.now sec).name }
{
    object.section_is_named(sec, b".eh_frame") || object.section_is_named(sec, b".rela.eh_frame")
}

/// The first section of an object that is `.eh_frame` or `.rela.eh_frame`. Where there is none, they may be added.
pub fn first_frame_section(object: &Object<'_>) -> Option<u32>
    ensures first { result ≡ first_frame object.now }
    ensures none { IfNone result (All IsOther object.now.sections) }
{
    for sec in 0..object.sections() {
        if is_frame_section(object, sec) {
            return Some(sec);
        }
    }
    None
}
