//! Whether an object has site lists already.

ghost use Rattle.std.specs.Prelude.{◌≡◌, ◌<◌, All, IfNone, length};
ghost use Rattle.elf_objects.specs.Contents.{section_at};
ghost use Rattle.site_lists.specs.SiteOutput.{IsOther, is_site_name, site_section};

use elf_objects::Object;

/// Whether a section is a site list, or has the relocations of one.
fn is_site_section(object: &Object<'_>, sec: u32) -> bool
    requires { sec < length object.now.sections }
    ensures { result ≡ is_site_name (section_at object.now sec).name }
{
    object.section_is_named(sec, b".retpoline_sites")
        || object.section_is_named(sec, b".rela.retpoline_sites")
        || object.section_is_named(sec, b".return_sites")
        || object.section_is_named(sec, b".rela.return_sites")
        || object.section_is_named(sec, b".call_sites")
        || object.section_is_named(sec, b".rela.call_sites")
}

/// The first section of an object that is a site list or has the relocations of one. Where there is none, site lists may be
/// added.
pub fn first_site_section(object: &Object<'_>) -> Option<u32>
    ensures first { result ≡ site_section object.now }
    ensures none { IfNone result (All IsOther object.now.sections) }
{
    for sec in 0..object.sections() {
        if is_site_section(object, sec) {
            return Some(sec);
        }
    }
    None
}
