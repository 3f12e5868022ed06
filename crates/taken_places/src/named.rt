//! Sections whose relocations take no addresses, by their names.

ghost use Rattle.std.specs.Prelude.{◌≡◌, ◌<◌, bytes_eq, codes, false, length, slice_index_or};
ghost use Rattle.elf_objects.specs.Contents.{section_at};
ghost use Rattle.taken_places.specs.Marks.{AreMarks};
ghost use Rattle.flow_defs.specs.TableFields.{begins_with};
ghost use Rattle.taken_places.specs.Taken.{is_discarded as is_discarded_name, is_one_of, lookup_names, may_take_at, patch_names, site_names};

use elf_objects::Object;

/// Part of the names of the sections in which entries are listed that gcc pads (`-fpatchable-function-entry`).
pub(crate) const PATCHABLE: &[u8] = b"__patchable_function_entries";

/// Whether the name of a section is this one.
pub(crate) fn is_named(object: &Object<'_>, sec: u32, name: &[u8]) -> bool
    requires { sec < length object.now.sections }
    ensures { result ≡ bytes_eq (section_at object.now sec).name name.now }
{
    object.section_is_named(sec, name)
}

/// Whether it begins so.
fn begins(object: &Object<'_>, sec: u32, prefix: &[u8]) -> bool
    requires { sec < length object.now.sections }
    ensures { result ≡ begins_with (section_at object.now sec).name prefix.now }
{
    object.section_name_begins(sec, prefix)
}

/// Whether a section is a table by which a kernel patches code.
fn is_for_patches(object: &Object<'_>, sec: u32) -> bool
    requires { sec < length object.now.sections }
    ensures { result ≡ is_one_of (section_at object.now sec).name patch_names }
{
    is_named(object, sec, b".altinstructions")
        || is_named(object, sec, b".parainstructions")
        || is_named(object, sec, b".smp_locks")
        || is_named(object, sec, b"__jump_table")
        || is_named(object, sec, b"__mcount_loc")
}

/// Whether a section is a list of sites.
fn is_site_list(object: &Object<'_>, sec: u32) -> bool
    requires { sec < length object.now.sections }
    ensures { result ≡ is_one_of (section_at object.now sec).name site_names }
{
    is_named(object, sec, b".retpoline_sites")
        || is_named(object, sec, b".return_sites")
        || is_named(object, sec, b".call_sites")
        || is_named(object, sec, b".static_call_sites")
        || is_named(object, sec, b".ibt_endbr_seal")
        || is_named(object, sec, b".cfi_sites")
}

/// Whether a section is a table in which code is looked up by its address.
fn is_lookup(object: &Object<'_>, sec: u32) -> bool
    requires { sec < length object.now.sections }
    ensures { result ≡ is_one_of (section_at object.now sec).name lookup_names }
{
    is_named(object, sec, b".orc_unwind_ip")
        || is_named(object, sec, b".eh_frame")
        || is_named(object, sec, b"__ex_table")
        || is_named(object, sec, b"__bug_table")
        || is_named(object, sec, b".kcfi_traps")
        || is_named(object, sec, b"_error_injection_whitelist")
        || is_named(object, sec, b"_kprobe_blacklist")
}

/// Whether a section is thrown away.
fn is_discarded(object: &Object<'_>, sec: u32) -> bool
    requires { sec < length object.now.sections }
    ensures { result ≡ is_discarded_name (section_at object.now sec).name }
{
    begins(object, sec, b".discard") && !is_named(object, sec, b".discard.ibt_endbr_noseal")
}

/// Whether the relocations of a section may take addresses, where it is marked which sections have [`PATCHABLE`] in their
/// names.
pub(crate) fn may_take(object: &Object<'_>, marks: &[bool], sec: u32) -> bool
    requires known { sec < length object.now.sections }
    requires marks { AreMarks (codes "__patchable_function_entries") object.now marks.now }
    ensures { result ≡ may_take_at object.now sec }
{
    object.is_text(sec)
        || !(is_discarded(object, sec)
            || (begins(object, sec, b".debug")
                || (is_for_patches(object, sec)
                    || (is_site_list(object, sec)
                        || (is_lookup(object, sec) || marks[sec as usize])))))
}
