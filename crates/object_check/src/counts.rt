//! How much code an object has.

ghost use Rattle.std.specs.Prelude.{◌≡◌, ◌≤◌, ◌<◌, ◌^◌, length, count_by};
ghost use Rattle.elf_objects.specs.declared.TheConstants.{MAX_FILE_BYTES as most_bytes};
ghost use Rattle.flow_defs.specs.Code.{is_plain};
ghost use Rattle.object_check.specs.Counts.{IsCounted, object_text_bytes};

use alternatives::Sites;
use elf_objects::Object;
use object_points::Linked;

/// How much code an object has.
#[derive(Clone, Copy, PartialEq, Eq)]
pub struct CodeCounts {
    /// Its functions, parts included.
    pub functions: u32,
    /// The instructions of its text sections.
    pub instructions: u32,
    /// The bytes of its text sections.
    pub text_bytes: u64,
}

/// How many points are instructions of the code as it is assembled.
fn count_plain(sites: &Sites) -> u32
    ensures { result ≡ count_by is_plain sites.now.points }
{
    let mut plain = 0;
    for n in 0..sites.point_count() {
        if sites.point(n).variant == 0 {
            plain += 1;
        }
    }
    plain
}

/// How many bytes the text sections of an object have.
fn count_text(object: &Object<'_>) -> u64
    requires { length object.now.bytes ≤ most_bytes }
    ensures { result ≡ object_text_bytes object.now }
{
    let mut total = 0;
    for sec in 0..object.sections() {
        if object.is_text(sec) {
            total += object.section(sec).size;
        }
    }
    total
}

/// How much code an object has whose code is read.
pub(crate) fn count_code(linked: &Linked<'_, '_>) -> CodeCounts
    requires { length linked.now.elf.bytes ≤ most_bytes }
    ensures { IsCounted linked.now result }
{
    CodeCounts {
        functions: linked.index().functions().len() as u32,
        instructions: count_plain(linked.sites()),
        text_bytes: count_text(linked.object()),
    }
}
