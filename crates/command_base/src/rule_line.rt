//! The lines of frame rules.

ghost use Rattle.std.specs.Prelude.{◌≡◌, ◌++◌, OnErr, OnOk};
ghost use Rattle.elf_objects.specs.Contents.{section_at};
ghost use Rattle.eh_frame.specs.Texts.{rule_line};

use eh_frame::{PlacedRule, RuleLine};
use elf_objects::Object;
use ot_base::NoMemory;

/// Appends the line of a rule.
pub(crate) fn push_line(
    object: &Object<'_>,
    placed: PlacedRule,
    into: &mut Vec<u8>,
) -> Result<(), NoMemory>
    ensures ok { OnOk result (into.new.items ≡ into.old.items ++ rule_line (section_at object.now placed.place.sec).name placed) }
    ensures err { OnErr result (into.new.items ≡ into.old.items) }
{
    let alloc = *into.allocator();
    let line = RuleLine {
        names: object,
        placed,
    };
    let text = format!(in alloc; "{line}")?;
    into.extend_from_slice(text.as_bytes())?;
    Ok(())
}
