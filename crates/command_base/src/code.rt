//! Why a command stops whose input's code isn't read, or doesn't fit what the object says of it.

ghost use Rattle.std.specs.Prelude.{◌≡◌};
ghost use Rattle.ot_base.specs.NameLists.{NameLists};
ghost use Rattle.flow_defs.specs.Coded.{coded_by};
ghost use Rattle.object_points.specs.Linked.{IsLinkFault};
ghost use Rattle.x86_map.specs.declared.map.Map.{Map};
ghost use Rattle.command_base.specs.Code.{IsLinkStop, IsWorded, flow_stop};

use crate::flow_text::FlowFaultText;
use crate::refusal::Refusal;
use crate::stop::CommandStop;
use elf_objects::Object;
use flow_defs::FlowFault;
use object_points::{LinkFault, LinkFaultText};

/// Why an object's code isn't read, in words.
fn link_text<'a>(object: &Object<'a>, fault: LinkFault) -> LinkFaultText<'a>
    requires { (map : Map) × (lists : NameLists) × IsLinkFault (coded_by map object.now) lists fault }
    ensures fault { result.fault ≡ fault }
    ensures worded { IsWorded object.now result }
{
    match fault {
        LinkFault::Text { sec, .. } => LinkFaultText {
            fault,
            section: object.name_of_section(sec),
            body: object.section(sec).body,
        },
        _ => LinkFaultText {
            fault,
            section: &[],
            body: &[],
        },
    }
}

/// Why a command stops whose object's code isn't read.
pub fn link_stop<'a>(object: &Object<'a>, fault: LinkFault) -> CommandStop<'a>
    requires { (map : Map) × (lists : NameLists) × IsLinkFault (coded_by map object.now) lists fault }
    ensures { IsLinkStop object.now fault result }
{
    match fault {
        LinkFault::NoMemory => CommandStop::NoMemory,
        fault => CommandStop::Refused(Refusal::Unlinked(link_text(object, fault))),
    }
}

/// Why a command stops whose object's program can't be checked.
pub fn flow_stop<'a>(fault: FlowFault) -> CommandStop<'a>
    ensures { result ≡ flow_stop fault }
{
    match fault {
        FlowFault::NoMemory => CommandStop::NoMemory,
        fault => CommandStop::Refused(Refusal::Unflowed(FlowFaultText { fault })),
    }
}
