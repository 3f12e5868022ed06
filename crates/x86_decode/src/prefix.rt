ghost use Rattle.std.specs.Prelude.{◌≡◌, if◌then◌else◌, Some, None};
ghost use Rattle.x86_decode.specs.Prefix.{is_legacy};
ghost use Rattle.x86_decode.specs.Reading.{noted, no_prefixes};

use x86_map::{Map, Prefixes};

/// No prefix.
pub(crate) fn no_prefixes(map: Map) -> Prefixes
    ensures { result ≡ no_prefixes map }
{
    Prefixes {
        map,
        has_66: false,
        has_67: false,
        has_f3: false,
        has_f2: false,
        has_f0: false,
        has_fs_gs: false,
        rex: None,
        vector: None,
    }
}

/// The prefixes with one more legacy prefix, if the byte is one.
pub(crate) fn noted(p: Prefixes, byte: u8) -> Option<Prefixes>
    ensures { result ≡ (if is_legacy byte then Some (noted byte p) else None) }
{
    match byte {
        0x66 => Some(Prefixes { has_66: true, ..p }),
        0x67 => Some(Prefixes { has_67: true, ..p }),
        0xF3 => Some(Prefixes { has_f3: true, ..p }),
        0xF2 => Some(Prefixes { has_f2: true, ..p }),
        0xF0 => Some(Prefixes { has_f0: true, ..p }),
        0x64 | 0x65 => Some(Prefixes {
            has_fs_gs: true,
            ..p
        }),
        0x2E | 0x36 | 0x3E | 0x26 => Some(p),
        _ => None,
    }
}
