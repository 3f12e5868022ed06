//! Worked examples of entries.

ghost use Rattle.std.specs.Prelude.{◌≡◌, [], ◌∷◌};
ghost use Rattle.eh_frame.specs.Records.{entry_bytes};
ghost use Rattle.eh_frame.specs.RowFrames.{spelled_rows};
ghost use Rattle.eh_frame.specs.WorkedRows.{frame_rows, leaf_rows};

/// The first entry of the sections `C3` and `55 48 89 E5 5D C3`, as `readelf` reads them.
#[tactic(auto, unfolding(crate::specs::Records::entry_bytes, crate::specs::RowFrames::spelled_rows, crate::specs::Groups::in_groups))]
pub fn worked_entries()
    ensures leaf { entry_bytes 24 1 (spelled_rows 1 leaf_rows)
        ≡ 0x14 ∷ 0 ∷ 0 ∷ 0 ∷ 0x1C ∷ 0 ∷ 0 ∷ 0 ∷ 0 ∷ 0 ∷ 0 ∷ 0 ∷ 0x01 ∷ 0 ∷ 0 ∷ 0 ∷ 0 ∷
        0x0C ∷ 0x07 ∷ 0x08 ∷ 0x90 ∷ 0x08 ∷ 0x08 ∷ 0x06 ∷ [] }
    ensures frame { entry_bytes 24 6 (spelled_rows 6 frame_rows)
        ≡ 0x2C ∷ 0 ∷ 0 ∷ 0 ∷ 0x1C ∷ 0 ∷ 0 ∷ 0 ∷ 0 ∷ 0 ∷ 0 ∷ 0 ∷ 0x06 ∷ 0 ∷ 0 ∷ 0 ∷ 0 ∷
        0x0C ∷ 0x07 ∷ 0x08 ∷ 0x90 ∷ 0x08 ∷ 0x08 ∷ 0x06 ∷
        0x41 ∷ 0x0C ∷ 0x07 ∷ 0x10 ∷ 0x90 ∷ 0x08 ∷ 0x86 ∷ 0x10 ∷
        0x43 ∷ 0x0C ∷ 0x06 ∷ 0x10 ∷ 0x90 ∷ 0x08 ∷ 0x86 ∷ 0x10 ∷
        0x41 ∷ 0x0C ∷ 0x07 ∷ 0x08 ∷ 0x90 ∷ 0x08 ∷ 0x08 ∷ 0x06 ∷ [] }
{}
