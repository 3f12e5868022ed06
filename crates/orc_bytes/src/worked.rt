//! Worked examples of the bytes, as they stand in objects that other tools made.

ghost use Rattle.std.specs.Prelude.{◌≡◌, [], ◌∷◌, pos, negsuc};
ghost use Rattle.table_defs.specs.Worked.{call_row, saved_row, frame_pointer_row, partial_row, full_row, end_row, zero_row};
ghost use Rattle.orc_bytes.specs.RowBytes.{bytes_of_row};
ghost use Rattle.orc_bytes.specs.RelocBytes.{bytes_of_reloc};

/// The bytes of the rows that occur most.
#[tactic(auto, unfolding(crate::specs::RowBytes::bytes_of_row))]
pub fn worked_rows()
    ensures entry { bytes_of_row (call_row 8) ≡ 0x08 ∷ 0 ∷ 0 ∷ 0 ∷ 0x05 ∷ 0x02 ∷ [] }
    ensures saved { bytes_of_row (saved_row 16) ≡ 0x10 ∷ 0 ∷ 0xF0 ∷ 0xFF ∷ 0x15 ∷ 0x02 ∷ [] }
    ensures frame_pointer { bytes_of_row frame_pointer_row
        ≡ 0x10 ∷ 0 ∷ 0xF0 ∷ 0xFF ∷ 0x14 ∷ 0x02 ∷ [] }
    ensures full { bytes_of_row full_row ≡ 0 ∷ 0 ∷ 0 ∷ 0 ∷ 0x05 ∷ 0x0B ∷ [] }
    ensures partial { bytes_of_row (partial_row 8) ≡ 0x08 ∷ 0 ∷ 0 ∷ 0 ∷ 0x05 ∷ 0x0C ∷ [] }
    ensures end_of_stack { bytes_of_row end_row ≡ 0 ∷ 0 ∷ 0 ∷ 0 ∷ 0 ∷ 0x01 ∷ [] }
    ensures undefined { bytes_of_row zero_row ≡ 0 ∷ 0 ∷ 0 ∷ 0 ∷ 0 ∷ 0 ∷ [] }
{}

/// The relocation of the second row of a table, against symbol 3 with the addend 0x1B; and one with
/// a negative addend.
#[tactic(auto, unfolding(crate::specs::RelocBytes::bytes_of_reloc))]
pub fn worked_relocs()
    ensures second { bytes_of_reloc (record { offset = 4; kind = 2; sym = 3; addend = pos 0x1B })
        ≡ 4 ∷ 0 ∷ 0 ∷ 0 ∷ 0 ∷ 0 ∷ 0 ∷ 0 ∷ 2 ∷ 0 ∷ 0 ∷ 0 ∷ 3 ∷ 0 ∷ 0 ∷ 0 ∷ 0x1B ∷ 0 ∷ 0 ∷
        0 ∷ 0 ∷ 0 ∷ 0 ∷ 0 ∷ [] }
    ensures negative { bytes_of_reloc (record { offset = 10; kind = 4; sym = 256; addend = negsuc 3 })
        ≡ 10 ∷ 0 ∷ 0 ∷ 0 ∷ 0 ∷ 0 ∷ 0 ∷ 0 ∷ 4 ∷ 0 ∷ 0 ∷ 0 ∷ 0 ∷ 1 ∷ 0 ∷ 0 ∷ 0xFC ∷ 0xFF ∷
        0xFF ∷ 0xFF ∷ 0xFF ∷ 0xFF ∷ 0xFF ∷ 0xFF ∷ [] }
{}
