//! Images of a stopped thread.

ghost use Rattle.std.specs.Prelude.{◌≡◌, IfOk, IfErr};
ghost use Rattle.orc_walk.specs.ImageFile.{IsImage, IsImageFault};

use crate::Memory;
use crate::image_fault::ImageFault;
use crate::lines::lines_of;
use crate::reading::Reading;
use std::alloc::Global;
use std::marker::Model;
use table_defs::Regs;

/// What a walk over the stack of a stopped thread begins with: the registers, where the text sections of
/// an object lie, and memory.
#[derive(Drop)]
pub struct Image {
    regs: Regs,
    places: Vec<(u32, u64)>,
    memory: Memory,
}

impl Model for Image {
    ghost use Rattle.orc_walk.specs.ImageFile as image;

    ghost Value = { image.StackImage };

    ghost view = { λ i. record { regs = i.regs; places = i.places.items; memory = i.memory } };
}

impl Image {
    /// The image of these parts.
    pub(crate) fn new(regs: Regs, places: Vec<(u32, u64)>, memory: Memory) -> Image
        ensures { result ≡ record { regs = regs; places = places.items; memory = memory } }
    {
        Image {
            regs,
            places,
            memory,
        }
    }

    /// The image that a text says. Its lines end in LF, and the last may lack it. A line is empty, begins
    /// with `#`, or is one of these, its words parted by one space:
    ///
    /// - `regs IP SP BP`: the registers rip, rsp and rbp. Exactly one line says them.
    /// - `place N BASE`: the section with number N lies at address BASE. No two lines have one N.
    /// - `mem ADDR BYTES`: the bytes from address ADDR on. The last one's address is at most `u64::MAX`,
    ///   and no two lines have a byte at one address.
    ///
    /// N is decimal, of 1 to 10 digits, and below 2^32. BYTES is a positive even number of lower-case
    /// hexadecimal digits, two a byte, its high four bits first. Each other number is 1 to 16 of these
    /// digits. The first faulty line is refused.
    pub fn parse(alloc: Global, bytes: &[u8]) -> Result<Image, ImageFault>
        ensures image { IfOk result (IsImage bytes.now) }
        ensures fault { IfErr result (IsImageFault bytes.now) }
    {
        let lines = lines_of(alloc, bytes)?;
        let mut reading = Reading::new(alloc);
        for (index, line) in lines.iter().enumerate() {
            if let Err(fault) = reading.read(alloc, line) {
                return Err(fault.at(index as u64 + 1));
            }
        }
        reading.finish(alloc, lines.len() as u64 + 1)
    }

    /// The registers that the thread stopped with.
    pub fn regs(&self) -> Regs
        ensures { result ≡ self.now.regs }
    {
        self.regs
    }

    /// The numbers of sections in the section header table, each with the address of the section's first
    /// byte, in the order of the lines.
    pub fn places(&self) -> &[(u32, u64)]
        ensures { result.now ≡ self.now.places }
    {
        &self.places
    }

    /// The memory.
    pub fn into_memory(self) -> Memory
        ensures { result ≡ self.memory }
    {
        self.memory
    }
}
