//! An image while its lines are read.

ghost use Rattle.std.specs.Prelude.{◌<◌, ℕ, List, [], length, OnOk};
ghost use Rattle.orc_walk.specs.ImageFile.{sayings};
ghost use Rattle.orc_walk.specs.Statements.{Said, memory, place, registers};
ghost use Rattle.orc_walk.specs.Reading.{Adds, Finishes, HasBytes, Holds, IsSound, ReadsLine, said_by};

use crate::Memory;
use crate::image::Image;
use crate::image_fault::{ImageFault, ImageWhy, LineFault};
use crate::ranges::{add_piece, piece_fault};
use crate::statements::{Statement, read_line};
use std::alloc::Global;
use std::collections::{BTreeMap, BTreeSet};
use table_defs::Regs;

/// What the lines so far say.
#[derive(Drop)]
pub(crate) struct Reading {
    /// The registers.
    regs: Option<Regs>,
    /// The numbers of sections with their bases, in the order of the lines.
    places: Vec<(u32, u64)>,
    /// The numbers of these sections.
    sections: BTreeSet<u32>,
    /// The bytes of memory, by the address of the first.
    ranges: BTreeMap<u64, Vec<u8>>,
}

impl Reading {
    /// What no line says.
    pub(crate) fn new(alloc: Global) -> Reading
        ensures sound { IsSound result }
        ensures none { Holds [] result }
    {
        Reading {
            regs: None,
            places: Vec::new(alloc),
            sections: BTreeSet::new(alloc),
            ranges: BTreeMap::new(alloc),
        }
    }

    /// Adds the registers.
    fn add_registers(&mut self, regs: Regs) -> Result<(), LineFault>
        requires { IsSound self.old }
        ensures sound { OnOk result (IsSound self.new) }
        ensures adds { (earlier : List Said) → Holds earlier self.old
            → Adds earlier (registers regs) self.new result }
    {
        if self.regs.is_some() {
            return Err(LineFault::Why(ImageWhy::Repeated));
        }
        self.regs = Some(regs);
        Ok(())
    }

    /// Adds where a section lies.
    fn add_place(&mut self, section: u32, base: u64) -> Result<(), LineFault>
        requires { IsSound self.old }
        ensures sound { OnOk result (IsSound self.new) }
        ensures adds { (earlier : List Said) → Holds earlier self.old
            → Adds earlier (place section base) self.new result }
    {
        let is_new = self.sections.insert(section)?;
        if !is_new {
            return Err(LineFault::Why(ImageWhy::Repeated));
        }
        self.places.push((section, base))?;
        Ok(())
    }

    /// Adds bytes of memory, of which there is one at least.
    fn add_memory(&mut self, base: u64, bytes: Vec<u8>) -> Result<(), LineFault>
        requires sound { IsSound self.old }
        requires not_empty { 0 < length bytes.items }
        ensures sound { OnOk result (IsSound self.new) }
        ensures adds { (earlier : List Said) → Holds earlier self.old
            → Adds earlier (memory (record { base = base; bytes = bytes.items })) self.new result }
    {
        if let Some(why) = piece_fault(&self.ranges, base, &bytes) {
            return Err(LineFault::Why(why));
        }
        add_piece(&mut self.ranges, base, bytes)?;
        Ok(())
    }

    /// Adds what a statement says.
    fn add(&mut self, statement: Statement) -> Result<(), LineFault>
        requires sound { IsSound self.old }
        requires not_empty { HasBytes (said_by statement) }
        ensures sound { OnOk result (IsSound self.new) }
        ensures adds { (earlier : List Said) → Holds earlier self.old
            → Adds earlier (said_by statement) self.new result }
    {
        match statement {
            Statement::Nothing => Ok(()),
            Statement::Registers(regs) => self.add_registers(regs),
            Statement::Place(section, base) => self.add_place(section, base),
            Statement::Memory(base, bytes) => self.add_memory(base, bytes),
        }
    }

    /// Reads one more line.
    pub(crate) fn read(&mut self, alloc: Global, line: &[u8]) -> Result<(), LineFault>
        requires { IsSound self.old }
        ensures sound { OnOk result (IsSound self.new) }
        ensures reads { (earlier : List (List ℕ)) → Holds (sayings earlier) self.old
            → ReadsLine earlier line.now self.new result }
    {
        let statement = read_line(alloc, line)?;
        self.add(statement)
    }

    /// The image, once all lines are read, of which the one behind the last is `line`.
    pub(crate) fn finish(self, alloc: Global, line: u64) -> Result<Image, ImageFault>
        requires { IsSound self }
        ensures { (all : List Said) → Holds all self → Finishes all line result }
    {
        let Reading {
            regs,
            places,
            sections: _,
            ranges,
        } = self;
        let Some(regs) = regs else {
            let why = ImageWhy::NoRegs;
            return Err(ImageFault::Line { line, why });
        };
        let ranges = ranges.into_iter().collect(alloc)?;
        Ok(Image::new(regs, places, Memory::new(ranges)))
    }
}
