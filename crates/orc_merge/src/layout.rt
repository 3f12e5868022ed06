//! Layouts: which objects are merged, and where the sections of each lie.

ghost use Rattle.std.specs.Prelude.{◌≡◌, ℕ, List, [], IfErr, IfOk, OnOk};
ghost use Rattle.orc_merge.specs.LayoutFile.{FileSaid, files_said, layout_files, IsLayout, IsLayoutFault};
ghost use Rattle.orc_merge.specs.LayoutLines.{file, place};

use crate::faults::{LayoutFault, LayoutWhy, LineFault};
use crate::layout_lines::{Statement, lines_of, read_line};
use std::alloc::Global;
use std::collections::BTreeSet;
use std::marker::Model;

/// A file of a layout, and where its sections lie.
#[derive(Drop)]
pub struct LayoutFile {
    /// The file's name: one or more bytes from 21 to 7E.
    pub name: String,
    /// The numbers of sections in the section header table, each with the address of the section's first byte, in the order of the
    /// lines. No number stands twice.
    pub places: Vec<(u32, u64)>,
}

/// The files of a layout, in the order of its lines.
#[derive(Drop)]
pub struct Layout {
    files: Vec<LayoutFile>,
}

impl Model for Layout {
    ghost use Rattle.std.specs.Prelude.{List};
    ghost use Rattle.orc_merge.specs.LayoutFile.{FileSaid};
    ghost use Rattle.orc_merge.specs.LayoutReading.{files_of};

    ghost Value = { List FileSaid };

    ghost view = { λ l. files_of l.files.items };
}

/// What the lines so far say.
#[derive(Drop)]
pub(crate) struct Reading {
    /// The files.
    files: Vec<LayoutFile>,
    /// The numbers of the last one's sections.
    sections: BTreeSet<u32>,
}

impl Reading {
    ghost use Rattle.orc_merge.specs.LayoutReading.{Adds, Holds, ReadsLine, said_by};

    /// What no line says.
    fn new(alloc: Global) -> Reading
        ensures { Holds [] result }
    {
        Reading {
            files: Vec::new(alloc),
            sections: BTreeSet::new(alloc),
        }
    }

    /// Adds a file.
    fn add_file(&mut self, alloc: Global, name: String) -> Result<(), LineFault>
        ensures { (files : List FileSaid) → Holds files self.old
            → Adds files (said_by (Statement.File name)) self.new result }
    {
        let places = Vec::new(alloc);
        self.files.push(LayoutFile { name, places })?;
        self.sections = BTreeSet::new(alloc);
        Ok(())
    }

    /// Adds where a section of the last file lies.
    fn add_place(&mut self, section: u32, base: u64) -> Result<(), LineFault>
        ensures { (files : List FileSaid) → Holds files self.old
            → Adds files (place section base) self.new result }
    {
        let count = self.files.len();
        if count == 0 {
            return Err(LineFault::Why(LayoutWhy::Number));
        }
        let is_new = self.sections.insert(section)?;
        if !is_new {
            return Err(LineFault::Why(LayoutWhy::Repeated));
        }
        self.files[count - 1].places.push((section, base))?;
        Ok(())
    }

    /// Adds what a statement says.
    fn add(&mut self, alloc: Global, statement: Statement) -> Result<(), LineFault>
        ensures { (files : List FileSaid) → Holds files self.old
            → Adds files (said_by statement) self.new result }
    {
        match statement {
            Statement::Nothing => Ok(()),
            Statement::File(name) => self.add_file(alloc, name),
            Statement::Place(section, base) => self.add_place(section, base),
        }
    }

    /// Reads one more line.
    fn read(&mut self, alloc: Global, line: &[u8]) -> Result<(), LineFault>
        ensures { (earlier : List (List ℕ)) → Holds (files_said earlier) self.old
            → ReadsLine earlier line.now self.new result }
    {
        let statement = read_line(alloc, line)?;
        self.add(alloc, statement)
    }
}

impl Layout {
    ghost use Rattle.orc_merge.specs.LayoutReading.{files_of};

    /// The layout that a text says. Its lines end in LF, and the last may lack it. A line is empty, begins with `#`, or is one of
    /// these, its words parted by one space:
    ///
    /// - `file NAME`: a file to be merged, NAME being one or more bytes from 21 to 7E.
    /// - `place N BASE`: the last file's section with number N lies at address BASE. No two lines of one file have one N.
    ///
    /// N is decimal, of 1 to 10 digits, and below 2^32; BASE is 1 to 16 lower-case hexadecimal digits. The first faulty line is
    /// refused.
    pub fn parse(alloc: Global, bytes: &[u8]) -> Result<Layout, LayoutFault>
        ensures files { IfOk result (λ layout. layout ≡ layout_files bytes.now) }
        ensures grammar { OnOk result (IsLayout bytes.now) }
        ensures fault { IfErr result (IsLayoutFault bytes.now) }
    {
        let lines = lines_of(alloc, bytes)?;
        let mut reading = Reading::new(alloc);
        for (index, line) in lines.iter().enumerate() {
            if let Err(fault) = reading.read(alloc, line) {
                return Err(fault.at(index as u64 + 1));
            }
        }
        let Reading { files, sections: _ } = reading;
        Ok(Layout { files })
    }

    /// The files, in the order of the lines.
    pub fn files(&self) -> &[LayoutFile]
        ensures { files_of result.now ≡ self.now }
    {
        &self.files
    }
}
