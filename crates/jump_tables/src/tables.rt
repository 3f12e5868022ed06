//! The tables of all jumps.

ghost use Rattle.std.specs.Prelude.{◌≡◌, ℕ, Option, IfOk};
ghost use Rattle.alternatives.specs.declared.point.Point.{Point};
ghost use Rattle.alternatives.specs.Texts.{AscendBySection};
ghost use Rattle.jump_tables.specs.Kept.{start_in, table_in};
ghost use Rattle.flow_defs.specs.Tables.{jump_table, table_of};

use crate::code::Code;
use crate::jump::{Jump, find_jump, list_jumps, sort_jumps, start_at};
use crate::places::find_first;
use crate::starts::list_starts;
use crate::table::{Table, list_tables};
use alternatives::{Point, SectionText, Sites};
use ot_base::{NoMemory, Place};
use std::alloc::Global;
use std::marker::Model;
use symbols_relocs::Index;

/// The tables of the indirect jumps of an object. Contracts see what is kept of them.
#[derive(Drop)]
pub struct JumpTables {
    /// The jumps by a table, in the order of their places.
    jumps: Vec<Jump>,
    /// Where their tables begin, each once, in their order.
    starts: Vec<Place>,
    /// What is kept of the table that begins at each of these.
    tables: Vec<Table>,
}

impl Model for JumpTables {
    ghost use Rattle.jump_tables.specs.Kept.{AreOrdered, KeptTables};

    ghost Value = { KeptTables };

    ghost view = { λ t. record { jumps = t.jumps.items; starts = t.starts.items; tables = t.tables.items } };

    ghost invariant = { λ t. AreOrdered t.jumps.items t.starts.items t.tables.items };
}

impl JumpTables {
    /// The tables of the jumps in the text sections of an object, also of those in replacements.
    ///
    /// A table that several jumps name is read once.
    pub fn build(
        alloc: Global,
        index: &Index<'_, '_>,
        texts: &[SectionText<'_>],
        sites: &Sites,
    ) -> Result<JumpTables, NoMemory>
        requires { AscendBySection texts.now }
        ensures tables { IfOk result (λ tables. (point : Point) (owner : Option ℕ) → table_in tables point owner ≡ table_of index.now.elf texts.now sites.now.entries point owner) }
        ensures starts { IfOk result (λ tables. (point : Point) → start_in tables point ≡ jump_table index.now.elf texts.now sites.now.entries point) }
    {
        let code = Code {
            index,
            texts,
            sites,
        };
        let mut jumps = list_jumps(alloc, &code)?;
        let starts = list_starts(alloc, &jumps)?;
        let tables = list_tables(alloc, &code, &starts)?;
        sort_jumps(&mut jumps)?;
        Ok(JumpTables {
            jumps,
            starts,
            tables,
        })
    }

    /// The entries of the table of the jump at a point, for an owner.
    ///
    /// The owner is told by its symbol, the [`sym`](symbols_relocs::Function::sym) of its function, or None
    /// for a point of no function. A plain point has the owner of its place, a point of a replacement that
    /// of the address at which it runs. It is empty where no jump by a table begins at the point, where its
    /// table isn't recognised, and where the table's first entry has another owner. It takes no memory.
    pub fn of(&self, point: Point, owner: Option<u32>) -> &[Place]
        ensures { result.now ≡ table_in self.now point owner }
    {
        let Some(start) = self.start_of(point) else {
            return &[];
        };
        let Some(at) = find_first(&self.starts, start) else {
            return &[];
        };
        self.tables[at].entries_for(owner)
    }

    /// Where the table begins of the jump at a point; None where no jump by a table begins there. In a replacement
    /// only a jump that itself names its table has one.
    pub fn start_of(&self, point: Point) -> Option<Place>
        ensures { result ≡ start_in self.now point }
    {
        let jump = find_jump(&self.jumps, point.place)?;
        start_at(&jump, point.variant)
    }
}
