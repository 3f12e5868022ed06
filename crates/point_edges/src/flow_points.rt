//! The points of an object with all that is looked up to find where they go: where control may stand that comes to a place,
//! what follows a point, and the jump tables.

ghost use Rattle.std.specs.Prelude.{◌≡◌, ◌<◌, IfOk, length};
ghost use Rattle.flow_defs.specs.Arrival.{insn_of_object};
ghost use Rattle.flow_defs.specs.Code.{point_at, points_of_object};
ghost use Rattle.flow_defs.specs.Roles.{table_of_point};
ghost use Rattle.flow_defs.specs.Targets.{destination_of};
ghost use Rattle.point_arrivals.specs.Remade.{is_by_thunk as is_by_a_thunk, may_go_by_table as may_go_by_a_table};
ghost use Rattle.point_edges.specs.Tables.{AreTablesOf, table_start_of};

use flow_defs::Destination;
use jump_tables::JumpTables;
use object_points::{Linked, PointPlaces};
use operation_defs::Op;
use ot_base::{NoMemory, Place};
use point_arrivals::PointArrivals;
use std::alloc::Global;
use std::marker::Model;

/// The points of an object with all that is looked up to find where they go. Contracts see it as the object.
#[derive(Drop)]
pub struct FlowPoints<'l, 'o, 'a> {
    arrivals: PointArrivals<'l, 'o, 'a>,
    tables: JumpTables,
}

impl<'l, 'o, 'a> Model for FlowPoints<'l, 'o, 'a> {
    ghost use Rattle.flow_defs.specs.Coded.{Coded};
    ghost use Rattle.point_edges.specs.Tables.{AreTablesOf};

    ghost Value = { Coded };

    ghost view = { λ p. p.arrivals };

    ghost invariant = { λ p. AreTablesOf p.arrivals p.tables };
}

impl<'l, 'o, 'a> FlowPoints<'l, 'o, 'a> {
    /// The points of an object, with its jump tables.
    ///
    /// # Errors
    ///
    /// [`NoMemory`] may come at any object.
    pub fn build(
        alloc: Global,
        places: PointPlaces<'l, 'o, 'a>,
    ) -> Result<FlowPoints<'l, 'o, 'a>, NoMemory>
        ensures { IfOk result (λ points. points ≡ places.entry) }
    {
        let tables = tables_of(alloc, places.linked())?;
        let arrivals = PointArrivals::build(alloc, places)?;
        Ok(FlowPoints { arrivals, tables })
    }

    /// Where control comes to.
    pub fn arrivals(&self) -> &PointArrivals<'l, 'o, 'a>
        ensures { result.now ≡ self.now }
    {
        &self.arrivals
    }

    /// The points and who owns them.
    pub fn places(&self) -> &PointPlaces<'l, 'o, 'a>
        ensures { result.now ≡ self.now }
    {
        self.arrivals.places()
    }

    /// The entries of the jump table of a point; none where it is no jump through a recognised table, as padding isn't.
    pub fn table(&self, n: u32) -> &[Place]
        requires { n < length (points_of_object self.now) }
        ensures { result.now ≡ table_of_point self.now (point_at self.now n) }
    {
        let places = self.places();
        if places.is_padding(n) {
            return &[];
        }
        self.tables.of(places.point(n), places.owner(n))
    }

    /// The same, where the operation of the point is told, and where its direct jump goes.
    #[inline(always)]
    pub(crate) fn table_by(&self, n: u32, op: Op, to: Destination) -> &[Place]
        requires point { n < length (points_of_object self.now) }
        requires op { op ≡ (insn_of_object self.now (point_at self.now n)).op }
        requires to { to ≡ destination_of self.now (point_at self.now n) }
        ensures { result.now ≡ table_of_point self.now (point_at self.now n) }
    {
        if !may_go_by_table(op, to) {
            return &[];
        }
        self.table(n)
    }

    /// Where the table begins of the jump that stands at a point's place; None where it is no jump by a table.
    pub fn table_start(&self, n: u32) -> Option<Place>
        requires { n < length (points_of_object self.now) }
        ensures { result ≡ table_start_of self.now (point_at self.now n) }
    {
        self.tables.start_of(self.places().point(n))
    }
}

/// The jump tables of an object.
fn tables_of(alloc: Global, linked: &Linked<'_, '_>) -> Result<JumpTables, NoMemory>
    ensures { IfOk result (AreTablesOf linked.now) }
{
    JumpTables::build(alloc, linked.index(), linked.texts(), linked.sites())
}

/// Whether a direct jump goes to the thunk for indirect ones.
fn is_by_thunk(to: Destination) -> bool
    ensures { result ≡ is_by_a_thunk to }
{
    matches!(to, Destination::ToIndirectThunk)
}

/// Whether an operation may jump by a table, whose direct jump goes there: it jumps indirectly, or by a thunk.
fn may_go_by_table(op: Op, to: Destination) -> bool
    ensures { result ≡ may_go_by_a_table op to }
{
    match op {
        Op::Jmp { .. } => is_by_thunk(to),
        Op::JmpInd { .. } => true,
        _ => false,
    }
}
