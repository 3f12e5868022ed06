//! The edges of a program, and what its points are to a return.

ghost use Rattle.std.specs.Prelude.{◌≡◌, ◌<◌, length};

use crate::stored::{StoredEntry, StoredExit};
use machine_defs::Edge;

/// What a point is to a return.
#[derive(Clone, Copy, PartialEq, Eq)]
pub enum Exit {
    /// A return comes from it: it returns, jumps anywhere, or jumps to code outside that may return.
    Leaves,
    /// A call inside the program, by the number of the plain point at the entry, or at what else is called.
    Calls { entry: u32 },
    /// A call whose target always may return: outside or by a weak symbol, by a name that may return; indirect; or marked.
    CallsOut,
    /// A call whose target never returns: its name is listed.
    CallsNever,
    /// Anything else: a return may come from it where one may come from the end of one of its edges.
    Passes,
}

/// The edges of a program, and what its points are to a return. Points are told by their numbers, from 0 on.
#[derive(Drop)]
pub struct Flow {
    /// For each point, and once more behind the last, where in the list of edges its own begin. They end where
    /// those of the next begin.
    pub starts: Vec<u32>,
    /// The edges of all points, in the order of the points, with a Next for every call that isn't a dead end. A point
    /// that has the edges of another's jump table may have one edge of a table in their place, which leads to that point.
    pub edges: Vec<Edge>,
    /// What each point is to a return.
    pub exits: Vec<StoredExit>,
    /// Whether execution never passes a point.
    pub dead_ends: Vec<bool>,
    /// For each point, the entry at which control may come to stand at it, if there is one. Else a call that goes there goes to
    /// the point itself, and control that comes to it stands nowhere else.
    pub entered: Vec<StoredEntry>,
}

impl Flow {
    ghost use Rattle.return_search.specs.Told.{callee_at, edges_from, start_of};
    ghost use Rattle.return_search.specs.Shape.{HasShape, points_of};

    /// Where in the list of edges those of a point begin.
    pub(crate) fn start(&self, q: usize) -> usize
        requires { q < length self.now.starts.items }
        ensures { result ≡ start_of self.now q }
    {
        self.starts[q] as usize
    }

    /// By what number a call names a point: that of the entry at which control comes to it, where there is one, else its own.
    pub(crate) fn callee(&self, q: u32) -> u32
        requires shape { HasShape self.now }
        requires point { q < points_of self.now }
        ensures is { result ≡ callee_at self.now q }
        ensures inside { result < points_of self.now }
    {
        self.entered[q as usize].entry().unwrap_or(q)
    }

    /// The edges of a point.
    pub(crate) fn edges_from(&self, q: usize) -> &[Edge]
        requires shape { HasShape self.now }
        requires point { q < points_of self.now }
        ensures { result.now ≡ edges_from self.now q }
    {
        let from = self.start(q);
        let to = self.start(q + 1);
        &self.edges[from..to]
    }
}
