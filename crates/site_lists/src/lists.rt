//! Site lists.

use ot_base::Place;

/// Three lists of places of an object's code.
#[derive(Drop)]
pub struct SiteLists {
    /// Direct calls and branches to a thunk `__x86_indirect_thunk_..`, of `.retpoline_sites`.
    pub retpoline: Vec<Place>,
    /// Direct calls and branches to `__x86_return_thunk`, of `.return_sites`.
    pub returns: Vec<Place>,
    /// Direct calls of other code, of `.call_sites`.
    pub calls: Vec<Place>,
}
