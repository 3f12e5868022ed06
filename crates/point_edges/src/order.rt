//! That an object whose code is read is in order.

ghost use Rattle.std.specs.Prelude.{◌<◌, All};
ghost use Rattle.object_law.specs.Flows.{ObjectIsInOrder};

use object_points::Linked;

/// The law that bytes are numbers below 256.
fn bytes_are_low(bytes: &[u8])
    ensures { All (λ byte. byte < 256) bytes.now }
{}

/// The law that an object whose code is read is in order: it is well-formed, and neither an entry of a special section nor
/// an alternative is refused.
pub fn object_is_in_order(linked: &Linked<'_, '_>)
    ensures { ObjectIsInOrder linked.now }
{
    bytes_are_low(linked.object().bytes());
    linked.texts();
}
