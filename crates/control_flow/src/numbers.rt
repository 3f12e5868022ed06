//! Numbers of what many points have in common.

ghost use Rattle.std.specs.Prelude.{◌≡◌, ◌-◌, ◌<◌, ◌^◌, IfOk, IsTrue, Some, length, slice_get};
ghost use Rattle.control_flow.specs.Numbers.{IsNumbered};

use ot_base::NoMemory;

/// The number of an item in a list, where it is told whether it is the first or the last of them; else it is
/// put behind the last.
pub(crate) fn number_of<T: Copy>(
    list: &mut Vec<T>,
    item: T,
    is_first: bool,
    is_last: bool,
) -> Result<u32, NoMemory>
    requires some { 0 < length list.old.items }
    requires few { length list.old.items < 2 ^ 32 }
    requires first { IsTrue is_first → slice_get list.old.items 0 ≡ Some item }
    requires last { IsTrue is_last → slice_get list.old.items (length list.old.items - 1) ≡ Some item }
    ensures { IfOk result (IsNumbered list.old.items list.new.items item) }
{
    let count = list.len() as u32;
    if is_first {
        Ok(0)
    } else if is_last {
        Ok(count - 1)
    } else {
        list.push(item)?;
        Ok(count)
    }
}
