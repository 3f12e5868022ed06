//! What holds of `find` on the OUT of `merge`.

ghost use Rattle.command_base.specs.MergeLaws.{MergedIsFound, MergedIsRead};

/// Where `merge` is done and no file changes behind it, `find` can read OUT, and prints at each address the line of
/// what holds there in the merged rows.
pub fn merged_rows_are_found()
    ensures read { MergedIsRead }
    ensures found { MergedIsFound }
{}
