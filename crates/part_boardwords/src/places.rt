// Where a line begins.
ghost use Rattle.std.specs.Prelude.{◌≡◌, ◌<◌};
ghost use Rattle.spec_plain.specs.Limits.{resources};
ghost use Rattle.part_boardwords.specs.Layout.{line_start};

use crate::layout;

// The first word of line k: its count. What reads and writes the uses of a line asks for it.
pub fn line_start(k: usize) -> usize
    requires { k < resources }
    ensures { result ≡ line_start k }
{
    layout::LINES_AT + layout::LINE_SIZE * k
}
