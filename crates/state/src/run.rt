// Marks except time.
ghost use Rattle.std.specs.Prelude.{◌≡◌};
ghost use Rattle.state.specs.State.{same_marks};

use marks::Marks;

pub fn same_marks(m: Marks, n: Marks) -> bool
    ensures { result ≡ same_marks m n }
{
    Marks { time: n.time, ..m } == n
}
