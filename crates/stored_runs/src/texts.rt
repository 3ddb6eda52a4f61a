// Whether two texts are the same.
ghost use Rattle.std.specs.Prelude.{◌≡◌};
ghost use Rattle.stored_runs.specs.Counts.{Tells};

pub fn same(a: &[u8], b: &[u8]) -> bool
    ensures { Tells result (a.now ≡ b.now) }
{
    a == b
}
