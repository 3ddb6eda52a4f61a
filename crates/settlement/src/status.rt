// A transaction's status in a view, and the number that stands for it in a cell of the table.
ghost use Rattle.std.specs.Prelude.{◌≡◌};
ghost use Rattle.settlement.specs.Inner.{as_ruled};
ghost use Rattle.settlement.specs.Tables.{code_of, status_of};

#[derive(Clone, Copy, Debug, PartialEq, Eq)]
pub enum Status {
    Open,
    Paid,
    Returned,
}

// The status that a cell stands for. A number that no settlement writes reads as returned.
#[tactic(auto, unfolding(crate::specs::Tables::status_of, sums::specs::Test::pick))]
pub fn status_of(cell: u8) -> Status
    ensures { as_ruled result ≡ status_of cell }
{
    match cell {
        0 => Status::Open,
        1 => Status::Paid,
        _ => Status::Returned,
    }
}

impl From<Status> for u8 {
    ghost from_gives = { λ status cell. cell ≡ code_of (as_ruled status) };

    fn from(status: Status) -> u8 {
        match status {
            Status::Open => 0,
            Status::Paid => 1,
            Status::Returned => 2,
        }
    }
}
