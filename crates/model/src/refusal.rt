// Why a call is refused. A refusal has a number, by which users know it.
ghost use Rattle.std.specs.Prelude.{◌≡◌, if◌then◌else◌, Ok, Err};
ghost use Rattle.model.specs.Refusals.{number};

#[derive(Clone, Copy, Debug)]
pub enum Refusal {
    NoSuchNode = 1,
    NoSuchSlot = 3,
    NoFreeCell = 7,
    ToItself = 8,
    NoRoom = 9,
    BadSize = 11,
    NotActive = 12,
    NotInTransit = 13,
    TooManySent = 14,
    NotInUse = 15,
    NotGrey = 16,
    OutOfRange = 24,
}

impl Refusal {
    // The number that users see.
    pub fn number(self) -> u8
        ensures { result ≡ number self }
    {
        self as u8
    }
}

// One question of a call: a no is its refusal.
pub fn ask(yes: bool, refusal: Refusal) -> Result<(), Refusal>
    ensures { result ≡ (if yes then Ok tt else Err refusal) }
{
    if yes { Ok(()) } else { Err(refusal) }
}
