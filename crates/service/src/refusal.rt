// Why a call is turned away, or a register is not opened.
use wire::Unreadable;

#[derive(Clone, Copy, PartialEq, Eq, Debug)]
pub enum Refusal {
    // bytes that are no call, and the place of the first that doesn't fit
    Unreadable(u32),
    // a call that the register doesn't take
    NotTaken,
    // at opening: more persons than a register may have
    TooManyPersons,
    // at opening: memory smaller than is asked for
    TooSmall,
    // somebody who is not there, or a mother who is the father
    NotThere,
    // marriage or death don't allow it
    NotAllowed,
    // more persons than the limit, or an estate beyond the limits
    BeyondLimit,
}

impl From<Unreadable> for Refusal {
    ghost use Rattle.service.specs.Refusals.{IsOf};

    ghost from_gives = { IsOf };

    fn from(unreadable: Unreadable) -> Refusal {
        Refusal::Unreadable(unreadable.at)
    }
}
