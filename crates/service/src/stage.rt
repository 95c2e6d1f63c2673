// The stages of a register: which calls it takes.
ghost use Rattle.std.specs.Prelude.{◌≡◌, ℕ, Bool};
ghost use Rattle.law.specs.Calls.{call_number};
ghost use Rattle.law.specs.Promise.{births_and_deaths, all_calls};
ghost use Rattle.wire.specs.Bytes.{call_of};

use wire::Request;

// A stage; registers are marked by it as by a type, and hold nothing of it.
pub trait Stage {
    // which kinds of calls are taken, by their numbers
    ghost can: { ℕ → Bool };

    // Whether a call is taken.
    fn takes(request: &Request) -> bool
        ensures { result ≡ can (call_number (call_of request.now)) };
}

// Births and deaths alone.
#[derive(Clone, Copy, PartialEq, Eq, Debug)]
pub struct BirthsAndDeaths;

impl Stage for BirthsAndDeaths {
    ghost can = { births_and_deaths };

    fn takes(request: &Request) -> bool {
        matches!(request, Request::Born(_, _) | Request::Dies(_))
    }
}

// All five calls.
#[derive(Clone, Copy, PartialEq, Eq, Debug)]
pub struct AllCalls;

impl Stage for AllCalls {
    ghost can = { all_calls };

    fn takes(_: &Request) -> bool {
        true
    }
}
