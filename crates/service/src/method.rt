// How an estate is worked out: by passes that visit each person of the lines concerned, or part by part down every way. The answers are the same.
ghost use Rattle.std.specs.Prelude.{◌≡◌, ℕ, ◌+◌, ◌*◌, ◌<◌, ◌≤◌, List, length};
ghost use Rattle.law.specs.Family.{Family};
ghost use Rattle.people.specs.Layout.{Roomy, image, limit_in, count_in};
ghost use Rattle.succession.specs.Settling.{DeadThere, EstateSettled};

pub trait Method {
    // The shares of the estate of somebody who is dead, written as the answer: how many there are; none where the estate is beyond the limits.
    fn settle(memory: &mut [u32], answer: &mut [u8], who: u32) -> Option<u32>
        requires room { Roomy memory.old }
        requires there { who < limit_in memory.old }
        requires bytes { 8 + 20 * limit_in memory.old ≤ length answer.old }
        ensures limit { limit_in memory.new ≡ limit_in memory.old }
        ensures count { count_in memory.new ≡ count_in memory.old }
        ensures settled { (n : ℕ) (f : Family) (rest : List ℕ) → memory.old ≡ image n f rest → DeadThere f n who
            → EstateSettled n f rest who memory.new answer.old answer.new result };
}

#[derive(Clone, Copy, PartialEq, Eq, Debug)]
pub struct Passes;

impl Method for Passes {
    fn settle(memory: &mut [u32], answer: &mut [u8], who: u32) -> Option<u32> {
        estates::settle(memory, answer, who)
    }
}

#[derive(Clone, Copy, PartialEq, Eq, Debug)]
pub struct Parts;

impl Method for Parts {
    fn settle(memory: &mut [u32], answer: &mut [u8], who: u32) -> Option<u32> {
        succession::settle(memory, answer, who)
    }
}
