// Prints the lines that answer a file of calls, or calls on standard input. What it is run on here is data/family.calls: births with none, one and both
// parents known, deaths and deaths twice, parents who are not there or are one person, numbers up to 2 to the 32nd less 1, a wedding, a parting, an
// estate, and a birth that the end cuts off.
#![tactic(auto)]

use service::stage::BirthsAndDeaths;
use std::process::ExitCode;

const HELP: &str = "Usage: calls [FILE]

Answers the calls in FILE, or on standard input, one after the other, by a new
register of families for 64 persons, and prints the answers as lines.

A call is a byte that says its kind, and numbers of four bytes, low byte first:
  0 MOTHER FATHER  a birth; a parent is 0 where not known, else one more than
                   that person's number
  1 WHO WHO        a wedding
  2 WHO            a parting from the spouse
  3 WHO            a death
  4 WHO            the estate of somebody, as if they had died now
Persons are numbered from 0 as they are born.

A birth is answered by the child's number, and a death by who died. Weddings,
partings and estates are read and refused by 2.
A call that is turned away is answered as by `refused 5 at 0`, which changes
nothing. The refusals are:
  1  no call, and the place of the first byte that doesn't fit; the rest of the
     file is not read
  2  a call that the register doesn't take
  4  somebody is not there, or the mother is the father
  5  who dies is dead already
  6  more than 64 persons

Example: somebody is born, and dies.
  printf '\\0\\0\\0\\0\\0\\0\\0\\0\\0\\3\\0\\0\\0\\0' | calls
prints
  0
  0
";

fn main(rt: HostRuntime) -> ExitCode {
    console::run::<BirthsAndDeaths>(&rt, "calls", HELP)
}
