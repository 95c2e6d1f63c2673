// Prints the lines that answer a file of calls, or calls on standard input. What it is run on here is data/family.calls: the family of docs/RULES.md as
// things happen in it; a child of cousins; grandparents on two sides; a dead brother's dead daughter's son; a great-grandson by two lines; weddings,
// partings and widows; a spouse who is an heir by a line; every refusal; and a wedding that the end cuts off.
#![tactic(auto)]

use service::stage::AllCalls;
use std::process::ExitCode;

const HELP: &str = "Usage: calls [FILE]

Answers the calls in FILE, or on standard input, one after the other, by a new
register of families for 64 persons, and prints the answers as lines.

A call is a byte that says its kind, and numbers of four bytes, low byte first:
  0 MOTHER FATHER  a birth; a parent is 0 where not known, else one more than
                   that person's number
  1 WHO WHO        a wedding
  2 WHO            a parting from the spouse
  3 WHO            a death
  4 WHO            the estate of somebody, as if they had died now
Persons are numbered from 0 as they are born.

A birth is answered by the child's number, a wedding by the first of the two, a
parting by the former spouse, and a death by who died. An estate is answered by
a line for each heir, as `2 1/4`: who, and the share in lowest terms; or by
`no heirs`.
A call that is turned away is answered as by `refused 5 at 0`, which changes
nothing. The refusals are:
  1  no call, and the place of the first byte that doesn't fit; the rest of the
     file is not read
  4  somebody is not there, or the mother is the father
  5  a wedding with oneself, of somebody dead or with a spouse; a parting
     without a spouse; a death of somebody dead
  6  more than 64 persons; an estate of more than 4,096 parts, or of which the
     least number that all parts divide is 2 to the 32nd or more

Example: somebody is born, has two children, and the estate is asked for.
  printf '\\0\\0\\0\\0\\0\\0\\0\\0\\0\\0\\1\\0\\0\\0\\0\\0\\0\\0\\0\\1\\0\\0\\0\\0\\0\\0\\0\\4\\0\\0\\0\\0' | calls
prints
  0
  1
  2
  1 1/2
  2 1/2
";

fn main(rt: HostRuntime) -> ExitCode {
    console::run::<AllCalls>(&rt, "calls", HELP)
}
