// Prints who would inherit what if somebody of a family in a file died now. What it is run on here is data/family.txt: Frieda and Hans, who are dead, were
// cousins and married, so that their children Ida and Jürgen inherit of their great-grandmother Anna by two lines, and Frieda's daughter Lena by one.
#![tactic(auto)]

use std::alloc::AllocError;
use std::process::ExitCode;
use std::{env, fmt};
use text::Fault;

const HELP: &str = "Usage: estate FAMILY NAME

Reads a family from the file FAMILY, and prints who would inherit what if NAME
died now without a will: a line for each heir, in the family's order, with the
share as a fraction; `no heirs` where there is none; or `refused 6 at 0` where
the estate can't be divided within the limits.

A family is a line for each person, at most 64, each with a newline at its end:
a name; then, where it is so and in this order, the parents, that they died, and
the spouse.
  Anna
  Bruno, spouse of Anna
  Carl, of Anna and Bruno
  Dora, of Anna, died
  Emil, of unknown and Bruno, died, spouse of Dora
The mother stands first, `of Anna` is the mother alone, and `of unknown and
Bruno` the father alone. Parents stand in earlier lines. A spouse may stand in
any line, and is named on one of the two lines or on both.
A name has 1 to 64 letters, spaces and hyphens, is used once, has no space at
either end and no word `and`, and is not `unknown`.

A line that is refused is told on standard error by its number, from 0, and why.

Example: of the estate of Carl in the family
  Anna, spouse of Bruno
  Bruno
  Carl, of Anna and Bruno
estate prints
  Anna 1/2
  Bruno 1/2
";

// Why nothing was printed.
#[derive(Drop)]
enum Failure {
    Console(console::Failure),
    WrongArguments,
    Line(Fault, String),
    NotThere(String),
}

impl From<console::Failure> for Failure {
    fn from(failure: console::Failure) -> Failure {
        Failure::Console(failure)
    }
}

impl From<AllocError> for Failure {
    fn from(_: AllocError) -> Failure {
        Failure::Console(console::Failure::NoMemory)
    }
}

impl fmt::Display for Failure {
    fn fmt<W: fmt::Write>(&self, f: &mut fmt::Formatter<W>) -> fmt::Result {
        match self {
            Failure::Console(failure) => write!(f, "{failure}"),
            Failure::WrongArguments => write!(
                f,
                "a file and a name are asked for; see estate --help"
            ),
            Failure::Line(fault, text) => write!(f, "{fault}: {text}"),
            Failure::NotThere(name) => write!(f, "nobody is called {name}"),
        }
    }
}

// What the arguments ask for.
#[derive(Drop)]
enum Asked {
    Help,
    Estate(String, String),
}

fn arguments(rt: &HostRuntime) -> Result<Asked, Failure> {
    let mut words = env::args(rt).map_err(console::Failure::Arguments)?.skip(1);
    let file = words.next().ok_or(Failure::WrongArguments)?;
    if file.as_str() == "--help" {
        return Ok(Asked::Help);
    }
    if file.as_str().starts_with('-') {
        return Err(console::Failure::UnknownOption("estate", file).into());
    }
    let name = words.next().ok_or(Failure::WrongArguments)?;
    if words.next().is_some() {
        return Err(Failure::WrongArguments);
    }
    Ok(Asked::Estate(file, name))
}

// Prints the lines of an estate.
fn print_estate(rt: &HostRuntime, file: String, name: String) -> Result<(), Failure> {
    let bytes = console::file_bytes(rt, file)?;
    match clerk::estate(rt.alloc(), bytes.as_slice(), name.as_str()) {
        Ok(lines) => Ok(console::print(rt, lines.as_str())?),
        Err(clerk::Failure::Line(fault)) => {
            let line = text::line_at(bytes.as_slice(), fault.line);
            let shown = String::from_utf8_lossy(rt.alloc(), line)?;
            Err(Failure::Line(fault, shown))
        }
        Err(clerk::Failure::NotThere) => Err(Failure::NotThere(name)),
        Err(clerk::Failure::NoMemory) => Err(console::Failure::NoMemory.into()),
    }
}

fn run(rt: &HostRuntime) -> Result<(), Failure> {
    match arguments(rt)? {
        Asked::Help => Ok(console::print(rt, HELP)?),
        Asked::Estate(file, name) => print_estate(rt, file, name),
    }
}

fn main(rt: HostRuntime) -> ExitCode {
    match run(&rt) {
        Ok(()) => ExitCode::SUCCESS,
        Err(failure) => {
            let _ = eprintln!(rt; "estate: {failure}");
            ExitCode::FAILURE
        }
    }
}
