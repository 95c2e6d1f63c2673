// What the programs for files of calls share: what they read and print, and why nothing was answered.
#![tactic(auto)]

use service::stage::Stage;
use std::alloc::AllocError;
use std::io::Read;
use std::process::ExitCode;
use std::{env, fmt, fs, io};

// Why nothing was answered. What is wrong with the arguments is told with the program's name.
#[derive(Drop, Debug)]
pub enum Failure {
    Arguments(io::Error),
    ManyArguments(&'static str),
    UnknownOption(&'static str, String),
    Unreadable(String, io::Error),
    UnreadableInput(io::Error),
    NoMemory,
    Unprintable(io::Error),
}

impl From<AllocError> for Failure {
    fn from(_: AllocError) -> Failure {
        Failure::NoMemory
    }
}

impl fmt::Display for Failure {
    fn fmt<W: fmt::Write>(&self, f: &mut fmt::Formatter<W>) -> fmt::Result {
        match self {
            Failure::Arguments(error) => write!(f, "arguments: {error}"),
            Failure::ManyArguments(program) => {
                write!(f, "more than one argument; see {program} --help")
            }
            Failure::UnknownOption(program, option) => {
                write!(f, "unknown option {option}; see {program} --help")
            }
            Failure::Unreadable(name, error) => write!(f, "{name}: {error}"),
            Failure::UnreadableInput(error) => write!(f, "standard input: {error}"),
            Failure::NoMemory => write!(f, "not enough memory"),
            Failure::Unprintable(error) => write!(f, "standard output: {error}"),
        }
    }
}

// Prints on standard output.
pub fn print(rt: &HostRuntime, text: &str) -> Result<(), Failure> {
    rt.print(text).map_err(|error| Failure::Unprintable(error))
}

// The bytes of a file.
pub fn file_bytes(rt: &HostRuntime, name: String) -> Result<Vec<u8>, Failure> {
    fs::read(rt, name.as_str()).map_err(|error| Failure::Unreadable(name, error))
}

// The bytes on standard input.
pub fn input_bytes(rt: &HostRuntime) -> Result<Vec<u8>, Failure> {
    let mut bytes = Vec::new(rt.alloc());
    rt.stdin()
        .read_to_end(&mut bytes)
        .map_err(|error| Failure::UnreadableInput(error))?;
    Ok(bytes)
}

// The only argument of a program, if there is one.
fn argument(rt: &HostRuntime, program: &'static str) -> Result<Option<String>, Failure> {
    let mut arguments = env::args(rt).map_err(|error| Failure::Arguments(error))?;
    let _ = arguments.next();
    let only = arguments.next();
    if arguments.next().is_some() {
        return Err(Failure::ManyArguments(program));
    }
    Ok(only)
}

// Prints the lines that answer the calls in the file that is the program's argument, or on standard input, by a new register at a stage; or prints the help that is asked for.
pub fn answer<S: Stage>(
    rt: &HostRuntime,
    program: &'static str,
    help: &str,
) -> Result<(), Failure> {
    let bytes = match argument(rt, program)? {
        None => input_bytes(rt)?,
        Some(word) if word.as_str() == "--help" => return print(rt, help),
        Some(word) if word.as_str().starts_with('-') => {
            return Err(Failure::UnknownOption(program, word));
        }
        Some(word) => file_bytes(rt, word)?,
    };
    let lines = report::answer_file::<S>(rt.alloc(), bytes.as_slice())?;
    print(rt, lines.as_str())
}

// The same as a whole program: what went wrong is printed on standard error, behind the program's name.
pub fn run<S: Stage>(rt: &HostRuntime, program: &'static str, help: &str) -> ExitCode {
    match answer::<S>(rt, program, help) {
        Ok(()) => ExitCode::SUCCESS,
        Err(failure) => {
            let _ = eprintln!(rt; "{program}: {failure}");
            ExitCode::FAILURE
        }
    }
}
