// The arguments of the program: options, each at most once, then at most one file.
use log_session::{MOST_NAME, argument, argument_count};
use log_text::Text;
use std::env::Env;
use std::fmt;

// What is asked: the options, and the number of the argument that names the file; without one the log is read from standard input.
#[derive(Clone, Copy, Debug, PartialEq, Eq)]
pub struct Arguments {
    pub explain: bool,
    pub chart: bool,
    pub file: Option<usize>,
}

#[derive(Clone, Copy, Debug, PartialEq, Eq)]
pub enum Fault {
    Unknown,
    Twice,
    BehindFile,
}

impl fmt::Display for Fault {
    fn fmt<W: fmt::Write>(&self, f: &mut fmt::Formatter<W>) -> fmt::Result {
        f.write_str(match self {
            Fault::Unknown => "there is no such option",
            Fault::Twice => "an option is given twice",
            Fault::BehindFile => "an argument follows the file",
        })
    }
}

// Reads the arguments, up to the first that is wrong.
pub fn read_arguments<R: Env>(rt: &R) -> Result<Arguments, Fault> {
    let mut asked = Arguments {
        explain: false,
        chart: false,
        file: None,
    };
    for k in 1..argument_count(rt) {
        let text: Text<MOST_NAME> = argument(rt, k);
        if asked.file.is_some() {
            return Err(Fault::BehindFile);
        }
        match text.as_bytes() {
            b"--explain" => asked.explain = once(asked.explain)?,
            b"--chart" => asked.chart = once(asked.chart)?,
            // An option begins with two hyphens, and every other argument is the name of a file.
            word if word.starts_with(b"--") => return Err(Fault::Unknown),
            _ => asked.file = Some(k),
        }
    }
    Ok(asked)
}

// The option is given, if it was not before.
fn once(given: bool) -> Result<bool, Fault> {
    if given { Err(Fault::Twice) } else { Ok(true) }
}
