//! The program: a simulator of AFDX networks.
#![tactic(auto)]

mod bytes_left;
mod obeying;
mod perform;
mod run;
mod workers;

pub use command_line::order;
pub use commands::write_steps;
use commands::{Host, System, tell_memory, tell_no_text};
pub use journal_text::read_steps;
pub use perform::perform;
use std::io::ErrorKind;
use std::process::ExitCode;
use std::{env, io};

/// Returns the words after the program's name.
fn words_of(rt: HostRuntime) -> io::Result<Vec<String>> {
    let mut words = Vec::new(rt.alloc());
    for word in env::args(&rt)?.skip(1) {
        words.push(word)?;
    }
    Ok(words)
}

fn main(rt: HostRuntime) -> ExitCode {
    let mut system = System::new(rt);
    let status = match words_of(rt) {
        Ok(words) => perform(&rt, rt.alloc(), &words, &mut system),
        Err(error) if error.kind() == ErrorKind::OutOfMemory => tell_memory(system.errors()),
        Err(_) => tell_no_text(system.errors()),
    };
    ExitCode::from(status)
}
