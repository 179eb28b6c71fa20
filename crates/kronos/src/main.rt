//! The program: it reads a script, runs it, and prints its transcript; it reads the calls of many clients, makes those of
//! each on a thread of its own, and prints what they were told and the history; it runs a chain of three nodes on threads, and
//! prints what their readers told and the history; it reads a log of processes, and prints its events, clocks and pairs; or
//! it runs a made load, and prints its summary.
//!
//! All that the program does is `kronos_live` where its first word is `live` or `chain`, and `kronos_script` where it is not:
//! their contracts say for each of their ends what was read, what was written, and why it came.
#![tactic(auto)]

ghost use Rattle.std.specs.Prelude.{◌≡◌, map, drop, option_map, string_bytes, IfOk};
ghost use Rattle.std.specs.Rc.{rc_str_bytes};
ghost use Rattle.kronos.specs.Complaints.{complaint_of};

use kr_text::{OpenGate, StdSink, StdSource};
use kronos_driver::{Exit, kronos_script};
use live_driver::kronos_live;
use std::alloc::{AllocError, Global};
use std::env::Env;
use std::process::ExitCode;
use std::rc::RcStr;
use std::{env, io};

// The words after the program's name. Arguments that are not UTF-8 are words that are no form: none is taken then.
fn words(rt: &(impl Env + AllocGlobal)) -> Result<Vec<RcStr>, Exit> {
    let alloc = rt.alloc();
    let mut arguments = Vec::new(alloc);
    match env::args(rt) {
        Ok(args) => {
            for arg in args {
                arguments.push(arg)?;
            }
        }
        Err(error) if error.kind() == io::ErrorKind::OutOfMemory => return Err(Exit::NoMemory),
        Err(_) => {}
    }
    Ok(words_of(alloc, arguments.as_slice())?)
}

// The words of the arguments, of which the first is the program's name.
fn words_of(alloc: Global, arguments: &[String]) -> Result<Vec<RcStr>, AllocError>
    ensures { IfOk result (λ words. map rc_str_bytes words.items ≡ map string_bytes (drop 1 arguments.now)) }
{
    let mut words = Vec::new(alloc);
    let rest = arguments.split_at(arguments.len().min(1)).1;
    for argument in rest {
        words.push(RcStr::from_str(alloc, argument.as_str())?)?;
    }
    Ok(words)
}

// What is said on the error stream of an end that the output does not tell.
fn complaint(exit: Exit) -> Option<&'static str>
    ensures { option_map (λ text. text.now) result ≡ complaint_of exit }
{
    match exit {
        Exit::TooLong => Some("the input has more than 1,048,576 bytes"),
        Exit::ReadFault => Some("the input could not be read"),
        Exit::WriteFault => Some("the output could not be written"),
        Exit::NoMemory => Some("out of memory"),
        Exit::Done | Exit::Usage | Exit::BadLine(_) | Exit::Cyclic { .. } => None,
    }
}

fn main(rt: HostRuntime) -> ExitCode {
    let mut source = StdSource::new(rt.reader());
    let mut sink = StdSink::new(io::writer(&rt));
    let exit = match words(&rt) {
        Ok(words) => match words.first() {
            Some(word) if word.as_str() == "live" || word.as_str() == "chain" => {
                kronos_live(&rt, rt.alloc(), &words, &mut source, &mut sink, &OpenGate)
            }
            _ => kronos_script(&rt, rt.alloc(), &words, &mut source, &mut sink),
        },
        Err(exit) => exit,
    };
    if let Some(text) = complaint(exit) {
        let _ = eprintln!(rt; "kronos: {text}");
    }
    ExitCode::from(exit.status())
}
