//! The members of a cluster and the owners of its keys, from a command line.
#![tactic(auto)]

use clap::error::ErrorKind as Refused;
use cli_core::ClusterCommand;
use cli_run::{Fault, explain, words_run};
use cli_words::{ClusterWords, Words, WordsError, bad_argument, read_words, words_not_text};
use std::alloc::{Alloc, Global};
use std::env::Env;
use std::fs::Files;
use std::io::{BufReader, BufWriter, ErrorKind};
use std::net::{Net, TcpListener, TcpStream};
use std::process::ExitCode;
use std::random::RandomSource;
use std::sync::Wait;
use std::thread::Threads;
use std::time::Clock;
use std::{env, fs, io};

/// Returns the arguments of the program, its name first.
fn given_words(rt: &(impl Env + Alloc<A = Global>)) -> Result<Vec<String>, WordsError> {
    let given = match env::args(rt) {
        Ok(given) => given,
        Err(error) if error.kind() == ErrorKind::OutOfMemory => return Err(WordsError::OutOfMemory),
        Err(_) => return Err(words_not_text(rt.alloc())),
    };
    let mut words = Vec::with_capacity(rt.alloc(), given.len())?;
    for word in given {
        words.push(word)?;
    }
    Ok(words)
}

/// Refuses a server's own address 0.0.0.0, by which no other node can call it, with the exit status.
fn refuse_nowhere<R: Eprint>(rt: &R, words: &Words<'_>) -> Option<ExitCode> {
    match words {
        Words::Cluster(
            ClusterWords {
                command: ClusterCommand::Serve(server),
                ..
            },
        ) if server.address.ip() == 0 => {
            let address = server.address;
            let error = WordsError::BadAddress;
            let _ = eprintln!(rt;
                "{error}ringpop: '{address}' for ADDRESS: give the address by which other nodes call this one"
            );
            Some(ExitCode::from(error.status()))
        }
        _ => None,
    }
}

/// Prints help or the version on standard output, if the arguments ask for it, and else the error on standard error; and
/// returns the exit status.
fn tell<R: Print + Eprint>(rt: &R, fault: &Fault) -> ExitCode {
    match fault {
        Fault::Words(WordsError::Usage(text)) if !text.use_stderr() => match text.print(rt) {
            Ok(()) => ExitCode::SUCCESS,
            Err(_) => {
                let _ = eprintln!(rt; "ringpop: cannot write");
                ExitCode::FAILURE
            }
        },
        _ => {
            let _ = eprint!(rt; "{fault}");
            ExitCode::from(fault.status())
        }
    }
}

/// Returns the first argument that is the path of a file.
fn file_among<'a>(rt: &impl Files, given: &'a [String]) -> Option<&'a String> {
    for word in given.iter().skip(1) {
        if let Ok(found) = fs::metadata(rt, word.as_str()) {
            if found.is_file() {
                return Some(word);
            }
        }
    }
    None
}

/// Prints behind the refusal of arguments what to give.
fn advise(rt: &(impl Eprint + Files + Alloc<A = Global>), given: &[String], fault: &Fault) {
    let _ = match fault {
        Fault::Words(WordsError::BadAddress | WordsError::BadAddressAt(_)) => {
            match bad_argument(rt.alloc(), given) {
                Ok(Some(bad)) => eprintln!(rt; "ringpop: {bad}"),
                Ok(None) | Err(_) => Ok(()),
            }
        }
        Fault::Words(WordsError::Usage(text))
            if matches!(
                text.kind(),
                Refused::InvalidSubcommand | Refused::UnknownArgument
            ) => {
            match file_among(rt, given) {
                Some(file) => eprintln!(rt;
                    "ringpop: '{file}' is a file, and lines are read from standard input: write < {file}"
                ),
                None => Ok(()),
            }
        }
        _ => Ok(()),
    };
}

/// Runs the command over standard input, standard output and sockets.
fn run<
    R: Input
        + Print
        + Net<Listener = TcpListener, Stream = TcpStream>
        + Threads
        + Wait
        + Clock
        + RandomSource
        + Files
        + Eprint
        + Copy
        + Send
        + Sync
        + 'static
        + Alloc<A = Global>,
>(rt: &R, words: &Words<'_>) -> Result<(), Fault> {
    let alloc = rt.alloc();
    let mut reader = BufReader::new(alloc, rt.reader()).map_err(|_| WordsError::OutOfMemory)?;
    let mut writer = BufWriter::new(alloc, io::writer(rt)).map_err(|_| WordsError::OutOfMemory)?;
    words_run(rt, rt, alloc, words, &mut reader, &mut writer)
}

fn main(rt: HostRuntime) -> ExitCode {
    let given = match given_words(&rt) {
        Ok(given) => given,
        Err(error) => return tell(&rt, &Fault::Words(error)),
    };
    let words = match read_words(rt.alloc(), given.as_slice()) {
        Ok(words) => words,
        Err(error) => {
            let fault = Fault::Words(error);
            let status = tell(&rt, &fault);
            advise(&rt, given.as_slice(), &fault);
            return status;
        }
    };
    if let Some(status) = refuse_nowhere(&rt, &words) {
        return status;
    }
    match run(&rt, &words) {
        Ok(()) => ExitCode::SUCCESS,
        Err(fault) => {
            let status = tell(&rt, &fault);
            explain(&rt, rt.alloc(), &words, &fault);
            status
        }
    }
}
