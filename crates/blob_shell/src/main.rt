//! The program: its command line over standard input, standard output and the file that the words name.
#![tactic(auto)]

use blob_base::{Bytes64, OutOfMemory, Word};
use blob_script::{Form, Status};
use blob_steps::{layout_of, run_alone};
use disk_file::{FileDisk, OpenFailed};
use disk_model::{Disk, MemDisk};
use io_ends::{StdSink, StdSource};
use std::io::ErrorKind;
use std::process::ExitCode;
use std::rt::Env;
use std::{env, str};

// The exit status where the system refuses the file.
const CANNOT_OPEN: u8 = 11;

// The forms of a command line, those that aren't built yet included.
const FORMS: [&str; 7] = [
    "format FILE UNITS ROOM",
    "fresh FILE UNITS ROOM",
    "steps FILE",
    "drill FILE FROM COUNT",
    "check FILE",
    "show FILE",
    "many FILE",
];

// The words behind the program's name. There are none where one of them isn't UTF-8, and that is no form either.
fn words_of<R: Env + AllocGlobal>(rt: &R) -> Result<Vec<Word>, OutOfMemory> {
    let mut words = Vec::new(rt.alloc());
    match env::args(rt) {
        Ok(arguments) => {
            for argument in arguments.skip(1) {
                words.push(Word::from_vec(argument.into_bytes()))?;
            }
        }
        Err(error) => {
            if error.kind() == ErrorKind::OutOfMemory {
                return Err(OutOfMemory);
            }
        }
    }
    Ok(words)
}

// The path that the word behind the verb is.
fn path_of(words: &[Word]) -> Option<&str> {
    match words {
        [_, file, ..] => str::from_utf8(file.as_slice()).ok(),
        _ => None,
    }
}

// Runs the words over a disk, between standard input and standard output.
fn run_over<D: Disk + Drop>(rt: &HostRuntime, words: &[Word], disk: D) -> Status {
    let mut source = StdSource::new(rt.stdin());
    let mut sink = StdSink::new(rt.stdout());
    let (status, _) = run_alone(rt.alloc(), words, &mut source, &mut sink, disk);
    status
}

// Runs the words over the disk that the file of that path is, where the system opened it, and answers the exit status.
fn run_opened<D: Disk + Drop>(
    rt: &HostRuntime,
    words: &[Word],
    path: &str,
    opened: Result<D, OpenFailed>,
) -> u8 {
    match opened {
        Ok(disk) => run_over(rt, words, disk).code(),
        Err(OpenFailed::Refused) => {
            let _ = eprintln!(rt; "cannot open {path}");
            CANNOT_OPEN
        }
        Err(OpenFailed::OutOfMemory) => Status::OutOfMemory.code(),
    }
}

// Turns words away that are no form: on standard output as any run, and on standard error with the forms.
fn turn_away(rt: &HostRuntime, words: &[Word]) -> Result<u8, OutOfMemory> {
    let none = MemDisk::new(rt.alloc(), 0, Bytes64::new(rt.alloc()))?;
    let status = run_over(rt, words, none);
    for form in FORMS {
        let _ = eprintln!(rt; "{form}");
    }
    Ok(status.code())
}

// Runs the command line, and answers the exit status. A form that makes a store gets a new file, of the size that its layout
// takes, and any other the file that is there: that is all that is read of the words here. The run reads them too, since it
// is what answers for them, over any disk.
fn run(rt: &HostRuntime) -> Result<u8, OutOfMemory> {
    let words = words_of(rt)?;
    let words = words.as_slice();
    match (Form::read(words), path_of(words)) {
        (Some(form), Some(path)) => Ok(match layout_of(form) {
            Some(layout) => run_opened(rt, words, path, FileDisk::create(rt, path, layout.total())),
            None => run_opened(rt, words, path, FileDisk::open(rt, path)),
        }),
        _ => turn_away(rt, words),
    }
}

fn main(rt: HostRuntime) -> ExitCode {
    ExitCode::from(match run(&rt) {
        Ok(code) => code,
        Err(OutOfMemory) => Status::OutOfMemory.code(),
    })
}
