//! The program: its words, standard input and output, and the status.
#![tactic(auto)]

mod help;

use flash_run::{RunEnd, Word, run};
use help::{tell, text_for};
use io_edge::{StdSink, StdSource};
use std::alloc::AllocError;
use std::env::FillError;
use std::process::ExitCode;
use std::rt::Env;

/// The words after the program's name, as their bytes.
fn words_of(rt: &(impl Env + AllocGlobal)) -> Result<Vec<Word>, AllocError> {
    let mut words = Vec::new(rt.alloc());
    for at in 1..usize::MAX {
        let Some(bytes) = word_at(rt, at)? else {
            break;
        };
        words.push(Word::new(bytes))?;
    }
    Ok(words)
}

/// The bytes of the word at a place, or none past the last.
fn word_at(rt: &(impl Env + AllocGlobal), at: usize) -> Result<Option<Vec<u8>>, AllocError> {
    // A buffer twice as large, until the word has room.
    for power in 8..40u32 {
        let mut buffer = vec![in rt.alloc(); 0u8; 1 << power]?;
        match rt.arg(at, &mut buffer) {
            Ok(count) => {
                buffer.truncate(count);
                return Ok(Some(buffer));
            }
            Err(FillError::NotPresent) => return Ok(None),
            Err(FillError::TooLong) => {}
        }
    }
    Err(AllocError)
}

fn main(rt: HostRuntime) -> ExitCode {
    let Ok(words) = words_of(&rt) else {
        return ExitCode::from(8);
    };
    let mut sink = StdSink::new(rt.stdout());
    if let Some(text) = text_for(&words) {
        return ExitCode::from(tell(&mut sink, text));
    }
    let mut source = StdSource::new(rt.stdin());
    let RunEnd { status, end: _ } = run(rt.alloc(), &words, &mut source, &mut sink);
    ExitCode::from(status)
}
