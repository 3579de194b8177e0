// The program: the real files and streams, handed to the top call.
#![tactic(auto)]

use mm_base::os::{OsFiles, OsSink, OsSource};
use mm_top::mm_main;
use std::process::ExitCode;
use std::{env, io};

fn words(rt: &HostRuntime) -> io::Result<Vec<String>> {
    let mut words = Vec::new(rt.alloc());
    for word in env::args(rt)?.skip(1) {
        words.push(word)?;
    }
    Ok(words)
}

fn main(rt: HostRuntime) -> ExitCode {
    let mut files = OsFiles::new(&rt);
    let mut input = OsSource::new(rt.stdin());
    let mut out = OsSink::new(rt.stdout());
    let mut err = OsSink::new(rt.stderr());
    // Words that can't be read are no command.
    let words = match words(&rt) {
        Ok(words) => words,
        Err(_) => Vec::new(rt.alloc()),
    };
    let status = mm_main(
        rt.alloc(),
        words.as_slice(),
        &mut files,
        &mut input,
        &mut out,
        &mut err,
    );
    ExitCode::from(status)
}
