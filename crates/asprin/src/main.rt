//! The program `asprin`: the words, real files and standard output, around the run.
#![tactic(auto)]

use ap_base::{FileSink, FileSource, OutSink};
use asprin_cli::{Ended, run};
use std::{env, io};

fn main(rt: HostRuntime) -> Ended {
    run(
        rt.alloc(),
        env::args(&rt),
        &mut FileSource::new(&rt),
        &mut OutSink::new(io::writer(&rt)),
        &mut FileSink::new(&rt),
    )
}
