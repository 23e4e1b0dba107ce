// Plays a script from standard input to one station, or to the plain engine; docs/SCRIPT.md has its form.
#![tactic(auto)]

use engine::Engine;
use said::show;
use std::env::Env;
use std::io;
use std::io::Read;

mod doing;
mod engine;
mod relay;

// The most bytes of a line, without its end.
const LONGEST: usize = 4096;

// How far the script is read: the first bytes of the line so far, and whether they are too many; lines that ended, and the bad ones of them.
#[derive(Drop)]
struct Script {
    engine: Engine,
    line: [u8; LONGEST],
    used: usize,
    is_long: bool,
    lines: u64,
    bad: u64,
}

// One more, up to the largest number.
fn next(count: u64) -> u64 {
    count.saturating_add(1)
}

impl Script {
    // None of it is read.
    fn new(is_plain: bool) -> Script {
        Script {
            engine: Engine::new(is_plain),
            line: [0; LONGEST],
            used: 0,
            is_long: false,
            lines: 0,
            bad: 0,
        }
    }

    // Plays the line, and says whether it was one.
    fn play(&mut self, rt: &impl Print) -> bool {
        // A line is never longer than its room; the second test shows it where the slice is taken.
        if self.is_long || LONGEST < self.used {
            show::long(rt, self.lines);
            return false;
        }
        doing::line(rt, &mut self.engine, &self.line[..self.used], self.lines)
    }

    // The line ends.
    fn end(&mut self, rt: &impl Print) {
        self.lines = next(self.lines);
        if !self.play(rt) {
            self.bad = next(self.bad);
        }
        self.used = 0;
        self.is_long = false;
    }

    // A piece of the script: lines, and parts of lines. A byte of a line is kept, if there is room. How much of the line is used is
    // counted beside the script, where each byte takes fewer instructions.
    fn read_on(&mut self, rt: &impl Print, piece: &[u8]) {
        let mut used = self.used;
        for &byte in piece {
            if byte == b'\n' {
                self.used = used;
                self.end(rt);
                used = 0;
            } else if used < LONGEST {
                self.line[used] = byte;
                used += 1;
            } else {
                self.is_long = true;
            }
        }
        self.used = used;
    }
}

// The whole script, played to the working station or to the plain engine, a piece at a time, in more turns than any input uses up.
fn run(rt: &(impl Input + Print), is_plain: bool) -> io::Result<()> {
    let mut input = rt.reader();
    let mut script = Script::new(is_plain);
    for _ in 0..u64::MAX {
        let mut piece = [0u8; 65536];
        let n = input.read(&mut piece)?;
        if n == 0 {
            break;
        }
        script.read_on(rt, &piece[..n]);
    }
    if script.used != 0 {
        script.end(rt);
    }
    show::end_of_script(rt, script.lines, script.bad);
    Ok(())
}

// Whether the first argument asks for the plain engine.
fn is_plain(rt: &impl Env) -> bool {
    let mut word = [0u8; 4096];
    match rt.arg(1, &mut word) {
        Ok(len) => &word[..len] == b"--plain".as_slice(),
        Err(_) => false,
    }
}

// What is printed is the same for both; that the plain engine answers is said beside it.
fn main(rt: HostRuntime) -> io::Result<()> {
    let plain = is_plain(&rt);
    if plain {
        rt.eprintln("the plain engine answers")?;
    }
    run(&rt, plain)
}
