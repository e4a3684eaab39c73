// Plays the lines of a scenario, and prints what each comes to.
ghost use Rattle.std.specs.Prelude.{OnOk};
ghost use Rattle.scenario.specs.Parsing.{line_call};
ghost use Rattle.replay.specs.Sessions.{PlaysLine};

use crate::errors::NotMade;
use crate::session::Session;
use scenario::parse;
use std::io;
use std::io::{BufRead, BufReader};

fn play_line(rt: &impl Print, session: &mut Session, number: u64, line: &str) -> io::Result<()>
    ensures { OnOk result (PlaysLine (line_call line.now) session.old session.new) }
{
    if line.starts_with('#') {
        return println!(rt; "{line}");
    }
    let call = match parse(line) {
        Ok(None) => return Ok(()),
        Ok(Some(call)) => call,
        Err(bad) => return println!(rt; "line {number}: {bad}"),
    };
    match session.make(&call) {
        Ok(made) => println!(rt; "{} {call}: {made}", made.number),
        Err(NotMade::OutOfMemory(error)) => Err(error.into()),
        Err(why) => println!(rt; "line {number}: {why}"),
    }
}

// All lines of standard input, in their order. No clause says so, nor what is printed: both are compared with the reference.
pub fn play(rt: &HostRuntime) -> io::Result<()> {
    let mut session = Session::new(rt.alloc())?;
    // counted beside the lines, and no `enumerate`: the last number may not pass the type's end
    let mut number: u64 = 0;
    for line in BufReader::new(rt.alloc(), rt.stdin())?.lines(rt.alloc()) {
        number = number.saturating_add(1);
        let line = line?;
        play_line(rt, &mut session, number, line.as_str())?;
    }
    Ok(())
}
