// Plays a scenario from standard input, and prints what each call answers.
#![tactic(auto)]

mod answers;
mod cockpit;
mod errors;
mod history;
mod places;
mod playing;
mod seat_media;
mod session;

use std::io;

fn main(rt: HostRuntime) -> io::Result<()> {
    playing::play(&rt)
}
