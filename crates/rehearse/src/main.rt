// Rehearses what a receiver would do: reads a script of calls, and prints what comes of each.
#![tactic(auto)]

mod documents;
mod exchange;
mod input;
mod output;
mod play;
mod printed;
mod printer;
mod setup;
mod shown;

use exchange::Exchange;
use play::{ignore, play};
use script::{SetKind, begin_with};
use sets::{ChannelMap, StudioBus};
use setup::Setup;
use std::io;

fn run(rt: &HostRuntime) -> io::Result<()> {
    let mut exchange = Exchange::new(rt)?;
    let mut setup = Setup::new(rt.alloc());
    let Some(first) = setup.take_lines(&mut exchange)? else {
        return exchange.output.flush();
    };
    match begin_with(setup.settings(), setup.table()) {
        Ok(beginning) => match beginning.kind {
            SetKind::Bus => {
                let bus = StudioBus::new();
                play(&mut exchange, bus, beginning.outset, first)?;
            }
            SetKind::Map => {
                let map = ChannelMap::new(setup.table(), beginning.start);
                play(&mut exchange, map, beginning.outset, first)?;
            }
        },
        Err(refusal) => ignore(&mut exchange, refusal, first)?,
    }
    exchange.output.flush()
}

fn main(rt: HostRuntime) -> io::Result<()> {
    run(&rt)
}
