// Reads vectors from standard input, the Rust crate's own answers, and holds the port to each.
#![tactic(auto)]

mod access_log;
mod answer;
mod bench;
mod call;
mod fields;
mod logged_block;
mod register;
mod replay;
mod step;
mod tally;

use anyhow::bail;
use replay::replay_lines;
use std::io;

fn main(rt: HostRuntime) -> anyhow::Result<()> {
    let text = io::read_to_string(rt.alloc(), rt.stdin())?;
    match replay_lines(rt.alloc(), text.as_str()) {
        Ok(tally) => println!(rt; "{tally}")?,
        Err(failure) => {
            println!(rt; "{failure}")?;
            bail!("the port differs");
        }
    }
    Ok(())
}
