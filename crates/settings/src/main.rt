// Reads a write list from standard input and prints what it sets on a new block of the bench unit.
#![tactic(auto)]

use anyhow::bail;
use base::profile::Profile;
use std::io;
use std::io::Read;
use verdict::settings_of_list;

// One byte more than the longest list, so that a longer input is seen and not cut.
const MOST_READ: u64 = 65_537;

fn read_list(rt: &HostRuntime) -> io::Result<Vec<u8>> {
    let mut bytes = Vec::new(rt.alloc());
    rt.stdin().take(MOST_READ).read_to_end(&mut bytes)?;
    Ok(bytes)
}

fn main(rt: HostRuntime) -> anyhow::Result<()> {
    let list = read_list(&rt)?;
    match settings_of_list(Profile::bench(), &list) {
        Ok(settings) => println!(rt; "{settings}")?,
        Err(error) => {
            println!(rt; "{error}")?;
            bail!("the list is refused");
        }
    }
    Ok(())
}
