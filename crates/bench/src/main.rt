// Runs a bench script from standard input (document 01, "The bench program").
#![tactic(auto)]

use std::io;

fn main(rt: HostRuntime) -> io::Result<()> {
    bench_stream::play(&mut rt.stdin(), &mut rt.stdout(), u64::MAX)?;
    Ok(())
}
