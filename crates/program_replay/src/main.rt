// Reads an input, a table and the choices behind it, from standard input and writes its printed run to standard output.
#![tactic(auto)]

use std::io;

fn main(rt: HostRuntime) -> io::Result<()> {
    program_stdin::replay(&rt)
}
