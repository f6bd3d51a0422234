// The program `replay`, on an input of one byte too many: its file `stdin` is that of `replay_most` and one byte more.
#![tactic(auto)]

use std::io;

fn main(rt: HostRuntime) -> io::Result<()> {
    program_stdin::replay(&rt)
}
