// The program `replay`, on the longest input that is run: the 16,384 bytes of its file `stdin` are a table and 8,175
// choices, and all of them are done. What `stdout` has was printed by the second implementation.
#![tactic(auto)]

use std::io;

fn main(rt: HostRuntime) -> io::Result<()> {
    program_stdin::replay(&rt)
}
