// Plays a bench sheet from standard input on the core, and writes it again with what each step gave.
#![tactic(auto)]

mod bench;
mod play;
mod print;
mod readout;
mod sheet;

use reading::read_full;

// The sheet of this folder, stdin, has cases of the papers beside document 01's table; the file stdout has what must come
// out. A sheet has at most 65,536 bytes, and what is past them is not played; its last line ends as every other does.
fn main(rt: HostRuntime) {
    let mut sheet = [0; 65_536];
    let n = read_full(&mut rt.stdin(), &mut sheet);
    play::play(&rt, &sheet[..n]);
}
