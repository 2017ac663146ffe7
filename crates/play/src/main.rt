// Plays a bench recording from standard input on the blank module, and prints a line for each record.
#![tactic(auto)]

ghost use Rattle.std.specs.Prelude.{◌≡◌, ◌≤◌, length, take};
ghost use Rattle.play.specs.Turn.{Played, Turned, progress_of};

use player::{Player, keep};
use printout::LONGEST;
use std::io::{Read, Stderr, Stdin};

// How many bytes of a recording are played at a time, and room for as many of the longest lines.
const BLOCK: usize = 8192;

const ROOM: usize = BLOCK * LONGEST;

// After a turn: how many characters of lines are at the front of the output, how many bytes of a record that is not whole yet
// at the front of the input, and whether more can follow.
#[derive(Clone, Copy)]
struct Progress {
    player: Player,
    written: usize,
    held: usize,
    more: bool,
}

// Plays the bytes of the input before `end`.
fn played(
    player: Player,
    input: &mut [u8; BLOCK],
    end: usize,
    last: bool,
    output: &mut [u8; ROOM],
) -> Progress
    requires { end ≤ length input.old }
    ensures { Played last player (take end input.old) input.old output.old input.new output.new result }
{
    let block = player.play(&input[..end], last, output);
    let held = keep(input, block.used, end);
    Progress {
        player: block.player,
        written: block.written,
        held,
        more: !last & !block.player.over,
    }
}

// By the answer of a read behind what is held, plays that and what came; where the read failed nothing is played, and it is an
// error, after which nothing follows. No bytes came: none follow.
fn turn(
    player: Player,
    held: usize,
    got: Option<usize>,
    input: &mut [u8; BLOCK],
    output: &mut [u8; ROOM],
) -> Result<Progress, Progress>
    requires { held ≤ length input.old }
    ensures { Turned player held input.old output.old input.new output.new got result }
{
    let Some(came) = got else {
        return Err(Progress {
            player,
            written: 0,
            held,
            more: false,
        });
    };
    let count = came.min(BLOCK - held);
    Ok(played(player, input, held + count, count == 0, output))
}

// The progress of a turn, whether its read failed or not.
fn progress_of(turned: Result<Progress, Progress>) -> Progress
    ensures { result ≡ progress_of turned }
{
    match turned {
        Ok(progress) | Err(progress) => progress,
    }
}

// A read behind what is held, which stays: how many bytes came, if it did not fail.
fn read_behind(mut from: Stdin, held: usize, input: &mut [u8; BLOCK]) -> Option<usize>
    requires { held ≤ length input.old }
    ensures { take held input.new ≡ take held input.old }
{
    from.read(&mut input[held..]).ok()
}

// Where standard error fails too, nobody is told.
fn tell(to: Stderr, text: &[u8]) {
    let _ = to.write_all(text);
}

// No run uses up the turns: they are there since a proved loop has to end.
fn main(rt: HostRuntime) {
    let mut input = [0; BLOCK];
    let mut output = [0; ROOM];
    let mut player = Player::blank();
    let mut held = 0;
    for _ in 0..u64::MAX {
        let got = read_behind(rt.stdin(), held, &mut input);
        let turned = turn(player, held, got, &mut input, &mut output);
        if turned.is_err() {
            tell(rt.stderr(), b"play: standard input cannot be read\n");
        }
        let after = progress_of(turned);
        let printed = rt.write_all(&output[..after.written]).is_ok();
        if !printed {
            tell(rt.stderr(), b"play: standard output cannot be written\n");
        }
        if !(printed & after.more) {
            return;
        }
        player = after.player;
        held = after.held;
    }
}
