// Replays a script: one call, pooling or strike a line on standard input, and for each its answer, a line on standard output.
#![tactic(auto)]

ghost use Rattle.session.specs.Served.{Valid};

use reader::Reader;
use session::Session;
use std::io::Read;

mod answer;
mod beside;
mod command;
mod form;
mod hex;
mod line;
mod print;
mod reader;
mod sheet;
mod token;

// Plays a piece of the script: each line that ends in it is answered.
fn play(rt: &impl Print, session: &mut Session, reader: &mut Reader, piece: &[u8])
    requires { Valid session.old }
    ensures { Valid session.new }
{
    for &byte in piece {
        if byte == b'\n' {
            answer::answer(rt, session, reader);
        } else {
            reader.take(byte);
        }
    }
}

// Plays the whole script, a piece at a time; a read that fails ends it. A proved loop has to end, and nothing says that a script
// does: so it has a number of turns that no run uses up.
fn play_all(rt: &(impl Input + Print), session: &mut Session, reader: &mut Reader)
    requires { Valid session.old }
    ensures { Valid session.new }
{
    let mut input = rt.reader();
    let mut room = [0u8; 65536];
    for _ in 0..u64::MAX {
        let n = input.read(&mut room).unwrap_or(0);
        if n == 0 {
            break;
        }
        play(rt, session, reader, &room[..n]);
    }
}

fn main(rt: HostRuntime) {
    let mut session = Session::fresh();
    let mut reader = Reader::new();
    play_all(&rt, &mut session, &mut reader);
    // the last line may lack its line feed
    answer::answer(&rt, &mut session, &mut reader);
}
