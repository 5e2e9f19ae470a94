// The trace program: plays the trace of the file that its argument names, or of standard input, and writes document 01's lines.
#![tactic(auto)]

use feed::Play;
use std::io;

fn main(rt: HostRuntime) -> io::Result<()> {
    let mut source = feed::open(&rt)?;
    let mut used = feed::map_words();
    let mut stop = feed::map_words();
    let mut buffer = [0u8; 4096];
    let mut out = [0u8; 65536];
    let mut play = Play::new(&mut used, &mut stop, &mut buffer, &mut out);
    play.play_all(&mut source, |play| rt.write_all(play.lines()))
}
