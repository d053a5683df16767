// A day file's output written to a file descriptor, part by part: the loop of our programs, which leaves every choice to the library. No
// promise can tell what a write does with its bytes; which bytes they are is what `runner::output::lines` promises.
#![tactic(auto)]

ghost use Rattle.writer.specs.Notes.{ANote};

use runner::output::{BUFFER, goes_on, lines, note_of};

// What is to be said of the last write, made or failed: the rules leave open which.
pub fn print_file(fd: i32, file: &[u8]) -> &'static str
    ensures { ANote result.now }
{
    let day = dayfile::open::open_day(file);
    let mut buys = [0u32; rules::QUEUES_WORDS];
    let mut sells = [0u32; rules::QUEUES_WORDS];
    let mut trades = [0u32; rules::TRADES_WORDS];
    let mut out = [0u8; BUFFER];
    let mut state = day.state;
    let mut next: usize = 0;
    // no range: the day says part by part whether there is more
    loop {
        let part = lines(
            file,
            state,
            next,
            &mut buys,
            &mut sells,
            &mut trades,
            &mut out,
        );
        let length = part.length;
        let written = io::write_all(fd, &out[..length]);
        if !goes_on(part.more, written) {
            return note_of(written);
        }
        state = part.state;
        next = part.next;
    }
}
