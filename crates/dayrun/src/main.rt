// The day runner: a day file on standard input, its lines on standard output; what is to be said of a write that failed, on standard
// error. It chooses nothing by itself.
#![tactic(auto)]

const STDIN_FILENO: i32 = 0;

const STDOUT_FILENO: i32 = 1;

const STDERR_FILENO: i32 = 2;

fn main() {
    let mut file = runner::reading::room();
    let read = io::read_full(STDIN_FILENO, &mut file);
    let note = writer::print_file(STDOUT_FILENO, &file[..read]);
    io::write_all(STDERR_FILENO, note.as_bytes());
}
