// A test of the day runner: for each file that `list` names in the data folder, the name and then all that the runner prints; then
// what is said of writes that fail. What must come out was made by the model (`tools/make_test_days.py`).
#![tactic(auto)]

use std::fs::File;
use std::os::fd::AsRawFd;
use std::str;
use test_files::read_named;

const STDOUT_FILENO: i32 = 1;

// What the runner prints of a file, to the descriptor `out`; what is to be said of the last write, to standard output. A name that is no
// text is no file's.
fn print_named(rt: &HostRuntime, name: &[u8], out: i32) {
    let text = str::from_utf8(name).unwrap_or("");
    let mut area = runner::reading::room();
    let note = writer::print_file(out, read_named(rt, text, &mut area));
    io::write_all(STDOUT_FILENO, note.as_bytes());
}

fn run_case(rt: &HostRuntime, name: &[u8]) {
    io::write_all(STDOUT_FILENO, name);
    io::write_all(STDOUT_FILENO, b"\n");
    print_named(rt, name, STDOUT_FILENO);
}

// A file printed to a descriptor that is open for reading only: no write to it can succeed.
fn run_unwritable(rt: &HostRuntime, name: &[u8]) {
    let Ok(out) = File::open(rt, "list") else {
        return;
    };
    io::write_all(STDOUT_FILENO, name);
    io::write_all(STDOUT_FILENO, b": ");
    print_named(rt, name, out.as_raw_fd());
}

fn main(rt: HostRuntime) {
    let mut area = [0u8; 4096];
    let list = read_named(&rt, "list", &mut area);
    for line in list.split_inclusive(|byte| *byte == b'\n') {
        run_case(&rt, line.strip_suffix(b"\n").unwrap_or(line));
    }
    run_unwritable(&rt, b"paper-example.day");
    run_unwritable(&rt, b"broken-empty.day");
}
