// Vectors, made by the model (`tools/make_vectors.py`), run on the proved public calls: for each file that `list` names in the data
// folder, how many vectors it has and how many of them differ in the answer, in the state, or in a word or byte of an area.
#![tactic(auto)]

mod calls;

use calls::Call;
use std::str;
use test_files::read_named;
use test_given::building::{Given, put_edits};
use test_given::reading::Reader;

const STDOUT_FILENO: i32 = 1;

// "call, before, arguments, answer, after". Whether the call answered and left what is told. The filling is made once for a file.
fn run_vector(vector: &mut Reader, filled: &Given) -> bool {
    let call = Call::from_number(vector.number());
    let mut given = *filled;
    put_edits(vector, &mut given);
    let mut left = given;
    let same = match call {
        Some(call) => calls::run(vector, call, &mut left),
        None => false,
    };
    put_edits(vector, &mut given);
    same && left.state == given.state && left.areas == given.areas
}

fn say(text: &[u8]) {
    io::write_all(STDOUT_FILENO, text);
}

fn say_vector(name: &[u8], number: u64) {
    say(name);
    say(b": vector ");
    io::print_decimal(STDOUT_FILENO, number);
    say(b" differs\n");
}

fn say_counts(name: &[u8], vectors: u64, different: u64) {
    say(name);
    say(b": ");
    io::print_decimal(STDOUT_FILENO, vectors);
    say(b" vectors, ");
    io::print_decimal(STDOUT_FILENO, different);
    say(b" differ\n");
}

// "The file begins with the count of its vectors." What is left behind the last one differs too.
fn run_vectors(name: &[u8], file: &[u8]) {
    let mut vector = Reader::new(file);
    let vectors = vector.number();
    let filled = Given::filled();
    let mut different: u64 = 0;
    for k in 0..vectors {
        if !run_vector(&mut vector, &filled) {
            say_vector(name, k + 1);
            different += 1;
        }
    }
    say_counts(name, vectors, different);
    if !vector.at_end() {
        say(b"the file does not end with its last vector\n");
    }
}

// A name that is no text is no file's.
fn run_file(rt: &HostRuntime, name: &[u8]) {
    let text = str::from_utf8(name).unwrap_or("");
    let mut area = [0u8; 400000];
    run_vectors(name, read_named(rt, text, &mut area));
}

fn main(rt: HostRuntime) {
    let mut area = [0u8; 4096];
    let list = read_named(&rt, "list", &mut area);
    for line in list.split_inclusive(|byte| *byte == b'\n') {
        run_file(&rt, line.strip_suffix(b"\n").unwrap_or(line));
    }
}
