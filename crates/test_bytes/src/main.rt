// A test of the file's reading and the lines' writing. For each file of the data folder it writes whether the file is sound,
// and of a sound one the number of its commands and the kind of each, 0 for a malformed one. Then it writes some lines of the
// longest numbers. The files:
//   01  the paper's day
//   02  no bytes
//   03  three bytes
//   04  a contract count of 0
//   05  five contracts
//   06  2^32 - 1 contracts
//   07  no account
//   08  33 accounts
//   09  2^32 - 1 accounts
//   10  2,001 commands
//   11  2^32 - 1 commands
//   12  cut by a byte
//   13  a byte after the last command
//   14  a command after the last command
//   15  tick 0
//   16  a pairing method of 256
//   17  reference off its tick
//   18  band below one tick
//   19  multiplier 1,001
//   20  limit 100,001
//   21  rate 10,001 in the second contract
//   22  a balance of 10^18 + 1
//   23  a balance with bit 62 set
//   24  a balance of 10^18, no commands
//   25  every term at its largest, band above reference
//   26  every term at its smallest
//   27  each kind, well formed and malformed
//   28  a maker with a balance of 10^18
//   29  a maker with a balance of 10^18 + 1
#![tactic(auto)]

ghost use Rattle.std.specs.Prelude.{◌<◌};

use dayfile::file::{SoundFile, commands_in, first_command, record_of};
use lines::line::{put_account, put_answer, put_broken, put_price, put_trade};
use rules::{Answer, Command, Trade};
use std::str;
use test_files::read_named;

const STDOUT_FILENO: i32 = 1;

fn say(byte: u8) {
    io::write_all(STDOUT_FILENO, &[byte]);
}

fn say_kind(command: Command) {
    say(b' ');
    io::print_decimal(STDOUT_FILENO, u64::from(commands::kind_of(command)));
}

fn say_commands(file: &SoundFile<'_>) {
    let n = commands_in(file);
    let first = first_command(file);
    io::write_all(STDOUT_FILENO, b"sound ");
    io::print_decimal(STDOUT_FILENO, n as u64);
    say(b':');
    for k in 0..n {
        let r = record_of(file, first, k);
        say_kind(commands::command_of(r));
    }
}

fn say_verdict(file: &[u8]) {
    if let Some(sound) = SoundFile::of(file) {
        say_commands(&sound);
    } else {
        io::write_all(STDOUT_FILENO, b"broken");
    }
    say(b'\n');
}

fn run_case(rt: &HostRuntime, i: u8)
    requires { i < 100 }
{
    let digits = [b'0' + i / 10, b'0' + i % 10];
    io::write_all(STDOUT_FILENO, &digits);
    say(b' ');
    let name = str::from_utf8(&digits).unwrap_or("");
    let mut area = [0u8; 4096];
    say_verdict(read_named(rt, name, &mut area));
}

// A line of each kind; code 21 is a number here, as a line has it.
fn say_lines() {
    let mut out = [0u8; 512];
    let answer = Answer {
        code: 21,
        number: 4294967295,
        traded: 10,
        lots: 9,
    };
    let trade = Trade {
        contract: 4294967295,
        price: 1000000,
        lots: 1000,
        buyorder: 999999,
        sellorder: 100,
        buyer: 7,
        seller: 8,
        buyclose: 1,
        sellclose: 0,
    };
    let a = put_answer(&mut out, 0, 18446744073709551615, answer);
    let t = put_trade(&mut out, a, 1024, trade);
    let p = put_price(&mut out, t, 3, 0);
    let b = put_account(
        &mut out,
        p,
        31,
        -9223372036854775808,
        -1,
        9223372036854775807,
        10000000000000000000,
    );
    let x = put_broken(&mut out, b);
    if let Some(written) = out.get(..x) {
        io::write_all(STDOUT_FILENO, written);
    }
}

fn main(rt: HostRuntime) {
    for i in 1..30 {
        run_case(&rt, i);
    }
    say_lines();
}
