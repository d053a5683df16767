// The records behind a file's head: which are kept, and why the others are dropped. The first begins at `first`. For this
// crate: each requires its records within the file, and room for what it writes.
ghost use Rattle.std.specs.Prelude.{◌≡◌, ◌+◌, ◌-◌, ◌*◌, ◌^◌, ◌<◌, ◌≤◌, length};
ghost use Rattle.rules.specs.DayFile.{command_width};
ghost use Rattle.endian.specs.Written.{Written};
ghost use Rattle.mending.specs.Mend.{reason as Mend·reason, kept as Mend·kept, kept_bytes, dropped, entry, entry_width};
ghost use Rattle.mending.specs.Reasons.{reason_in};

use super::reasons::Reason;
use commands::{command_of, is_malformed};
use endian::reading::record_at;
use endian::writing::{put_byte, put_part, put_u64};

// Why record k is dropped where n are kept before it: none for one that is kept.
#[tactic(auto, using(crate::proofs::Records::malformed, crate::proofs::Records::surplus, crate::proofs::Records::no_reason))]
pub fn reason(file: &[u8], first: usize, k: usize, n: usize) -> Option<Reason>
    requires { first + command_width * k + command_width ≤ length file.now }
    ensures { reason_in result ≡ Mend·reason file.now first k n }
{
    let command = command_of(record_at(file, first + rules::COMMAND_WIDTH * k));
    if is_malformed(command) {
        return Some(Reason::Malformed);
    }
    if rules::MAX_COMMANDS <= n {
        return Some(Reason::Surplus);
    }
    None
}

// How many of the first n records are kept.
pub fn count_kept(file: &[u8], first: usize, n: usize) -> usize
    requires { first + command_width * n ≤ length file.now }
    ensures { result ≡ Mend·kept file.now first n }
{
    let mut kept = 0;
    for k in 0..n {
        if reason(file, first, k, kept).is_none() {
            kept += 1;
        }
    }
    kept
}

// The kept ones of the first n records.
pub fn put_kept(file: &[u8], first: usize, n: usize, out: &mut [u8], at: usize) -> usize
    requires n_in_bounds { first + command_width * n ≤ length file.now }
    requires n_in_bounds_2 { at + command_width * Mend·kept file.now first n ≤ length out.old }
    ensures { Written (command_width * n) out.old at (kept_bytes file.now first n) out.new result }
{
    let mut next = at;
    let mut kept = 0;
    for k in 0..n {
        if reason(file, first, k, kept).is_none() {
            let from = first + rules::COMMAND_WIDTH * k;
            next = put_part(out, next, file, from, rules::COMMAND_WIDTH);
            kept += 1;
        }
    }
    next
}

// The list's entry for record k, counted from 0; in the list it is counted from 1.
pub fn put_entry(list: &mut [u8], at: usize, k: usize, why: u8) -> usize
    requires { (at + entry_width ≤ length list.old) × (k + 1 < 2 ^ 64) }
    ensures { Written entry_width list.old at (entry k why) list.new result }
{
    let next = put_u64(list, at, k as u64 + 1);
    put_byte(list, next, why)
}

// The entries of the dropped ones of the first n records.
pub fn put_dropped(file: &[u8], first: usize, n: usize, list: &mut [u8], at: usize) -> usize
    requires n_in_bounds { first + command_width * n ≤ length file.now }
    requires n_in_bounds_2 { at + entry_width * (n - Mend·kept file.now first n) ≤ length list.old }
    ensures { Written (entry_width * n) list.old at (dropped file.now first n) list.new result }
{
    let mut next = at;
    let mut kept = 0;
    for k in 0..n {
        match reason(file, first, k, kept) {
            None => kept += 1,
            Some(why) => next = put_entry(list, next, k, why.number()),
        }
    }
    next
}
