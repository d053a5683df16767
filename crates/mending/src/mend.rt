// A day file mended into one lent area, with the list of what was dropped in another. `mend` is a call for users: it answers
// on anything. The others are for this file, and say what they require.
ghost use Rattle.std.specs.Prelude.{◌≡◌, ◌≤◌, length};
ghost use Rattle.areas.specs.Lists.{over};
ghost use Rattle.rules.specs.DayFile.{command_place};
ghost use Rattle.rules.specs.Codes.{code_number};
ghost use Rattle.mending.specs.Mend.{MendIs, whole_records, kept as Mend·kept, dropped_count, mended_file, list_from};

use super::reasons::Reason;
use super::verdict::{count_kept, put_dropped, put_entry, put_kept};
use dayfile::head::{Head, head_end};
use endian::writing::{put_part, put_u32, put_u64};
use rules::codes::Code;

// How many bytes the list's count takes, and an entry of it.
const LIST_COUNT_WIDTH: usize = 8;

const ENTRY_WIDTH: usize = 9;

// 0, or the code that refuses, and how many bytes of the two areas are written.
#[repr(C)]
#[derive(Clone, Copy)]
pub struct Mended {
    pub code: u32,
    pub length: usize,
    pub listed: usize,
}

// How many records are dropped, a partial one among them.
#[tactic(auto, using(crate::proofs::Records::kept_most, crate::proofs::Whole::count_whole, crate::proofs::Whole::count_partial))]
fn count_dropped(file: &[u8], first: usize, n: usize, kept: usize) -> usize
    requires { (first ≤ length file.now) × (n ≡ whole_records file.now first) × (kept ≡ Mend·kept file.now first n) }
    ensures { result ≡ dropped_count file.now first }
{
    let rest = file.len() - first;
    if rest % rules::COMMAND_WIDTH == 0 {
        return n - kept;
    }
    n - kept + 1
}

// The head, the number of kept records, the kept records.
fn put_file(head: &Head<'_>, first: usize, n: usize, kept: usize, out: &mut [u8])
    requires first_place { first ≡ command_place head.now.bytes.now 0 }
    requires n_value { (n ≡ whole_records head.now.bytes.now first) × (kept ≡ Mend·kept head.now.bytes.now first n) }
    requires file_in_bounds { length (mended_file head.now.bytes.now) ≤ length out.old }
    ensures { out.new ≡ over out.old 0 (mended_file head.now.bytes.now) }
{
    let part = put_part(out, 0, head.bytes, 0, first - rules::COUNT_WIDTH);
    let count = put_u32(out, part, kept as u32);
    put_kept(head.bytes, first, n, out, count);
}

// The number of dropped records, and an entry for each.
fn put_list(file: &[u8], first: usize, n: usize, dropped: usize, list: &mut [u8])
    requires first_in_bounds { (first ≤ length file.now) × (n ≡ whole_records file.now first) × (dropped ≡ dropped_count file.now first) }
    requires first_in_bounds_2 { length (list_from file.now first) ≤ length list.old }
    ensures { list.new ≡ over list.old 0 (list_from file.now first) }
{
    let rest = file.len() - first;
    let count = put_u64(list, 0, dropped as u64);
    let end = put_dropped(file, first, n, list, count);
    if rest % rules::COMMAND_WIDTH == 0 {
        return;
    }
    put_entry(list, end, n, Reason::Partial.number());
}

// Nothing is written.
fn refused(code: Code) -> Mended
    ensures { result ≡ record { code = code_number code; length = 0; listed = 0 } }
{
    Mended {
        code: code.number(),
        length: 0,
        listed: 0,
    }
}

#[tactic(auto, using(crate::proofs::Whole::head_broken))]
pub fn mend(file: &[u8], out: &mut [u8], list: &mut [u8]) -> Mended
    ensures { MendIs file.now out.old list.old result out.new list.new }
{
    let Some(head) = Head::of(file) else {
        return refused(Code::FileBroken);
    };
    let first = head_end(&head);
    let n = (file.len() - first) / rules::COMMAND_WIDTH;
    let kept = count_kept(file, first, n);
    let dropped = count_dropped(file, first, n, kept);
    let length = first + rules::COMMAND_WIDTH * kept;
    let listed = LIST_COUNT_WIDTH + ENTRY_WIDTH * dropped;
    if out.len() < length || list.len() < listed {
        return refused(Code::AreaTooShort);
    }
    put_file(&head, first, n, kept, out);
    put_list(file, first, n, dropped, list);
    Mended {
        code: 0,
        length,
        listed,
    }
}
