//! The line that ends the program, and the status of what was written.
ghost use Rattle.std.specs.Prelude.{◌≡◌, ◌⊎◌, ◌≤◌, ℕ, option_map};
ghost use Rattle.machine_defs.specs.Outside.{Rose};
ghost use Rattle.machine_defs.specs.Program.{cannot_read, too_long};
ghost use Rattle.map_run.specs.Ending.{WritesLast, last_of, put_status};

use map_io::{FetchFault, PutFault, Sink};

/// Writes the one line that ends the program, and answers the status.
pub fn write_last<S: Sink>(out: &mut S, line: &[u8], status: u8) -> u8
    ensures written { WritesLast (S.written out.old) (S.written out.new)
        (Rose (S.faults out.old) (S.faults out.new)) line.now status result }
    ensures unwritten { result ≡ 6 → (status ≡ 6) ⊎ Rose (S.faults out.old) (S.faults out.new) }
    ensures later { S.faults out.old ≤ S.faults out.new }
{
    match out.put(line) {
        Ok(()) => status,
        Err(PutFault::Failed) => 6,
        Err(PutFault::NoMemory) => 7,
    }
}

/// The status of an answer that was written, or cut short.
pub fn put_status(put: Result<(), PutFault>, status: u8) -> u8
    ensures { result ≡ put_status status put }
{
    match put {
        Ok(()) => status,
        Err(PutFault::Failed) => 6,
        Err(PutFault::NoMemory) => 7,
    }
}

/// The line that says why a file was not fetched, and the status; none for want of memory.
fn last_line(fault: FetchFault) -> Option<(&'static [u8], u8)>
    ensures { option_map (λ last. (last.0.now, last.1)) result ≡ last_of fault }
{
    match fault {
        FetchFault::Failed => Some((b"cannot read\n".as_slice(), 5)),
        FetchFault::TooLong { .. } => Some((b"too long\n".as_slice(), 4)),
        FetchFault::NoMemory => None,
    }
}

/// Writes the line that says why a file was not fetched, and answers the status. Want of memory has no line.
pub fn write_unfetched<S: Sink>(out: &mut S, fault: FetchFault) -> u8
    ensures failed { fault ≡ FetchFault.Failed → WritesLast (S.written out.old) (S.written out.new)
        (Rose (S.faults out.old) (S.faults out.new)) cannot_read 5 result }
    ensures too_long { (seen : ℕ) → fault ≡ FetchFault.TooLong seen → WritesLast (S.written out.old) (S.written out.new)
        (Rose (S.faults out.old) (S.faults out.new)) too_long 4 result }
    ensures no_memory { fault ≡ FetchFault.NoMemory → (result ≡ 7) × (S.written out.new ≡ S.written out.old) }
    ensures unread { result ≡ 5 → fault ≡ FetchFault.Failed }
    ensures unwritten { result ≡ 6 → Rose (S.faults out.old) (S.faults out.new) }
    ensures later { S.faults out.old ≤ S.faults out.new }
    ensures range { (4 ≤ result) × (result ≤ 7) }
{
    match last_line(fault) {
        Some((line, status)) => write_last(out, line, status),
        None => 7,
    }
}
