//! The service on threads in a program of one's own, as docs/LIVE.md has it: two threads make events, and what they made is
//! put in order. What the program prints is the same whatever the threads do.
#![tactic(auto)]

mod shared;

use shared::by_two_threads;

fn main(rt: HostRuntime) -> Result<(), anyhow::Error> {
    let alloc = rt.alloc();
    let (told, entries) = by_two_threads(&rt, alloc, 100)?;
    for answer in told.answers.as_slice() {
        println!(rt; "the last of one is {answer} the last of the other")?;
    }
    println!(rt; "after {} entries, of {entries} in the journal", told.entry)?;
    Ok(())
}
