//! An order in a program of one's own, as docs/EMBEDDING.md has it: from nothing, then with a thread that asks beside the
//! writer, then with threads that take turns. What the program prints is the same whatever the threads do.
#![tactic(auto)]

mod board;
mod order;
mod turn;

use board::beside_a_writer;
use order::{create_all, from_nothing};
use order_state::State;
use turn::by_two_threads;

fn main(rt: HostRuntime) -> Result<(), anyhow::Error> {
    let alloc = rt.alloc();
    print!(rt; "{}", from_nothing(&rt, alloc)?)?;
    let entries = create_all(&mut State::new(alloc), 1, 1_000)?;
    println!(rt; "in a loop: {entries} entries")?;
    let told = beside_a_writer(&rt, alloc)?;
    for answer in told.answers.as_slice() {
        println!(rt; "beside a writer: 1 is {answer} 2")?;
    }
    let entries = by_two_threads(&rt, alloc, 1_000)?;
    println!(rt; "by two threads: {entries} entries")?;
    Ok(())
}
