//! Each call of a manager that may want memory, where memory suffices. What a manager does is shown by the runs in rows/.

use chain_manager::*;
use kr_order::{NoMemory, ServerId};
use std::alloc::Global;
use std::test::Fail;

// How many members of three are left without the second.
fn left(alloc: Global) -> Result<usize, Deny> {
    let mut manager = Manager::new(alloc, 3)?;
    Ok(manager.notice(ServerId(2), true)?.chain.len())
}

// The number of a server that joins.
fn joiner(mut manager: Manager) -> Result<u32, Deny> {
    Ok(manager.join()?.0.0)
}

// How many are told of the view.
fn told(manager: &Manager) -> Result<usize, NoMemory> {
    Ok(manager.announce()?.len())
}

// A manager of three servers, whom a fourth joins.
fn joined(alloc: Global) -> Result<Manager, Deny> {
    let mut manager = Manager::new(alloc, 3)?;
    let _ = manager.join()?;
    Ok(manager)
}

// The number of the view when the third server says of the fourth that it has caught up.
fn promoted(mut manager: Manager) -> Result<u64, NoMemory> {
    match manager.joined(ServerId(3), ServerId(4))? {
        Some(view) => Ok(view.number),
        None => Ok(0),
    }
}

#[test]
fn a_server_that_has_stopped_is_left_out(rt: HostRuntime) -> Result<(), Fail> {
    assert!(rt; left(rt.alloc())? == 2);
    Ok(())
}

#[test]
fn a_fourth_server_joins(rt: HostRuntime) -> Result<(), Fail> {
    assert!(rt; joiner(Manager::new(rt.alloc(), 3)?)? == 4);
    Ok(())
}

#[test]
fn the_joiner_is_promoted(rt: HostRuntime) -> Result<(), Fail> {
    assert!(rt; promoted(joined(rt.alloc())?)? == 3);
    Ok(())
}

#[test]
fn each_member_is_told(rt: HostRuntime) -> Result<(), Fail> {
    assert!(rt; told(&Manager::new(rt.alloc(), 3)?)? == 3);
    Ok(())
}
