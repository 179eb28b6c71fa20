//! How many bytes packets and their copies take, against the sizes that the formats give.

use kr_order::*;
use std::alloc::Global;
use std::test::Fail;

// A batch of 32 pairs.
fn full_batch(alloc: Global) -> Result<Batch, PushStop> {
    let mut batch = Batch::new(alloc);
    for _ in 0..MOST_PAIRS {
        batch.push(Pair {
            first: EventId(1),
            second: EventId(2),
            kind: Kind::Must,
        })?;
    }
    Ok(batch)
}

// The bytes of a packet with this message, and of its copy.
fn bytes_of(alloc: Global, message: Message) -> Result<(u64, u64), NoMemory> {
    let packet = Packet {
        from: Node::Client(ClientId(1)),
        to: Node::Server(ServerId(1)),
        message,
    };
    let copy = packet.copy(alloc)?;
    Ok((packet.wire_len(), copy.wire_len()))
}

#[test]
fn requests_and_replies_take_the_bytes_of_their_fields(rt: HostRuntime) -> Result<(), Fail> {
    let alloc = rt.alloc();
    let create = Message::Request {
        seq: 1,
        command: Command::Create,
    };
    assert_eq!(rt; bytes_of(alloc, create)?, (19, 19));

    let created = Message::Replied {
        seq: 1,
        placed: Placed {
            place: 1,
            reply: Reply::Created(EventId(1)),
        },
    };
    assert_eq!(rt; bytes_of(alloc, created)?, (35, 35));

    let assign = Message::Request {
        seq: 1,
        command: Command::Assign(full_batch(alloc)?),
    };
    assert_eq!(rt; bytes_of(alloc, assign)?, (564, 564));
    Ok(())
}

#[test]
fn an_append_takes_the_bytes_of_its_entries(rt: HostRuntime) -> Result<(), Fail> {
    let alloc = rt.alloc();
    for count in 0u64..4 {
        let mut entries = Entries::new(alloc);
        for _ in 0..count {
            entries.push(Entry {
                client: ClientId(1),
                seq: 1,
                command: Command::Assign(full_batch(alloc)?),
            })?;
        }
        let size = 19 + 558 * count;
        assert_eq!(rt;
            bytes_of(alloc, Message::Append { first: 1, entries })?,
            (size, size)
        );
    }
    Ok(())
}

#[test]
fn answers_and_views_take_the_bytes_of_their_fields(rt: HostRuntime) -> Result<(), Fail> {
    let alloc = rt.alloc();
    let mut answers = Answers::new(alloc);
    for _ in 0..MOST_PAIRS {
        answers.push(Answer::Before)?;
    }
    let told = Told { entry: 1, answers };
    assert_eq!(rt;
        bytes_of(
            alloc,
            Message::Answered {
                q: 1,
                part: 1,
                told
            }
        )?,
        (60, 60)
    );

    let mut chain = Servers::new(alloc);
    let mut more = Servers::new(alloc);
    chain.push(ServerId(1))?;
    more.push(ServerId(2))?;
    chain.append(more)?;
    let view = View {
        number: 1,
        chain,
        joiner: Some(ServerId(3)),
    };
    assert_eq!(rt; bytes_of(alloc, Message::NewView { view })?, (31, 31));
    Ok(())
}
