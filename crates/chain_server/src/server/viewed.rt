//! What the view that a server has adopted says of it; one without a view has no part in the chain.

ghost use Rattle.std.specs.Prelude.{◌≡◌};
ghost use Rattle.kr_protocol.specs.Server.{is_server, is_member, is_first, is_at_tail, prev, joiner_behind, behind, are_same};

use super::Server;
use kr_order::{ServerId, View};
use order_state::Board;

// Whether this is that server.
pub(super) fn is_server(server: Option<ServerId>, id: ServerId) -> bool
    ensures { result ≡ is_server server id }
{
    match server {
        None => false,
        Some(server) => server.0 == id.0,
    }
}

// Whether these are the same server, or none both.
pub(super) fn are_same(one: Option<ServerId>, other: Option<ServerId>) -> bool
    ensures { result ≡ are_same one other }
{
    match one {
        None => other.is_none(),
        Some(one) => match other {
            None => false,
            Some(other) => one.0 == other.0,
        },
    }
}

// The joiner behind the server, where this is the last member of the view.
pub(super) fn joiner_behind(view: &View, id: ServerId) -> Option<ServerId>
    ensures { result ≡ joiner_behind view.now id }
{
    if is_server(view.last_member(), id) {
        view.joiner
    } else {
        None
    }
}

impl<B: Board> Server<B> {
    // Whether the server is a member of its chain.
    pub(super) fn is_member(&self) -> bool
        ensures { result ≡ is_member self.now.server }
    {
        match &self.view {
            None => false,
            Some(view) => view.in_chain(self.id),
        }
    }

    // Whether it is the first member.
    pub(super) fn is_first(&self) -> bool
        ensures { result ≡ is_first self.now.server }
    {
        match &self.view {
            None => false,
            Some(view) => view.in_chain(self.id) && view.prev_of(self.id).is_none(),
        }
    }

    // Whether it is the tail.
    pub(super) fn is_at_tail(&self) -> bool
        ensures { result ≡ is_at_tail self.now.server }
    {
        match &self.view {
            None => false,
            Some(view) => view.is_tail(self.id),
        }
    }

    // The server before this one.
    pub(super) fn prev(&self) -> Option<ServerId>
        ensures { result ≡ prev self.now.server }
    {
        match &self.view {
            None => None,
            Some(view) => view.prev_of(self.id),
        }
    }

    // The joiner that this server feeds.
    pub(super) fn behind(&self) -> Option<ServerId>
        ensures { result ≡ behind self.now.server }
    {
        match &self.view {
            None => None,
            Some(view) => joiner_behind(view, self.id),
        }
    }
}
