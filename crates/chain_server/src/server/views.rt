//! Views that the manager makes.

ghost use Rattle.std.specs.Prelude.{◌≡◌, Some, true, false, OnOk, OnErr};
ghost use Rattle.kr_protocol.specs.Server.{acknowledged, server_ticks, need_then, viewing, may_adopt, adopts, after_view};
ghost use Rattle.chain_server.specs.Calls.{Does, AddsTo};

use super::Server;
use super::viewed::{are_same, joiner_behind};
use crate::Effects;
use kr_order::{Copied, NoMemory, View};
use order_state::Board;

impl<B: Board> Server<B> {
    // Whether the view is newer than the server's own and names the server.
    fn may_adopt(&self, view: &View) -> bool
        ensures { result ≡ may_adopt self.now.server view.now }
    {
        self.view_number() < view.number && view.names(self.id)
    }

    // How many entries a joiner has to have by the view: as many as this server had when it first saw that it joins.
    fn need_then(&self, view: &View) -> u64
        ensures { result ≡ need_then self.now.server (record self.now.server { view = Some view.now }) }
    {
        let joiner = joiner_behind(view, self.id);
        if joiner.is_none() || are_same(self.behind(), joiner) {
            self.need
        } else {
            self.log.len()
        }
    }

    // This is the server's view from now on. Who follows it by that, where it is another, is not known to have any entry.
    fn go_to(&mut self, view: &View) -> Result<(), NoMemory>
        requires { self.old.failed ≡ false }
        ensures viewed { OnOk result (self.new ≡ record { server = viewing self.old.server view.now; failed = false }) }
        ensures same { OnOk result (acknowledged self.new.server ≡ acknowledged self.old.server) }
        ensures err { OnErr result (self.new.failed ≡ true) }
    {
        self.failed = true;
        let adopted = view.copy(self.alloc)?;
        self.need = self.need_then(view);
        self.link.aim(view.next_of(self.id));
        self.view = Some(adopted);
        self.failed = false;
        Ok(())
    }

    // What the server sends when its time has come is sent behind this.
    fn tick_behind(&mut self, mut effects: Effects) -> Result<Effects, NoMemory>
        requires { self.old.failed ≡ false }
        ensures { AddsTo effects self.old (server_ticks self.old.server) result self.new }
    {
        self.failed = true;
        let packets = self.ticks()?;
        effects.packets.append(packets)?;
        self.failed = false;
        Ok(effects)
    }

    // The server adopts the view.
    fn adopt(&mut self, view: &View) -> Result<Effects, NoMemory>
        requires { self.old.failed ≡ false }
        ensures { Does self.old (adopts self.old.server view.now) result self.new }
    {
        self.go_to(view)?;
        let effects = self.advance_at_tail()?;
        self.tick_behind(effects)
    }

    // The manager tells of a view.
    pub(super) fn take_view(&mut self, view: &View) -> Result<Effects, NoMemory>
        requires { self.old.failed ≡ false }
        ensures does { Does self.old (after_view self.old.server view.now) result self.new }
        ensures err { OnErr result (may_adopt self.old.server view.now ≡ true) }
    {
        if !self.may_adopt(view) {
            return Ok(Effects::none(self.alloc));
        }
        self.adopt(view)
    }
}
