//! Links that a test opens in its own way. No door is opened at them.
ghost use Rattle.snmp_io.specs.Count.{HasIncreased};

use snmp_agent::{Config, Served, Table};
use snmp_net::Links;
use snmp_walk::{Link, LinkFault};

/// Opens links.
pub trait Opener {
    ghost use Rattle.std.specs.Prelude.{[], ◌≡◌, IfOk};

    /// A link to an agent.
    type Wire: Link + Drop;

    /// Opens a link over which nothing was sent.
    fn open_link(&mut self) -> Result<Self::Wire, LinkFault>
        ensures fresh { IfOk result (λ wire. (Self.Wire.traffic wire).sent ≡ []) };
}

/// A door, the socket of a server. It is never opened.
#[derive(Drop)]
pub struct NoDoor;

/// Links that an opener opens, to any host and port. `asked` counts the calls to open a link or a
/// door.
#[derive(Drop)]
pub struct Opened<O> {
    opener: O,
    pub asked: u64,
    fault_count: u64,
}

impl<O: Opener> Opened<O> {
    /// Returns the links that `opener` opens.
    pub fn new(opener: O) -> Opened<O> {
        Opened {
            opener,
            asked: 0,
            fault_count: 0,
        }
    }

    /// Counts a fault and returns it.
    fn fault(&mut self) -> LinkFault
        ensures { HasIncreased self.old.fault_count self.new.fault_count }
    {
        self.fault_count = self.fault_count.saturating_add(1);
        LinkFault
    }
}

impl<O: Opener + Drop> Links for Opened<O> {
    type Wire = O::Wire;

    type Door = NoDoor;

    ghost opens = { λ _ _ _ _ _ _. Unit {0} };

    ghost closes = { λ _ _ _. Unit {0} };

    ghost binds = { λ _ _ _ _ _. Unit {0} };

    ghost serves = { λ _ _ _ _ _ _ _. Unit {0} };

    ghost fails = { λ _ _. Unit {0} };

    ghost fault_count = { λ links. links.fault_count };

    fn open(&mut self, _host: &str, _port: u16, _seconds: u64) -> Result<O::Wire, LinkFault> {
        self.asked = self.asked.saturating_add(1);
        if let Ok(wire) = self.opener.open_link() {
            return Ok(wire);
        }
        Err(self.fault())
    }

    fn close(&mut self, _wire: O::Wire) {}

    fn bind(&mut self, _host: &str, _port: u16) -> Result<NoDoor, LinkFault> {
        self.asked = self.asked.saturating_add(1);
        Err(self.fault())
    }

    fn serve(
        &mut self,
        _door: &mut NoDoor,
        _table: &Table,
        _config: &Config<'_>,
        turns: u64,
    ) -> Served {
        Served {
            idle: turns,
            ..Served::default()
        }
    }

    fn faults(&self) -> u64 {
        self.fault_count
    }
}
