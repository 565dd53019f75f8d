// The hosts of an update.
use place_table::HostInfo;
use std::marker::Model;

/// The hosts of a table, as an update lists them; contracts see them as a list.
#[derive(Debug, Drop)]
pub struct Hosts {
    items: Vec<HostInfo>,
}

impl Model for Hosts {
    ghost use Rattle.std.specs.Prelude.{List};
    ghost use Rattle.place_table.specs.declared.host.HostInfo.{HostInfo};

    ghost Value = { List HostInfo };

    ghost view = { λ a. a.items.items };
}

impl Hosts {
    ghost use Rattle.std.specs.Prelude.{◌≡◌};

    /// The hosts in this vector, in its order.
    pub fn from_vec(items: Vec<HostInfo>) -> Hosts
        ensures { result ≡ items.items }
    {
        Hosts { items }
    }

    /// The hosts.
    pub fn as_slice(&self) -> &[HostInfo]
        ensures { result.now ≡ self.now }
    {
        self.items.as_slice()
    }

    /// The vector of the hosts. It takes no memory.
    pub fn into_vec(self) -> Vec<HostInfo>
        ensures { result.items ≡ self }
    {
        let Hosts { items } = self;
        items
    }
}
