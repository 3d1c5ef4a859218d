//! The networks of one tenant's allow list.

ghost use Rattle.std.specs.Prelude.{◌≡◌, ◌++◌, option_to_list, IfOk, OnOk, OnErr};
ghost use Rattle.std.specs.List.{list_any};
ghost use Rattle.access_lists.specs.Networks.{has};

use crate::net::Net;
use pgw_frames::NoMemory;
use proxy_outside::Addr;
use std::alloc::Global;
use std::marker::Model;

/// Networks, in the order in which they were added. Contracts see a list.
#[derive(Debug, Drop)]
pub(crate) struct AllowList {
    nets: Vec<Net>,
}

impl Model for AllowList {
    ghost use Rattle.std.specs.Prelude.{List};
    ghost use Rattle.access_lists.specs.declared.net.Net.{Net};

    ghost Value = { List Net };

    ghost view = { λ l. l.nets.items };
}

impl AllowList {
    /// A list of this network, or of none.
    pub fn of(alloc: Global, net: Option<Net>) -> Result<AllowList, NoMemory>
        ensures { IfOk result (λ l. l ≡ option_to_list net) }
    {
        let mut nets = Vec::new(alloc);
        if let Some(net) = net {
            nets.push(net)?;
        }
        Ok(AllowList { nets })
    }

    /// Adds a network, where there is one. An `Err` changes nothing.
    pub fn add(&mut self, net: Option<Net>) -> Result<(), NoMemory>
        ensures ok { OnOk result (self.new ≡ self.old ++ option_to_list net) }
        ensures err { OnErr result (self.new ≡ self.old) }
    {
        if let Some(net) = net {
            self.nets.push(net)?;
        }
        Ok(())
    }

    pub fn has(&self, addr: &Addr) -> bool
        ensures { result ≡ list_any (λ net. has net addr.now) self.now }
    {
        self.nets.iter().any(|net| net.has(addr))
    }
}
