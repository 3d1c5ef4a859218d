//! The pods of all tenants, and the homes of all sessions.

ghost use Rattle.std.specs.Prelude.{◌≡◌, List, ◌∷◌, [], None, IfOk, OnOk, OnErr, IfSome};
ghost use Rattle.std.specs.Option.{option_map, option_copied};
ghost use Rattle.std.specs.FinMap as map;
ghost use Rattle.tenant_directory.specs.declared.directory.Home.{Home};
ghost use Rattle.tenant_directory.specs.Pods.{IsFit};
ghost use Rattle.tenant_directory.specs.Rows.{TenantPods};
ghost use Rattle.tenant_directory.specs.Newest.{pods_of, stale_version, answer_to};
ghost use Rattle.tenant_directory.specs.Standing.{StandsFor, rows_after};

use crate::pod::Pod;
use crate::row::TenantRow;
use pgw_frames::NoMemory;
use proxy_outside::{Place, SessionNo, TenantId};
use std::alloc::Global;
use std::collections::BTreeMap;
use std::marker::Model;

/// What became of a row.
#[derive(Clone, Copy, Debug, PartialEq, Eq)]
pub enum Applied {
    /// It counts now.
    Done,
    /// The row that counts has this version, which isn't below the new one's.
    Stale(u64),
}

/// Where a session is at home, and whose it is.
#[derive(Clone, Copy, Debug, PartialEq, Eq)]
pub struct Home {
    pub tenant: TenantId,
    pub place: Place,
}

/// Of each tenant the row that counts, and of each session that was settled its home. Contracts see
/// both as finite maps, and besides the list of all rows that were applied, the last one first.
#[derive(Drop)]
pub struct Directory {
    rows: BTreeMap<TenantId, TenantRow>,
    homes: BTreeMap<SessionNo, Home>,
}

impl Model for Directory {
    ghost use Rattle.proxy_outside.specs.Tables.{table_of};
    ghost use Rattle.std.specs.Coded.{codes};
    ghost use Rattle.tenant_directory.specs.Standing.{Listing, listing_code};

    ghost Value = { Listing };

    ghost coded = { listing_code (Prim.hlevel codes) (Prim.hlevel codes) (Prim.hlevel codes) (Prim.hlevel codes) };

    ghost view = { λ d. record { rows = table_of d.rows; homes = table_of d.homes } };
}

impl Directory {
    /// No tenant has pods, and no session is settled. It takes no memory.
    pub fn new(alloc: Global) -> Directory
        ensures value { result ≡ record { rows = map.empty; homes = map.empty } }
        ensures history { StandsFor result [] }
    {
        Directory {
            rows: BTreeMap::new(alloc),
            homes: BTreeMap::new(alloc),
        }
    }

    /// Takes a row in, where its tenant has none yet or one with a lower version; a stale row changes
    /// nothing. Only a tenant's first row takes memory. An `Err` changes nothing.
    pub fn apply(&mut self, row: TenantRow) -> Result<Applied, NoMemory>
        ensures ok { OnOk result (self.new ≡ record self.old { rows = rows_after self.old.rows row }) }
        ensures answer { IfOk result (λ a. a ≡ answer_to (map.get self.old.rows row.tenant) row) }
        ensures history { OnOk result ((rows : List TenantPods) → StandsFor self.old rows → StandsFor self.new (row ∷ rows)) }
        ensures err { OnErr result (self.new ≡ self.old) }
    {
        if let Some(version) = self.stale_version(&row) {
            return Ok(Applied::Stale(version));
        }
        self.rows.insert(row.tenant(), row)?;
        Ok(Applied::Done)
    }

    /// The version of the row that counts for this one's tenant, where it isn't below this one's.
    fn stale_version(&self, row: &TenantRow) -> Option<u64>
        ensures { result ≡ stale_version (map.get self.now.rows row.now.tenant) row.now }
    {
        let version = self.rows.get(&row.tenant())?.version();
        if row.version() <= version {
            return Some(version);
        }
        None
    }

    /// The pods of a tenant, or `None` where no row of it was applied. It takes no memory.
    pub fn pods(&self, tenant: TenantId) -> Option<&[Pod]>
        ensures value { option_copied result ≡ option_map (λ (r : TenantPods). r.pods) (map.get self.now.rows tenant) }
        ensures history { (rows : List TenantPods) → StandsFor self.now rows → option_copied result ≡ pods_of rows tenant }
        ensures fit { IfSome result (λ pods. IsFit pods.now) }
    {
        match self.rows.get(&tenant) {
            Some(row) => Some(row.pods()),
            None => None,
        }
    }

    /// Makes a place the home of a session, in place of an earlier one. Only a session without a home
    /// takes memory. An `Err` changes nothing.
    pub fn settle(
        &mut self,
        session: SessionNo,
        tenant: TenantId,
        place: Place,
    ) -> Result<(), NoMemory>
        ensures ok { OnOk result (self.new ≡ record self.old { homes = map.insert self.old.homes session (record { tenant = tenant; place = place }) }) }
        ensures err { OnErr result (self.new ≡ self.old) }
        ensures absent { OnErr result (map.get self.old.homes session ≡ None) }
    {
        self.homes.insert(session, Home { tenant, place })?;
        Ok(())
    }

    /// The place where a session is at home, if any. It takes no memory.
    pub fn home(&self, session: SessionNo) -> Option<Place>
        ensures { result ≡ option_map (λ (h : Home). h.place) (map.get self.now.homes session) }
    {
        let home = self.homes.get(&session)?;
        Some(home.place)
    }

    /// Forgets the home of a session. It takes no memory.
    pub fn leave(&mut self, session: SessionNo)
        ensures { self.new ≡ record self.old { homes = map.remove self.old.homes session } }
    {
        self.homes.remove(&session);
    }
}
